ghost use Rattle.std.specs.Prelude.{◌≡◌, ◌*◌, ◌/◌, ◌%◌, length, slice_index};
ghost use Rattle.hex.specs.Hex.{encode_lower, lower_digits};

// The two lower case digits of a byte, computed at once in the halves of one number.
fn digits_of(byte: u8) -> u16
    ensures first { result % 256 ≡ slice_index lower_digits (byte / 16) }
    ensures second { result / 256 ≡ slice_index lower_digits (byte % 16) }
{
    let nibbles = (byte as u16).wrapping_mul(4097) / 16;
    let letters = ((nibbles + 0x0606) / 16) & 0x0101;
    nibbles + 0x3030 + letters * 39
}

/// Writes the bytes as lower case hex digits.
pub fn encode_lower(bytes: &[u8], digits: &mut [u8])
    requires { length digits.old ≡ 2 * length bytes.now }
    ensures { digits.new ≡ encode_lower bytes.now }
{
    'bytes: for i in 0..bytes.len() {
        let pair = digits_of(bytes[i]);
        digits[2 * i] = (pair % 256) as u8;
        digits[2 * i + 1] = (pair / 256) as u8;
    }
}

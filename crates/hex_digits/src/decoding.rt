ghost use Rattle.std.specs.Prelude.{◌≡◌, nat_lt, ◌*◌, ◌<◌, ℕ, List, length, true, IsTrue, ◌↔◌, Ok};
ghost use Rattle.std.specs.Bool.{OnTrue, OnFalse};
ghost use Rattle.std.specs.List.{AllPass};
ghost use Rattle.hex.specs.Hex.{decode_of, is_hex_digit, pair_value};

// Below 10 for a hex digit, in either case, and no other byte.
fn strangeness(digit: u8) -> u8
    ensures { nat_lt result 10 ≡ is_hex_digit digit }
{
    let number = digit.wrapping_sub(48);
    let letter = (digit | 32).wrapping_sub(97).saturating_add(4);
    if number < letter { number } else { letter }
}

// Whether all are hex digits.
fn all_digits(digits: &[u8]) -> bool
    ensures { IsTrue result ↔ AllPass is_hex_digit digits.now }
{
    let mut worst = 0;
    'digits: for i in 0..digits.len() {
        let strange = strangeness(digits[i]);
        worst = if worst < strange { strange } else { worst };
    }
    worst < 10
}

// The byte of two digits, both computed in the halves of one number.
fn byte_of(high: u8, low: u8) -> u8
    requires high_is_digit { is_hex_digit high ≡ true }
    requires low_is_digit { is_hex_digit low ≡ true }
    ensures { (i : ℕ) → pair_value high low i ≡ Ok result }
{
    let pair = high as u16 + low as u16 * 256;
    let values = (pair & 0x0f0f) + ((pair >> 6) & 0x0101) * 9;
    (values.wrapping_mul(4097) / 256) as u8
}

// Writes the bytes of digits.
fn fill(digits: &[u8], bytes: &mut [u8])
    requires room { length digits.now ≡ 2 * length bytes.old }
    requires valid { AllPass is_hex_digit digits.now }
    ensures { decode_of digits.now ≡ Ok bytes.new }
{
    'bytes: for i in 0..bytes.len() {
        bytes[i] = byte_of(digits[2 * i], digits[2 * i + 1]);
    }
}

/// Writes the bytes that hex digits of either case stand for, and answers false where one is no digit.
pub fn decode(digits: &[u8], bytes: &mut [u8]) -> bool
    requires { length digits.now ≡ 2 * length bytes.old }
    ensures found { OnTrue result (decode_of digits.now ≡ Ok bytes.new) }
    ensures none { OnFalse result ((content : List ℕ) → decode_of digits.now ≡ Ok content → ⊥) }
{
    if !all_digits(digits) {
        return false;
    }
    fill(digits, bytes);
    true
}

//! The fields of records of a fixed layout: numbers with their highest byte first, and runs of zeros.
#![tactic(auto)]

ghost use Rattle.std.specs.Prelude.{◌≡◌, ℕ, ◌<◌, ◌^◌, ◌↔◌, IsTrue, length, replicate};
ghost use Rattle.std.specs.Int.{w16, w64, to_be_bytes};

/// The number that two bytes spell, the highest byte first.
pub fn u16_of(field: &[u8]) -> u16
    requires { length field.now ≡ 2 }
    ensures spelled { field.now ≡ to_be_bytes w16 result }
    // No other number has these bytes.
    ensures only { (n : ℕ) → n < 2 ^ 16 → field.now ≡ to_be_bytes w16 n → result ≡ n }
{
    u16::from_be_bytes([field[0], field[1]])
}

/// The number that eight bytes spell, the highest byte first.
pub fn u64_of(field: &[u8]) -> u64
    requires { length field.now ≡ 8 }
    ensures spelled { field.now ≡ to_be_bytes w64 result }
    // No other number has these bytes.
    ensures only { (n : ℕ) → n < 2 ^ 64 → field.now ≡ to_be_bytes w64 n → result ≡ n }
{
    u64::from_be_bytes([
        field[0], field[1], field[2], field[3], field[4], field[5], field[6], field[7],
    ])
}

/// Whether every byte is zero.
pub fn are_zero(field: &[u8]) -> bool
    ensures { IsTrue result ↔ (field.now ≡ replicate (length field.now) 0) }
{
    // Without a way out of the loop many bytes are taken at a time.
    let mut greatest = 0u8;
    for byte in field {
        greatest = greatest.max(*byte);
    }
    greatest == 0
}

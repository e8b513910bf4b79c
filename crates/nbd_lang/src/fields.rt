//! A field of four bytes. Those of two and of eight are read by `record_fields`, which has no
//! other.
ghost use Rattle.std.specs.Prelude.{◌≡◌, ◌<◌, ◌^◌, ℕ, length};
ghost use Rattle.std.specs.Int.{w32, to_be_bytes};

/// The number that four bytes spell, the highest byte first.
pub(crate) fn u32_of(field: &[u8]) -> u32
    requires { length field.now ≡ 4 }
    ensures spelled { field.now ≡ to_be_bytes w32 result }
    // No other number has these bytes.
    ensures only { (n : ℕ) → n < 2 ^ 32 → field.now ≡ to_be_bytes w32 n → result ≡ n }
{
    u32::from_be_bytes([field[0], field[1], field[2], field[3]])
}

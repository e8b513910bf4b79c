//! The next field of what was not read yet.
ghost use Rattle.std.specs.Prelude.{◌≡◌, ℕ, List, ◌++◌, ◌<◌, ◌^◌, IfSome, IsSomeAnd, length};
ghost use Rattle.std.specs.Int.{w16, w32, to_be_bytes};
ghost use Rattle.tpm_nv.specs.Fields.{sized};

use record_fields::u16_of;

/// The number that four bytes spell.
fn u32_of(field: &[u8]) -> u32
    requires { length field.now ≡ 4 }
    ensures spelled { field.now ≡ to_be_bytes w32 result }
    ensures only { (n : ℕ) → n < 2 ^ 32 → field.now ≡ to_be_bytes w32 n → result ≡ n }
{
    u32::from_be_bytes([field[0], field[1], field[2], field[3]])
}

/// A number of two bytes, and what follows it; `None` where fewer are left.
pub(crate) fn take_u16(bytes: &[u8]) -> Option<(u16, &[u8])>
    ensures found { IfSome result (λ part. (part.0 < 2 ^ 16) × (bytes.now ≡ to_be_bytes w16 part.0 ++ part.1.now)) }
    ensures only { (n : ℕ) (rest : List ℕ) → n < 2 ^ 16 → bytes.now ≡ to_be_bytes w16 n ++ rest
        → IsSomeAnd result (λ part. (part.0 ≡ n) × (part.1.now ≡ rest)) }
{
    let (field, rest) = bytes.split_at_checked(2)?;
    Some((u16_of(field), rest))
}

/// A number of four bytes, and what follows it; `None` where fewer are left.
pub(crate) fn take_u32(bytes: &[u8]) -> Option<(u32, &[u8])>
    ensures found { IfSome result (λ part. (part.0 < 2 ^ 32) × (bytes.now ≡ to_be_bytes w32 part.0 ++ part.1.now)) }
    ensures only { (n : ℕ) (rest : List ℕ) → n < 2 ^ 32 → bytes.now ≡ to_be_bytes w32 n ++ rest
        → IsSomeAnd result (λ part. (part.0 ≡ n) × (part.1.now ≡ rest)) }
{
    let (field, rest) = bytes.split_at_checked(4)?;
    Some((u32_of(field), rest))
}

/// Bytes with their number before them, and what follows them; `None` where fewer are left.
#[tactic(auto, unfolding(crate::specs::Fields::sized))]
pub(crate) fn take_sized(bytes: &[u8]) -> Option<(&[u8], &[u8])>
    ensures found { IfSome result (λ part. (length part.0.now < 2 ^ 16) × (bytes.now ≡ sized part.0.now ++ part.1.now)) }
    ensures only { (field rest : List ℕ) → length field < 2 ^ 16 → bytes.now ≡ sized field ++ rest
        → IsSomeAnd result (λ part. (part.0.now ≡ field) × (part.1.now ≡ rest)) }
{
    let (size, rest) = take_u16(bytes)?;
    rest.split_at_checked(size as usize)
}

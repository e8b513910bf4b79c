//! The word that says where a root record is.
ghost use Rattle.std.specs.Prelude.{◌≡◌, ◌↔◌, ◌<◌, ◌^◌, ◌≤◌, ◌++◌, ◌∷◌, ℕ, List, Option, Some, IfSome, IfNone, IfOk, OnErr, IsOkAnd, IsSomeAnd, IsTrue, codes};
ghost use Rattle.tpm_nv.specs.Cells.{Place, Spells, SpellsOnTpm, IsIndexText, IsHexNumber, place_of, device_of, Lacks};

use crate::index::Index;

/// An index of a TPM.
#[derive(Clone, Copy)]
pub struct OnTpm<'a> {
    /// The index.
    pub index: Index,
    /// The name of the device file that the TPM is behind, where one is named.
    pub device: Option<&'a str>,
}

/// A word that begins with `tpm:` and names no index.
#[derive(Clone, Copy, Debug, PartialEq, Eq)]
pub struct BadIndex;

/// Where a root record is, by a word: in the index of `tpm:INDEX` or `tpm:INDEX@DEVICE`, INDEX being `0x`
/// and 1 to 8 hex digits of either case and DEVICE not empty; or, where the word doesn't begin with `tpm:`,
/// in the folder of this name, which is `None` here.
pub fn parse_cell(word: &str) -> Result<Option<OnTpm<'_>>, BadIndex>
    ensures found { IfOk result (λ cell. Spells word.now (place_of cell)) }
    ensures none { OnErr result ((place : Place) → Spells word.now place → ⊥) }
    // What a word spells is read as that.
    ensures again { (place : Place) → Spells word.now place → IsOkAnd result (λ cell. place_of cell ≡ place) }
{
    match behind_tpm(word) {
        None => Ok(None),
        Some(rest) => match parse_on_tpm(rest) {
            Some((index, device)) => Ok(Some(OnTpm { index, device })),
            None => Err(BadIndex),
        },
    }
}

/// What stands behind `tpm:` in a word that begins so.
fn behind_tpm(word: &str) -> Option<&str>
    ensures found { IfSome result (λ rest. word.now ≡ codes "tpm:" ++ rest.now) }
    ensures only { (rest : List ℕ) → word.now ≡ codes "tpm:" ++ rest → IsSomeAnd result (λ found. found.now ≡ rest) }
{
    let (scheme, rest) = split_at_mark(word, ':')?;
    if is_text(scheme, b"tpm") {
        Some(rest)
    } else {
        None
    }
}

/// The index, and the device where one stands behind `@`.
fn parse_on_tpm(rest: &str) -> Option<(Index, Option<&str>)>
    ensures found { IfSome result (λ it. SpellsOnTpm rest.now it.0 (device_of it.1)) }
    ensures only { (index : ℕ) (device : Option (List ℕ)) → SpellsOnTpm rest.now index device
        → IsSomeAnd result (λ it. (it.0 ≡ index) × (device_of it.1 ≡ device)) }
{
    let Some((text, device)) = split_at_mark(rest, '@') else {
        let index = parse_index(rest)?;
        return Some((index, None));
    };
    let index = parse_index(text)?;
    if device.is_empty() {
        return None;
    }
    Some((index, Some(device)))
}

/// The index of a text of `0x` and 1 to 8 hex digits.
fn parse_index(text: &str) -> Option<Index>
    ensures found { IfSome result (λ index. IsIndexText text.now index) }
    ensures only { (index : ℕ) → IsIndexText text.now index → result ≡ Some index }
{
    let (zero, digits) = split_at_mark(text, 'x')?;
    if !is_text(zero, b"0") {
        return None;
    }
    let handle = parse_hex(digits)?;
    Index::new(handle)
}

/// The number of 1 to 8 hex digits.
fn parse_hex(digits: &str) -> Option<u32>
    ensures found { IfSome result (λ n. IsHexNumber digits.now n) }
    ensures only { (n : ℕ) → n < 2 ^ 32 → IsHexNumber digits.now n → result ≡ Some n }
{
    // A plus would be read, too.
    if digits.len() > 8 || digits.starts_with('+') {
        return None;
    }
    u32::from_str_radix(digits, 16).ok()
}

/// What stands before the first mark of a text, and what behind it.
fn split_at_mark(text: &str, mark: char) -> Option<(&str, &str)>
    requires { mark < 128 }
    ensures found { IfSome result (λ parts. Lacks mark parts.0.now × (text.now ≡ parts.0.now ++ mark ∷ parts.1.now)) }
    ensures only { (a b : List ℕ) → Lacks mark a → text.now ≡ a ++ mark ∷ b
        → IsSomeAnd result (λ parts. (parts.0.now ≡ a) × (parts.1.now ≡ b)) }
    ensures none { IfNone result (Lacks mark text.now) }
{
    text.split_once(mark)
}

fn is_text(text: &str, other: &[u8]) -> bool
    ensures { IsTrue result ↔ (text.now ≡ other.now) }
{
    text.as_bytes() == other
}

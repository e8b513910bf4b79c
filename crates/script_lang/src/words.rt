//! The parts of a line: numbers, hex text and the words between single spaces.

ghost use Rattle.std.specs.Prelude.{◌≡◌, ℕ, List, ◌∷◌, ◌++◌, IfSome, IfNone, IsSomeAnd, IsTrue, ◌↔◌, ◌<◌, ◌≤◌, ◌^◌, take};
ghost use Rattle.std.specs.Fmt.{decimal};
ghost use Rattle.script_lang.specs.Grammar.{IsNumber, IsHex};
ghost use Rattle.text_lines.specs.Lines.{HasNone};

use sdbt_base::BLOCK;

/// Whether a line is this text.
pub(crate) fn is_text(line: &[u8], text: &[u8]) -> bool
    ensures { IsTrue result ↔ (line.now ≡ text.now) }
{
    line == text
}

/// The number that a text spells: decimal digits with no sign and no leading zero, at most 2^64-1.
pub fn parse_number(text: &[u8]) -> Option<u64>
    ensures found { IfSome result (λ n. IsNumber text.now n) }
    ensures none { IfNone result ((n : ℕ) → IsNumber text.now n → ⊥) }
{
    let number = std::str::from_utf8(text).ok()?.parse::<u64>().ok()?;
    // `parse` also reads a plus and leading zeros, which no number is printed with.
    let mut printed = itoa::Buffer::new();
    if printed.format(number).as_bytes() == text {
        Some(number)
    } else {
        None
    }
}

/// Decodes 2 to 8,192 hex digits of either case, two digits a byte, to the front of a buffer, and answers how many bytes they are.
pub fn parse_hex(text: &[u8], buffer: &mut [u8; BLOCK]) -> Option<usize>
    ensures found { IfSome result (λ count. IsHex text.now (take count buffer.new)) }
    ensures fits { IfSome result (λ count. count ≤ 4096) }
    ensures none { IfNone result ((content : List ℕ) → IsHex text.now content → ⊥) }
{
    let count = text.len() / 2;
    if count == 0 {
        return None;
    }
    if count > BLOCK {
        return None;
    }
    if !text.len().is_multiple_of(2) {
        return None;
    }
    if hex_digits::decode(text, &mut buffer[..count]) {
        Some(count)
    } else {
        None
    }
}

/// The number before the first space of a text, and what stands behind that space.
pub fn number_before(text: &[u8]) -> Option<(u64, &[u8])>
    ensures found { IfSome result (λ parts. (parts.0 < 2 ^ 64) × (text.now ≡ decimal parts.0 ++ 32 ∷ parts.1.now)) }
    ensures only { (n : ℕ) (rest : List ℕ) → n < 2 ^ 64 → text.now ≡ decimal n ++ 32 ∷ rest
        → IsSomeAnd result (λ parts. (parts.0 ≡ n) × (parts.1.now ≡ rest)) }
{
    let (word, rest) = split_word(text)?;
    let number = parse_number(word)?;
    Some((number, rest))
}

/// What stands before the first space of a text, and what stands behind it.
fn split_word(text: &[u8]) -> Option<(&[u8], &[u8])>
    ensures found { IfSome result (λ parts. HasNone 32 parts.0.now × (text.now ≡ parts.0.now ++ 32 ∷ parts.1.now)) }
    ensures none { IfNone result (HasNone 32 text.now) }
{
    let space = text.iter().position(|byte| *byte == b' ')?;
    let (word, rest) = text.split_at(space);
    Some((word, &rest[1..]))
}

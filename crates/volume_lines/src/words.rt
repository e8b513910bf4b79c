//! The words of a line: a name before a space, and the number and bytes of a write.
ghost use Rattle.std.specs.Prelude.{◌≡◌, ◌≢◌, ◌↔◌, ◌+◌, ◌≤◌, ◌∷◌, ◌++◌, ℕ, List, IfSome, IfNone, IsSomeAnd, IsTrue, codes, drop, length, take};
ghost use Rattle.script_lang.specs.Commands as commands;
ghost use Rattle.script_lang.specs.Grammar.{IsNumber, Spells};
ghost use Rattle.text_lines.specs.Lines.{HasNone};
ghost use Rattle.volume_table.specs.Names.{IsName};

use script_lang::{parse_number, parse_write_operands};
use sdbt_base::BLOCK;
use volume_table::Name;

/// Whether a line is this text.
pub(crate) fn is_text(line: &[u8], text: &[u8]) -> bool
    ensures { IsTrue result ↔ (line.now ≡ text.now) }
{
    line == text
}

/// The name before the first space of a text, and the place behind that space.
fn name_before(text: &[u8]) -> Option<(Name, usize)>
    ensures found { IfSome result (λ it. IsName it.0 × (text.now ≡ it.0 ++ 32 ∷ drop it.1 text.now) × (it.1 ≤ length text.now)) }
    ensures only { (name rest : List ℕ) → IsName name → text.now ≡ name ++ 32 ∷ rest
        → IsSomeAnd result (λ it. (it.0 ≡ name) × (drop it.1 text.now ≡ rest)) }
{
    let (word, _rest) = split_word(text)?;
    let name = Name::new(word)?;
    Some((name, word.len() + 1))
}

/// The name before the first space of a text, and the number behind it.
pub(crate) fn parse_named_number(text: &[u8]) -> Option<(Name, u64)>
    ensures found { IfSome result (λ it. IsName it.0 × (rest : List ℕ) × IsNumber rest it.1 × (text.now ≡ it.0 ++ 32 ∷ rest)) }
    ensures none { IfNone result ((name rest : List ℕ) (n : ℕ) → IsName name → IsNumber rest n → text.now ≡ name ++ 32 ∷ rest → ⊥) }
{
    let (name, at) = name_before(text)?;
    let number = parse_number(text_from(text, at))?;
    Some((name, number))
}

/// The name before the first space of a text, and the block and the number of bytes of the write behind it, whose bytes come to the
/// front of the buffer.
pub(crate) fn parse_named_write(
    text: &[u8],
    buffer: &mut [u8; BLOCK],
) -> Option<(Name, (u64, usize))>
    ensures found { IfSome result (λ it. IsName it.0 × (rest : List ℕ) × (text.now ≡ it.0 ++ 32 ∷ rest)
        × Spells (codes "write " ++ rest) (commands.Write it.1.0 (take it.1.1 buffer.new)) × (it.1.1 ≤ 4096)) }
    ensures none { IfNone result ((name rest : List ℕ) (block : ℕ) (content : List ℕ) → IsName name → text.now ≡ name ++ 32 ∷ rest
        → Spells (codes "write " ++ rest) (commands.Write block content) → ⊥) }
{
    let (name, at) = name_before(text)?;
    let write = parse_write_operands(text_from(text, at), buffer)?;
    Some((name, write))
}

/// What stands from this place of a text on.
fn text_from(text: &[u8], at: usize) -> &[u8]
    requires { at ≤ length text.now }
    ensures { result.now ≡ drop at text.now }
{
    &text[at..]
}

/// What stands before the first space of a text, and what stands behind it.
fn split_word(text: &[u8]) -> Option<(&[u8], &[u8])>
    ensures found { IfSome result (λ parts. HasNone 32 parts.0.now × (text.now ≡ parts.0.now ++ 32 ∷ parts.1.now)) }
    ensures none { IfNone result (HasNone 32 text.now) }
{
    let space = text.iter().position(|byte| *byte == b' ')?;
    let (word, rest) = text.split_at(space);
    Some((word, &rest[1..]))
}

//! What lines ask for, and their grammar.
ghost use Rattle.std.specs.Prelude.{◌≡◌, ◌<◌, ℕ, List, length, IfSome, IfNone};
ghost use Rattle.volume_lines.specs.Lines as lines;
ghost use Rattle.volume_lines.specs.Lines.{Line as Asked, FitsBlock, asked};
ghost use Rattle.volume_lines.specs.Grammar.{Spells, IsBad};

use crate::words::{is_text, parse_named_number, parse_named_write};
use sdbt_base::BLOCK;
use volume_table::Name;

/// A line, read. What a write writes stands apart, at the front of a buffer.
#[derive(Clone, Copy)]
pub enum Line {
    /// Makes a volume of so many blocks, which all hold zeros.
    Create {
        name: Name,
        count: u64,
    },
    /// Reads a block of a volume.
    Read {
        name: Name,
        block: u64,
    },
    /// Writes a block of a volume: so many bytes of the buffer, 1 to 4,096, and zeros up to its end.
    Write {
        name: Name,
        block: u64,
        count: usize,
    },
    /// Unmaps a block of a volume, which is all zeros then.
    Trim {
        name: Name,
        block: u64,
    },
    /// Makes a volume none, and commits.
    Destroy {
        name: Name,
    },
    /// Makes all changes the device's.
    Commit,
}

/// What a line asks for, without its line feed; None for a line outside the grammar. The bytes that a write writes come to the
/// front of the buffer, of which nothing else is kept.
pub fn parse_line(line: &[u8], buffer: &mut [u8; BLOCK]) -> Option<Line>
    ensures found { IfSome result (λ it. Spells line.now (asked it buffer.new)) }
    ensures fits { IfSome result FitsBlock }
    ensures none { IfNone result (IsBad line.now) }
{
    if let Some(it) = parse_read(line) {
        return Some(it);
    }
    if is_text(line, b"commit") {
        return Some(Line::Commit);
    }
    if let Some(it) = parse_create(line) {
        return Some(it);
    }
    if let Some(it) = parse_destroy(line) {
        return Some(it);
    }
    if let Some(it) = parse_write(line, buffer) {
        return Some(it);
    }
    parse_trim(line)
}

/// `create NAME COUNT`
fn parse_create(line: &[u8]) -> Option<Line>
    ensures found { IfSome result (λ it. (buffer : List ℕ) → Spells line.now (asked it buffer)) }
    ensures fits { IfSome result FitsBlock }
    ensures none { IfNone result ((name : List ℕ) (count : ℕ) → Spells line.now (lines.Create name count) → ⊥) }
{
    let (name, count) = parse_named_number(line.strip_prefix(b"create ".as_slice())?)?;
    Some(Line::Create { name, count })
}

/// `read NAME N`
fn parse_read(line: &[u8]) -> Option<Line>
    ensures found { IfSome result (λ it. (buffer : List ℕ) → Spells line.now (asked it buffer)) }
    ensures fits { IfSome result FitsBlock }
    ensures none { IfNone result ((name : List ℕ) (block : ℕ) → Spells line.now (lines.Read name block) → ⊥) }
{
    let (name, block) = parse_named_number(line.strip_prefix(b"read ".as_slice())?)?;
    Some(Line::Read { name, block })
}

/// `write NAME N HEX`
fn parse_write(line: &[u8], buffer: &mut [u8; BLOCK]) -> Option<Line>
    ensures found { IfSome result (λ it. Spells line.now (asked it buffer.new)) }
    ensures fits { IfSome result FitsBlock }
    ensures none { IfNone result ((name : List ℕ) (block : ℕ) (content : List ℕ) → Spells line.now (lines.Write name block content) → ⊥) }
{
    let (name, write) = parse_named_write(line.strip_prefix(b"write ".as_slice())?, buffer)?;
    let (block, count) = write;
    Some(Line::Write { name, block, count })
}

/// `trim NAME N`
fn parse_trim(line: &[u8]) -> Option<Line>
    ensures found { IfSome result (λ it. (buffer : List ℕ) → Spells line.now (asked it buffer)) }
    ensures fits { IfSome result FitsBlock }
    ensures none { IfNone result ((name : List ℕ) (block : ℕ) → Spells line.now (lines.Trim name block) → ⊥) }
{
    let (name, block) = parse_named_number(line.strip_prefix(b"trim ".as_slice())?)?;
    Some(Line::Trim { name, block })
}

/// `destroy NAME`
fn parse_destroy(line: &[u8]) -> Option<Line>
    ensures found { IfSome result (λ it. (buffer : List ℕ) → Spells line.now (asked it buffer)) }
    ensures fits { IfSome result FitsBlock }
    ensures none { IfNone result ((name : List ℕ) → Spells line.now (lines.Destroy name) → ⊥) }
{
    let name = Name::new(line.strip_prefix(b"destroy ".as_slice())?)?;
    Some(Line::Destroy { name })
}

/// No line of the grammar has more than 8,300 bytes, so a reader may answer a longer one `bad` without keeping it.
pub fn long_lines_are_bad()
    ensures { (line : List ℕ) → 8300 < length line → IsBad line }
{}

/// A line asks for one thing at most.
pub fn lines_spell_one_thing()
    ensures { (line : List ℕ) (first second : Asked) → Spells line first → Spells line second → first ≡ second }
{}

//! The commands of a script, and the grammar of their lines.

ghost use Rattle.std.specs.Prelude.{◌≡◌, ◌<◌, ◌≤◌, ◌++◌, ℕ, List, length, take, codes, IfSome, IfNone};
ghost use Rattle.script_lang.specs.Commands as commands;
ghost use Rattle.script_lang.specs.Commands.{Command as Asked, FitsBlock, asked};
ghost use Rattle.script_lang.specs.Grammar.{Spells, IsBad};

use crate::words::{is_text, number_before, parse_hex, parse_number};
use sdbt_base::BLOCK;

/// A line of a script, read. What a write writes stands apart, at the front of a buffer.
#[derive(Clone, Copy, Debug, PartialEq, Eq)]
pub enum Command {
    /// Makes a device of so many blocks, with nodes of at most `order` entries.
    Format { blocks: u64, order: u64 },
    /// Opens a session.
    Mount,
    /// Reads a block.
    Read { block: u64 },
    /// Writes a block: so many bytes of the buffer, 1 to 4,096, and zeros up to its end.
    Write { block: u64, count: usize },
    /// Unmaps a block, which is all zeros then.
    Trim { block: u64 },
    /// Makes the session's changes the device's.
    Commit,
    /// Gives the session and its changes up.
    Drop,
    /// Makes the device none.
    Erase,
    /// Makes the device one of version 2.
    Upgrade,
    /// Asks for the number of mapped blocks, and of commits.
    Stat,
    /// Asks what an adversary who takes the device now would read.
    Seize,
}

/// The command that a line spells, without its line feed; None for a line outside the grammar. The bytes that a write writes
/// come to the front of the buffer, of which nothing else is kept.
pub fn parse(line: &[u8], buffer: &mut [u8; BLOCK]) -> Option<Command>
    ensures found { IfSome result (λ command. Spells line.now (asked command buffer.new)) }
    ensures fits { IfSome result FitsBlock }
    ensures none { IfNone result (IsBad line.now) }
{
    if let Some(command) = parse_word(line) {
        return Some(command);
    }
    if let Some(command) = parse_format(line) {
        return Some(command);
    }
    if let Some(command) = parse_read(line) {
        return Some(command);
    }
    if let Some(command) = parse_write(line, buffer) {
        return Some(command);
    }
    parse_trim(line)
}

/// A command that is one word.
fn parse_word(line: &[u8]) -> Option<Command>
    ensures found { IfSome result (λ command. (buffer : List ℕ) → Spells line.now (asked command buffer)) }
    ensures fits { IfSome result FitsBlock }
    ensures mount { IfNone result (Spells line.now commands.Mount → ⊥) }
    ensures commit { IfNone result (Spells line.now commands.Commit → ⊥) }
    ensures drop { IfNone result (Spells line.now commands.Drop → ⊥) }
    ensures erase { IfNone result (Spells line.now commands.Erase → ⊥) }
    ensures upgrade { IfNone result (Spells line.now commands.Upgrade → ⊥) }
    ensures stat { IfNone result (Spells line.now commands.Stat → ⊥) }
    ensures seize { IfNone result (Spells line.now commands.Seize → ⊥) }
{
    // A pattern of so many texts takes the prover longer than this chain.
    if is_text(line, b"mount") {
        Some(Command::Mount)
    } else if is_text(line, b"commit") {
        Some(Command::Commit)
    } else if is_text(line, b"drop") {
        Some(Command::Drop)
    } else if is_text(line, b"erase") {
        Some(Command::Erase)
    } else if is_text(line, b"upgrade") {
        Some(Command::Upgrade)
    } else if is_text(line, b"stat") {
        Some(Command::Stat)
    } else if is_text(line, b"seize") {
        Some(Command::Seize)
    } else {
        None
    }
}

/// `format B M`
fn parse_format(line: &[u8]) -> Option<Command>
    ensures found { IfSome result (λ command. (buffer : List ℕ) → Spells line.now (asked command buffer)) }
    ensures fits { IfSome result FitsBlock }
    ensures none { IfNone result ((blocks order : ℕ) → Spells line.now (commands.Format blocks order) → ⊥) }
{
    let (blocks, rest) = number_before(line.strip_prefix(b"format ".as_slice())?)?;
    let order = parse_number(rest)?;
    Some(Command::Format { blocks, order })
}

/// `read N`
fn parse_read(line: &[u8]) -> Option<Command>
    ensures found { IfSome result (λ command. (buffer : List ℕ) → Spells line.now (asked command buffer)) }
    ensures fits { IfSome result FitsBlock }
    ensures none { IfNone result ((block : ℕ) → Spells line.now (commands.Read block) → ⊥) }
{
    let block = parse_number(line.strip_prefix(b"read ".as_slice())?)?;
    Some(Command::Read { block })
}

/// `write N HEX`
fn parse_write(line: &[u8], buffer: &mut [u8; BLOCK]) -> Option<Command>
    ensures found { IfSome result (λ command. Spells line.now (asked command buffer.new)) }
    ensures fits { IfSome result FitsBlock }
    ensures none { IfNone result ((block : ℕ) (content : List ℕ) → Spells line.now (commands.Write block content) → ⊥) }
{
    let (block, count) = parse_write_operands(line.strip_prefix(b"write ".as_slice())?, buffer)?;
    Some(Command::Write { block, count })
}

/// `N HEX`, as it stands behind `write` and a space: the block, and how many bytes of the buffer's front are written to it.
pub fn parse_write_operands(text: &[u8], buffer: &mut [u8; BLOCK]) -> Option<(u64, usize)>
    ensures found { IfSome result (λ it. Spells (codes "write " ++ text.now) (commands.Write it.0 (take it.1 buffer.new)) × (it.1 ≤ 4096)) }
    ensures none { IfNone result ((block : ℕ) (content : List ℕ) → Spells (codes "write " ++ text.now) (commands.Write block content) → ⊥) }
{
    let (block, digits) = number_before(text)?;
    let count = parse_hex(digits, buffer)?;
    Some((block, count))
}

/// `trim N`
fn parse_trim(line: &[u8]) -> Option<Command>
    ensures found { IfSome result (λ command. (buffer : List ℕ) → Spells line.now (asked command buffer)) }
    ensures fits { IfSome result FitsBlock }
    ensures none { IfNone result ((block : ℕ) → Spells line.now (commands.Trim block) → ⊥) }
{
    let block = parse_number(line.strip_prefix(b"trim ".as_slice())?)?;
    Some(Command::Trim { block })
}

/// No line of the grammar has more than 8,300 bytes, so a reader may answer a longer one `bad` without
/// keeping it.
pub fn long_lines_are_bad()
    ensures { (line : List ℕ) → 8300 < length line → IsBad line }
{}

/// A line spells one command at most.
pub fn lines_spell_one_command()
    ensures { (line : List ℕ) (first second : Asked) → Spells line first → Spells line second → first ≡ second }
{}

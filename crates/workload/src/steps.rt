//! The lines of a script.
ghost use Rattle.std.specs.Prelude.{◌≡◌, ◌%◌, ◌∷◌, ◌++◌, OnOk};
ghost use Rattle.std.specs.Fmt.{decimal};
ghost use Rattle.hex.specs.Hex.{encode_lower};
ghost use Rattle.workload.specs.Draws.{next_state, draw_at};
ghost use Rattle.workload.specs.Lines.{text_of, line_of};
ghost use Rattle.workload.specs.Scripts.{generated};
ghost use Rattle.workload.specs.Steps.{command_of};

use crate::draws::Draws;
use sdbt_base::{Line, Memory};

/// How many blocks the device has.
pub(crate) const BLOCKS: u32 = 4096;

/// What a line of a script asks for.
#[derive(Clone, Copy)]
pub(crate) enum Step {
    /// Makes a device.
    Format { blocks: u64, order: u64 },
    /// Opens a session.
    Mount,
    /// Reads a block.
    Read { block: u64 },
    /// Writes four bytes to the front of a block.
    Write { block: u64, content: [u8; 4] },
    /// Unmaps a block.
    Trim { block: u64 },
    /// Makes the session's changes the device's.
    Commit,
    /// Asks for the number of mapped blocks, and of commits.
    Stat,
    /// Asks what an adversary who takes the device now would read.
    Seize,
}

/// The next generated step.
#[tactic(auto, unfolding(crate::specs::Scripts::generated))]
pub(crate) fn next_step(draws: &mut Draws) -> Step
    ensures { (command_of result, draws.new) ≡ generated draws.old }
{
    match draws.draw() % 10 {
        0..=4 => {
            let block = draw_block(draws);
            let content = draws.draw().to_be_bytes();
            Step::Write { block, content }
        }
        5..=6 => Step::Read {
            block: draw_block(draws),
        },
        7 => Step::Trim {
            block: draw_block(draws),
        },
        _ => Step::Commit,
    }
}

/// A block that is drawn.
fn draw_block(draws: &mut Draws) -> u64
    ensures state { draws.new ≡ next_state draws.old }
    ensures value { result ≡ draw_at draws.new % 4096 }
{
    u64::from(draws.draw() % BLOCKS)
}

/// Adds the line of a step, with its line feed.
pub(crate) fn append_step(line: &mut Line, step: &Step) -> Result<(), Memory>
    ensures { OnOk result (line.new ≡ line.old ++ line_of (command_of step.now)) }
{
    append_words(line, step)?;
    line.append(b"\n")
}

/// Adds the line of a step, without its line feed.
#[tactic(auto, unfolding(crate::specs::Lines::text_of))]
fn append_words(line: &mut Line, step: &Step) -> Result<(), Memory>
    ensures { OnOk result (line.new ≡ line.old ++ text_of (command_of step.now)) }
{
    match *step {
        Step::Format { blocks, order } => {
            append_with_number(line, b"format ", blocks)?;
            append_with_number(line, b" ", order)
        }
        Step::Read { block } => append_with_number(line, b"read ", block),
        Step::Write { block, content } => {
            append_with_number(line, b"write ", block)?;
            append_hex(line, content)
        }
        Step::Trim { block } => append_with_number(line, b"trim ", block),
        Step::Mount => line.append(b"mount"),
        Step::Commit => line.append(b"commit"),
        Step::Stat => line.append(b"stat"),
        Step::Seize => line.append(b"seize"),
    }
}

/// Adds a word and the decimal digits of a number.
fn append_with_number(line: &mut Line, word: &[u8], number: u64) -> Result<(), Memory>
    ensures { OnOk result (line.new ≡ line.old ++ (word.now ++ decimal number)) }
{
    line.append(word)?;
    let mut printed = itoa::Buffer::new();
    line.append(printed.format(number).as_bytes())
}

/// Adds a space and the lower-case hex digits of four bytes.
fn append_hex(line: &mut Line, content: [u8; 4]) -> Result<(), Memory>
    ensures { OnOk result (line.new ≡ line.old ++ 32 ∷ encode_lower content) }
{
    let mut digits = [0; 8];
    hex_digits::encode_lower(&content, &mut digits);
    line.append(b" ")?;
    line.append(&digits)
}

//! The script of a seed.
ghost use Rattle.std.specs.Prelude.{◌≡◌, ◌+◌, ◌*◌, ◌≤◌, ◌++◌, length, flat_map, IfOk, OnOk};
ghost use Rattle.text_lines.specs.Lines.{lines_of};
ghost use Rattle.workload.specs.Lines.{line_of, SpellEach};
ghost use Rattle.workload.specs.Scripts.{commands_of, generated_commands};

use crate::draws::Draws;
use crate::steps::{BLOCKS, Step, append_step, next_step};
use sdbt_base::{Line, Memory};
use std::alloc::Global;

/// The greatest number of generated lines.
pub const MAX_COUNT: u64 = 5_000;

/// The order of the device.
const ORDER: u64 = 16;

/// The script of a seed with so many generated lines, 1 to 5,000: it makes and mounts a device, goes on with them, commits, and
/// asks what the device maps and what it discloses. `Memory` where there is none for it.
pub fn script(alloc: Global, seed: u64, count: u64) -> Result<Line, Memory>
    requires some { 1 ≤ count }
    requires at_most { count ≤ MAX_COUNT }
    ensures text { IfOk result (λ line. line ≡ flat_map line_of (commands_of seed count)) }
    ensures spelled { IfOk result (λ line. SpellEach (lines_of line) (commands_of seed count)) }
    ensures lines { IfOk result (λ line. length (lines_of line) ≡ count + 5) }
    ensures short { IfOk result (λ line. length line ≤ 20 * (count + 5)) }
{
    let mut line = Line::new(alloc);
    append_step(
        &mut line,
        &Step::Format {
            blocks: u64::from(BLOCKS),
            order: ORDER,
        },
    )?;
    append_step(&mut line, &Step::Mount)?;
    append_generated(&mut line, seed, count)?;
    append_step(&mut line, &Step::Commit)?;
    append_step(&mut line, &Step::Stat)?;
    append_step(&mut line, &Step::Seize)?;
    Ok(line)
}

/// Adds so many generated lines.
fn append_generated(line: &mut Line, seed: u64, count: u64) -> Result<(), Memory>
    ensures { OnOk result (line.new ≡ line.old ++ flat_map line_of (generated_commands seed count)) }
{
    let mut draws = Draws::new(seed);
    'lines: for _ in 0..count {
        append_step(line, &next_step(&mut draws))?;
    }
    Ok(())
}

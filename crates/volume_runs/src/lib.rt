//! Two runs over the volumes of one platform in memory, with a loss of power between them.
#![tactic(auto)]

ghost use Rattle.std.specs.Prelude.{Some};
ghost use Rattle.sdbt_base.specs.Arrays.{Device};
ghost use Rattle.platform.specs.Mem.{mem_history};
ghost use Rattle.page_store.specs.Stands.{Stands};
ghost use Rattle.device_terms.specs.Served.{IsServedImage};
ghost use Rattle.device_course.specs.Fitting.{LeavesFitting};
ghost use Rattle.volume_runs.specs.Runs.{TwoRuns, in_memory};

use platform::MemPlatform;
use power_loss::lose_power;
use sdbt_base::{Sink, Source, Tape};
use std::alloc::Global;
use volumes::run_volumes;

/// Serves the lines that `first` gives, loses the power, and serves the lines that `second` gives over what is left.
///
/// `torn` names pages that read as zero bytes from the loss of power on; those in it that are synced, and those that
/// there are not, stay as they are. It answers the exit statuses of both runs: see [`run_volumes`]. What was destroyed
/// in the first one is reached in neither from then on.
pub fn run_volumes_twice<T: Tape, I: Source, O: Sink, L: Sink>(
    alloc: Global,
    platform: &mut MemPlatform,
    tape: &mut T,
    first: &mut I,
    second: &mut I,
    output: &mut O,
    ledger: &mut L,
    torn: &[u64],
) -> (u8, u8)
    ensures runs { TwoRuns torn.now result.0 result.1 first.new second.old
        (in_memory T.Tape I.Source O.Sink L.Sink platform.old tape.old first.old output.old ledger.old)
        (in_memory T.Tape I.Source O.Sink L.Sink platform.new tape.new second.new output.new ledger.new) }
    // A ledger that the checker accepted at the start is accepted, with the entries of both runs, for all that is left at the end.
    ensures fits { (there : Device) → Stands (mem_history platform.old).present (Some there) → IsServedImage (mem_history platform.old).present
        → LeavesFitting (L.written ledger.old) (L.written ledger.new) (mem_history platform.old).present (mem_history platform.new) (mem_history platform.new) }
{
    let status = run_volumes(alloc, &[], platform, tape, first, output, ledger);
    lose_power(platform, torn);
    let other = run_volumes(alloc, &[], platform, tape, second, output, ledger);
    (status, other)
}

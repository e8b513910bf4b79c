//! Two runs over one platform in memory, with a loss of power between them.
#![tactic(auto)]

ghost use Rattle.std.specs.Prelude.{Option, None, length};
ghost use Rattle.sdbt_base.specs.Arrays.{Device};
ghost use Rattle.device_terms.specs.Served.{IsServedImage};
ghost use Rattle.device_course.specs.Fitting.{LeavesFitting};
ghost use Rattle.device_cli.specs.Represents.{StandsFor};
ghost use Rattle.platform.specs.Mem.{mem_history, image_of_now, capacity_of, answered_of, changes_of, faults_of};
ghost use Rattle.sdbt_base.specs.Counts.{counts};
ghost use Rattle.device_cli.specs.World.{world};
ghost use Rattle.two_runs.specs.TwoRuns.{TwoRuns, HaveCauses};

use device_cli::run_main;
use platform::MemPlatform;
use power_loss::lose_power;
use sdbt_base::{Sink, Source, Tape};
use std::alloc::Global;

/// Serves the script that `first` gives, loses the power, and serves the script that `second` gives over what is left.
///
/// `torn` names pages that read as zero bytes from the loss of power on; those in it that are synced, and those that
/// there are not, stay as they are. It answers the exit statuses of both runs: see
/// [`run_main`]. On a device that stands, the second run finds the device after the replies of the first that stand
/// whole in the output, or the one after one more. What the first run deleted is reached in neither, nor is what the second did.
pub fn run_twice<T: Tape, I: Source, O: Sink, L: Sink>(
    alloc: Global,
    platform: &mut MemPlatform,
    tape: &mut T,
    first: &mut I,
    second: &mut I,
    output: &mut O,
    ledger: &mut L,
    torn: &[u64],
) -> (u8, u8)
    ensures runs { TwoRuns torn.now (T.drawn tape.old) (T.drawn tape.new)
        (world None (mem_history platform.old) (length (image_of_now platform.old).recorded) (capacity_of platform.old) (answered_of platform.old) (changes_of platform.old))
        (world None (mem_history platform.new) (length (image_of_now platform.new).recorded) (capacity_of platform.new) (answered_of platform.new) (changes_of platform.new))
        result.0 result.1 (I.left first.old) (I.left first.new) (I.left second.old) (I.left second.new)
        (O.written output.old) (O.written output.new) }
    // A ledger that the checker accepted at the start is accepted, with the entries of both runs, for all that is left at the end.
    ensures fits { (there : Option Device) → StandsFor (mem_history platform.old).present there → IsServedImage (mem_history platform.old).present
        → LeavesFitting (L.written ledger.old) (L.written ledger.new) (mem_history platform.old).present (mem_history platform.new) (mem_history platform.new) }
    // Each status that names an object comes only where the count of faults of that object rose in that run, and that of no other; at 0 none rose.
    ensures causes { HaveCauses result.0 result.1
        (counts (faults_of platform.old) (T.faults tape.old) (I.faults first.old) (O.faults output.old) (L.faults ledger.old))
        (counts (faults_of platform.new) (T.faults tape.new) (I.faults first.new) (O.faults output.new) (L.faults ledger.new))
        (I.faults second.old) (I.faults second.new) }
{
    let status = run_main(alloc, &[], platform, tape, first, output, ledger);
    lose_power(platform, torn);
    let other = run_main(alloc, &[], platform, tape, second, output, ledger);
    (status, other)
}

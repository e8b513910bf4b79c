//! Two runs over folders, or over a folder and a cell in place: the second one opens what a loss of power left of the first.
#![tactic(auto)]

ghost use Rattle.std.specs.Prelude.{◌≡◌, ◌++◌, ℕ, List, Option, None, IsSome};
ghost use Rattle.sdbt_base.specs.Arrays.{Device};
ghost use Rattle.device_terms.specs.Served.{IsServedImage};
ghost use Rattle.device_course.specs.Fitting.{LeavesFitting};
ghost use Rattle.device_cli.specs.Represents.{StandsFor};
ghost use Rattle.device_cli.specs.World.{world_of};
ghost use Rattle.sdbt_base.specs.Counts.{counts};
ghost use Rattle.folder_platform.specs.Files.{Files};
ghost use Rattle.folder_platform.specs.Events.{Event};
ghost use Rattle.folder_platform.specs.Model.{replay};
ghost use Rattle.folder_platform.specs.Sequences.{opening, AreOpened};
ghost use Rattle.folder_platform.specs.Loss.{MayHold, IsLeftAt, opened};
ghost use Rattle.folder_runs.specs.Restarts.{RunsOver, AreLeftAtExit, IsOpenedAfter, DisclosesRuns, HaveCausesOver};

use device_cli::run_main;
use folder_platform::{CellCalls, FolderPlatform};
use platform::Platform;
use sdbt_base::{Sink, Source, Tape};
use std::alloc::Global;

/// Serves the script that `first` gives over `platform`, and then the script that `second` gives over `restarted`.
///
/// It answers the exit statuses of both runs: see [`run_main`]. What it promises beyond that is about a `restarted` that was
/// opened over files which a loss of power may have left after any call of the first run on its files.
pub fn run_twice<C: CellCalls + Drop, D: CellCalls + Drop, T: Tape, I: Source, O: Sink, L: Sink>(
    alloc: Global,
    platform: &mut FolderPlatform<C>,
    restarted: &mut FolderPlatform<D>,
    tape: &mut T,
    first: &mut I,
    second: &mut I,
    output: &mut O,
    ledger: &mut L,
) -> (u8, u8)
    // What a loss of power may leave after any call since the files were opened is left at a moment of the first run: at that of the call, or at one before
    // it, since when no page was handed over. No answer has to be honest for that.
    ensures moments { (n : ℕ) → C.PageCalls.events platform.old.calls ≡ opening n → (later earlier : List Event) → C.PageCalls.events platform.new.calls ≡ later ++ earlier
        → AreOpened earlier → (left : Files) → MayHold (replay (C.PageCalls.start platform.new.calls) earlier) left
        → IsLeftAt (⟦<FolderPlatform<C> as Platform>⟧.history platform.old) (⟦<FolderPlatform<C> as Platform>⟧.history platform.new)
        (replay (C.PageCalls.start platform.new.calls) earlier).recorded left }
    // Both answer their scripts, and whatever run is opened over what is left at a moment of the first one goes on from a device which that one passed.
    ensures runs { ⟦<FolderPlatform<C> as Platform>⟧.tells → ⟦<FolderPlatform<D> as Platform>⟧.tells → RunsOver
        (world_of ⟦<FolderPlatform<C> as Platform>⟧ None platform.old) (world_of ⟦<FolderPlatform<C> as Platform>⟧ None platform.new)
        (world_of ⟦<FolderPlatform<D> as Platform>⟧ None restarted.old) (world_of ⟦<FolderPlatform<D> as Platform>⟧ None restarted.new)
        result.0 result.1 (I.left first.old) (I.left first.new) (I.left second.old) (I.left second.new) (O.written output.old) (O.written output.new) }
    // Over the pages of both runs the keys of either reach the trees of its moments, and what the first one deleted is reached in none of the second.
    ensures discloses { ⟦<FolderPlatform<C> as Platform>⟧.tells → ⟦<FolderPlatform<D> as Platform>⟧.tells → (at : ℕ) (left : Files)
        → IsOpenedAfter (⟦<FolderPlatform<C> as Platform>⟧.history platform.old) (⟦<FolderPlatform<C> as Platform>⟧.history platform.new)
        (⟦<FolderPlatform<D> as Platform>⟧.history restarted.old) at left
        → DisclosesRuns (T.drawn tape.old) (T.drawn tape.new) at
        (⟦<FolderPlatform<C> as Platform>⟧.history platform.old) (⟦<FolderPlatform<C> as Platform>⟧.history platform.new)
        (⟦<FolderPlatform<D> as Platform>⟧.history restarted.old) (⟦<FolderPlatform<D> as Platform>⟧.history restarted.new) }
    // Where the power is lost at the exit of the first one, whichever root record is found, a ledger that tells what it got, and that the checker accepted at the
    // start, is accepted, with the entries of both, for all that is left at the end of the second, whichever root record is found there.
    ensures fits { ⟦<FolderPlatform<C> as Platform>⟧.tells → ⟦<FolderPlatform<D> as Platform>⟧.tells → (there : Option Device)
        → StandsFor (⟦<FolderPlatform<C> as Platform>⟧.history platform.old).present there → IsServedImage (⟦<FolderPlatform<C> as Platform>⟧.history platform.old).present
        → (left : Files) → AreLeftAtExit (IsSome (L.written ledger.old)) (⟦<FolderPlatform<C> as Platform>⟧.history platform.old) (⟦<FolderPlatform<C> as Platform>⟧.history platform.new) left
        → (⟦<FolderPlatform<D> as Platform>⟧.history restarted.old).present ≡ opened left
        → LeavesFitting (L.written ledger.old) (L.written ledger.new) (⟦<FolderPlatform<C> as Platform>⟧.history platform.old).present
        (⟦<FolderPlatform<D> as Platform>⟧.history restarted.old) (⟦<FolderPlatform<D> as Platform>⟧.history restarted.new) }
    // Each status that names an object comes only where the count of faults of that object rose in that run.
    ensures causes { HaveCausesOver result.0 result.1
        (counts (⟦<FolderPlatform<C> as Platform>⟧.faults platform.old) (T.faults tape.old) (I.faults first.old) (O.faults output.old) (L.faults ledger.old))
        (⟦<FolderPlatform<C> as Platform>⟧.faults platform.new) (I.faults first.new) (⟦<FolderPlatform<D> as Platform>⟧.faults restarted.old) (I.faults second.old)
        (counts (⟦<FolderPlatform<D> as Platform>⟧.faults restarted.new) (T.faults tape.new) (I.faults second.new) (O.faults output.new) (L.faults ledger.new)) }
{
    let status = run_main(alloc, &[], platform, tape, first, output, ledger);
    let other = run_main(alloc, &[], restarted, tape, second, output, ledger);
    (status, other)
}

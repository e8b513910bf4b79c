//! The move of a device to a fresh medium: what is on one platform is copied to another, and the root record that leads to it is cleared.
#![tactic(auto)]

ghost use Rattle.std.specs.Prelude.{◌≡◌, ◌-◌, [], Option, Some, map, string_bytes};
ghost use Rattle.sdbt_base.specs.Arrays.{Device};
ghost use Rattle.page_store.specs.Stands.{Stands};
ghost use Rattle.device_terms.specs.Served.{IsServedImage};
ghost use Rattle.device_course.specs.States.{around};
ghost use Rattle.transfer.specs.Changes.{ChangesFew, clears_at};
ghost use Rattle.transfer.specs.Counts.{counts};
ghost use Rattle.transfer.specs.Program.{Exits, FromAlone, MovesDevice, Ran, ToAlone};
ghost use Rattle.transfer.specs.Reads.{ReadsFew};
ghost use Rattle.transfer.specs.Running.{alone};

mod copying;
mod halts;
mod listing;
mod matching;
mod opening;
mod running;
mod sides;

pub use halts::Halt;
use platform::Platform;
use running::run;
use sdbt_base::{Sink, Tape};
use std::alloc::Global;

/// Moves the device on `from` to `to`, whose ledger is `ledger`, and answers the exit status.
///
/// Where there is no device on `to` one is made there, of as many blocks and of the same order. What the blocks of `from` hold is
/// written to one that was never written, and committed once; nothing is where it has the same blocks with the same content. Then the
/// root record of `from` is cleared: its pages stay, and no chain of keys leads to them any more.
/// Statuses: 0, the device was moved; 2, words are given; 4, `output` failed; 5, `from`; 6, the tape; 7, `ledger`; 8, a root cell is
/// full, and its root record can't be served; 9, a record was not what a tree wants there, or a root record says that other blocks are mapped than its tree has; 10, there is no device on `from`, or another
/// one on `to`, or too few pages are free there; 11, no memory; 13, `to` failed.
pub fn run_transfer<P: Platform, Q: Platform, T: Tape, O: Sink, L: Sink>(
    alloc: Global,
    words: &[String],
    from: &mut P,
    to: &mut Q,
    tape: &mut T,
    output: &mut O,
    ledger: &mut L,
) -> u8
    // 2 exactly where words are given; a fault only where the count of that object rose.
    ensures exits { Exits (map string_bytes words.now) result
        (counts (P.faults from.old) (Q.faults to.old) (T.faults tape.old) (O.faults output.old) (L.faults ledger.old))
        (counts (P.faults from.new) (Q.faults to.new) (T.faults tape.new) (O.faults output.new) (L.faults ledger.new)) }
    ensures other_words { result ≡ 2 → (from.new ≡ from.old) × (to.new ≡ to.old) × (tape.new ≡ tape.old) × (output.new ≡ output.old) × (ledger.new ≡ ledger.old) }

    // What was said, and, on any pages, which record is named, when nothing is moved, and that what is moved is whole.
    ensures ran { map string_bytes words.now ≡ [] → Ran P.tells Q.tells (P.history from.old).present (Q.history to.old) (P.history from.new).present (Q.history to.new) (Q.capacity to.old - Q.head to.old) result
        (O.written output.old) (O.written output.new) }

    // Each tree is walked over once at most, and few pages are read of each block. The first root record is cleared once at most, and on the second platform all pages are synced, and the root
    // record replaced, once for a device that is made there, and once to commit.
    ensures reads { map string_bytes words.now ≡ [] → ReadsFew P.Platform Q.Platform 1 from.old from.new to.old to.new
        × ChangesFew P.Platform Q.Platform (clears_at result) from.old from.new to.old to.new }

    // From one device to another one, or to none: the first one is cleared only once the second one is a copy, whatever stops the run.
    ensures moved { map string_bytes words.now ≡ [] → P.tells → Q.tells → (device : Device) (there : Option Device)
        → Stands (P.history from.old).present (Some device) → IsServedImage (P.history from.old).present → Stands (Q.history to.old).present there → IsServedImage (Q.history to.old).present
        → MovesDevice (alone P.Platform from.old) (alone P.Platform from.new) (around Q.Platform T.Tape L.Sink to.old tape.old ledger.old)
        (around Q.Platform T.Tape L.Sink to.new tape.new ledger.new) (O.written output.old) (O.written output.new) result device there }

    // Whatever the other platform does: at each moment a loss of power leaves the device of `from`, or none.
    ensures from_alone { FromAlone P.tells (alone P.Platform from.old) (alone P.Platform from.new) result }

    // And at each moment it leaves one of the devices that `to` was made, in their order; its ledger got their certificates.
    ensures to_alone { ToAlone Q.tells (around Q.Platform T.Tape L.Sink to.old tape.old ledger.old)
        (around Q.Platform T.Tape L.Sink to.new tape.new ledger.new) result }
{
    if !words.is_empty() {
        return 2;
    }
    match run(alloc, from, to, tape, output, ledger) {
        Ok(()) => 0,
        Err(halt) => halt.status(),
    }
}

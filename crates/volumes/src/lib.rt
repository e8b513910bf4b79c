//! The server of a device that is parted into volumes with names, each of which can be destroyed.
#![tactic(auto)]

ghost use Rattle.std.specs.Prelude.{◌≡◌, [], map, string_bytes, ◌≤◌, ◌+◌};
ghost use Rattle.device_course.specs.Programs.{KeepsLedger, Stays};
ghost use Rattle.device_course.specs.Reaching.{DisclosesTree};
ghost use Rattle.device_course.specs.States.{around};
ghost use Rattle.session_calls.specs.Handed.{handed};
ghost use Rattle.volumes.specs.Program.{Exits, Refuses, Serving, SyncsFew};

mod halts;
mod running;

pub use halts::Halt;
use platform::Platform;
use running::run;
use sdbt_base::{Sink, Source, Tape};
use std::alloc::Global;

/// Serves the volumes of the device on `platform`, and answers the exit status.
///
/// It takes lines of `input`, each whole one before it takes more, and puts one reply to `output` for
/// each: a volume is created, read, written, trimmed or destroyed by its name. What was created,
/// written and trimmed is the device's once a `commit` was answered, or a later `destroy`; what wasn't
/// is dropped at the end. The table of the volumes is in block 0 of the device.
/// Statuses: 0, the input was served to its end; 2, words are given; 3 to 7, `input`, `output`, the
/// platform, the tape or `ledger` failed; 8, the root cell is full, and its root record can't be served;
/// 9, a record was not what the tree wants there; 10, there is no device, or block 0 has no table; 11,
/// no memory; 12, the limit of 2^32 bytes of input was reached.
pub fn run_volumes<P: Platform, T: Tape, I: Source, O: Sink, L: Sink>(
    alloc: Global,
    words: &[String],
    platform: &mut P,
    tape: &mut T,
    input: &mut I,
    output: &mut O,
    ledger: &mut L,
) -> u8
    // 2 exactly where words are given; a fault only where the count of that object rose.
    ensures exits { Exits (map string_bytes words.now) result
        (handed P.Platform T.Tape I.Source O.Sink L.Sink platform.old tape.old input.old output.old ledger.old)
        (handed P.Platform T.Tape I.Source O.Sink L.Sink platform.new tape.new input.new output.new ledger.new) }

    // 8 only where the cell can't be served, 10 where it is empty or block 0 has no table: then all is as it was, but for the line that says so.
    ensures refuses { Refuses P.tells (map string_bytes words.now) result
        (handed P.Platform T.Tape I.Source O.Sink L.Sink platform.old tape.old input.old output.old ledger.old)
        (handed P.Platform T.Tape I.Source O.Sink L.Sink platform.new tape.new input.new output.new ledger.new) }

    // An input that is at its end is asked no more.
    ensures ended { I.ends input.new ≤ I.ends input.old + 1 }

    // The replies are those of the volumes that the device had, each of which has its own; nothing of one that was destroyed is reached from then on; each moment
    // leaves a device that they led through; and it reads no more than one look at the cell, 21 pages for the table, and what each line may read. It syncs all pages, and replaces the root record,
    // no oftener than for the lines that commit.
    ensures serves { map string_bytes words.now ≡ [] → (serving : Serving P.tells result
        (handed P.Platform T.Tape I.Source O.Sink L.Sink platform.old tape.old input.old output.old ledger.old)
        (handed P.Platform T.Tape I.Source O.Sink L.Sink platform.new tape.new input.new output.new ledger.new))
        × SyncsFew P.tells result
        (handed P.Platform T.Tape I.Source O.Sink L.Sink platform.old tape.old input.old output.old ledger.old)
        (handed P.Platform T.Tape I.Source O.Sink L.Sink platform.new tape.new input.new output.new ledger.new) serving (P.changes platform.old) (P.changes platform.new) }

    // Chains of opening from the root key reach at each moment exactly the device's records, and what was deleted never.
    ensures forgets { DisclosesTree P.tells (T.drawn tape.old) (T.drawn tape.new) (P.history platform.old) (P.history platform.new) }

    // The ledger gets the certificate of each root record that comes into the cell; with these each ledger that the checker accepted before is accepted.
    ensures ledger { KeepsLedger P.tells (L.written ledger.old) (L.written ledger.new) (P.history platform.old) (P.history platform.new) (result ≡ 0) }

    // A cell that can be served is one at each moment, and pages are only added.
    ensures stays { Stays P.tells (around P.Platform T.Tape L.Sink platform.old tape.old ledger.old)
        (around P.Platform T.Tape L.Sink platform.new tape.new ledger.new) }
{
    if !words.is_empty() {
        return 2;
    }
    match run(alloc, platform, tape, input, output, ledger) {
        Ok(()) => 0,
        Err(halt) => halt.status(),
    }
}

//! The server of a device over NBD: serves the device on a platform to one client, which is the
//! other side of an input and an output.
#![tactic(auto)]

ghost use Rattle.std.specs.Prelude.{◌≡◌, [], map, string_bytes, ◌≤◌, ◌+◌};
ghost use Rattle.device_course.specs.Reaching.{DisclosesTree};
ghost use Rattle.device_course.specs.States.{around};
ghost use Rattle.device_course.specs.Programs.{KeepsLedger, Stays};
ghost use Rattle.session_calls.specs.Handed.{handed};
ghost use Rattle.nbd_core.specs.Program.{Exits, Refuses, Serving};

mod haggling;
mod halts;
mod intake;
mod reading;
mod running;
mod serving;
mod stop;
mod trimming;
mod writing;

pub use haggling::{Agreed, haggle};
pub use halts::Halt;
pub use intake::{Intake, MOST};
use platform::Platform;
use running::run;
use sdbt_base::{Sink, Source, Tape};
use std::alloc::Global;
pub use stop::Stop;

/// Serves the device on `platform` to one client of NBD, and answers the exit status.
///
/// It greets the client, answers its options, and then serves its requests on an array of bytes:
/// the blocks of the device, one behind the other. What was written and trimmed is the device's
/// once a flush was answered, or a disconnect was served; what wasn't is dropped at the end.
/// Statuses: 0, the client disconnected or gave up its options, or its input ended between two
/// words; 2, words are given; 3 to 7, `input`, `output`, the platform, the tape or `ledger` failed;
/// 8, the root cell is full, and its root record can't be served; 10, there is no device, or too few
/// pages are free for the commit of a disconnect; 11, no memory; 12, 2^40 bytes of input were taken
/// and it had not ended; 14, what came is none of a client's words, or the input ended inside of one.
pub fn run_nbd<P: Platform, T: Tape, I: Source, O: Sink, L: Sink>(
    alloc: Global,
    words: &[String],
    platform: &mut P,
    tape: &mut T,
    input: &mut I,
    output: &mut O,
    ledger: &mut L,
) -> u8
    // 2 exactly where words are given; a fault only where the count of that object rose.
    ensures exits { Exits (map string_bytes words.now) result
        (handed P.Platform T.Tape I.Source O.Sink L.Sink platform.old tape.old input.old output.old ledger.old)
        (handed P.Platform T.Tape I.Source O.Sink L.Sink platform.new tape.new input.new output.new ledger.new) }

    // 8 only where the cell can't be served, and 10 where it is empty: then, and at 2, all is as it was.
    ensures refuses { Refuses P.tells (map string_bytes words.now) result
        (handed P.Platform T.Tape I.Source O.Sink L.Sink platform.old tape.old input.old output.old ledger.old)
        (handed P.Platform T.Tape I.Source O.Sink L.Sink platform.new tape.new input.new output.new ledger.new) }

    // An input that is at its end is asked no more.
    ensures ended { I.ends input.new ≤ I.ends input.old + 1 }

    // The bytes put are the greeting, answers to the options that came and replies to the requests. These are
    // replies of an array of bytes, the device's, and each moment leaves a device that they led through; on any
    // pages each reply says what is true of these, no more is read than two looks at the cell and what the requests read at most, and
    // nothing is synced but for a flush or a disconnect.
    ensures serves { map string_bytes words.now ≡ [] → Serving P.tells result (P.changes platform.old) (P.changes platform.new)
        (handed P.Platform T.Tape I.Source O.Sink L.Sink platform.old tape.old input.old output.old ledger.old)
        (handed P.Platform T.Tape I.Source O.Sink L.Sink platform.new tape.new input.new output.new ledger.new) }

    // Chains of opening from the root key reach at each moment exactly the device's records, and what was deleted never.
    ensures forgets { DisclosesTree P.tells (T.drawn tape.old) (T.drawn tape.new) (P.history platform.old) (P.history platform.new) }

    // The ledger gets the certificate of each root record that comes into the cell; with these each ledger that the checker accepted before is accepted.
    ensures ledger { KeepsLedger P.tells (L.written ledger.old) (L.written ledger.new) (P.history platform.old) (P.history platform.new) (result ≡ 0) }

    // A cell that can be served is one at each moment, and pages are only added.
    ensures stays { Stays P.tells (around P.Platform T.Tape L.Sink platform.old tape.old ledger.old)
        (around P.Platform T.Tape L.Sink platform.new tape.new ledger.new) }
{
    if !words.is_empty() {
        return 2;
    }
    match run(alloc, platform, tape, input, output, ledger) {
        Ok(()) => 0,
        Err(halt) => halt.status(),
    }
}

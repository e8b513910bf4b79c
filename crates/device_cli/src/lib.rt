//! The top call: serves a script of block commands over a platform, or judges its ledger.
//!
//! [`run_main`] takes the words of a command line and the objects of the outside, and answers an exit status.
#![tactic(auto)]

ghost use Rattle.std.specs.Prelude.{◌≡◌, ◌≤◌, ◌+◌, ℕ, map, string_bytes};
ghost use Rattle.device_cli.specs.Words.{AreRunWords, AreCheckWords, AreSeizeWords, AreWorkWords, records_of};
ghost use Rattle.device_cli.specs.Handed.{handed};
ghost use Rattle.device_course.specs.States.{around};
ghost use Rattle.device_course.specs.Programs.{KeepsLedger, Stays};
ghost use Rattle.device_cli.specs.Program.{Exits, Refuses, ServesScript, Forgets};
ghost use Rattle.device_cli.specs.Checks.{Checked};
ghost use Rattle.device_cli.specs.Seizing.{Seizing};
ghost use Rattle.device_cli.specs.Working.{Working};

mod checking;
mod desk;
mod given;
mod run;
mod seizing;
mod words;
mod working;

use checking::check;
use platform::Platform;
use run::run;
use sdbt_base::{Sink, Source, Tape};
use seizing::seize_word;
use std::alloc::Global;
use words::{Order, order_of, records_of};
use working::work;

/// Serves what the words ask for, and answers the exit status.
///
/// With no words, or `run`, it serves the script that `input` gives: each whole line before more input is
/// taken, and one reply put to `output` for each line. `ledger` gets an entry before each format, each commit of changes and each upgrade is done:
/// a certificate, which says what it adds and what it deletes. With `check` it judges the ledger that `input` gives for the root record
/// in the cell, and puts one line. With `seize` it takes nothing, and puts a line for each body that the root record in the cell opens,
/// and one with their numbers; behind that word come up to 64 earlier root records of 256 hex digits each, and what they open is told too.
/// With `work SEED COUNT` it takes nothing, serves the script that follows from the seed, with 1 to 5,000 generated lines, and puts how many of its
/// lines were accepted and refused, and the replies to the last two.
/// Statuses: 0, the input or the seed's script was served to its end, the ledger is accepted, or the seizure is told; 2, other words; 3 to 7, `input`,
/// `output`, the platform, the tape or `ledger` failed; 8, the root cell is full and its root record can't be served, or one in the words
/// is none of a device with at most the pages that there are; 9, a record was not what the tree wants there; 10, the ledger is refused, or there is no device to check it for; 11, no memory; 12, the limit of 2^32
/// bytes of input was reached.
pub fn run_main<P: Platform, T: Tape, I: Source, O: Sink, L: Sink>(
    alloc: Global,
    words: &[String],
    platform: &mut P,
    tape: &mut T,
    input: &mut I,
    output: &mut O,
    ledger: &mut L,
) -> u8
    // 2 exactly where the words are none of the forms; a fault only where the count of that object rose; what was taken is as the status says.
    ensures exits { Exits (map string_bytes words.now) result
        (handed P.Platform T.Tape I.Source O.Sink L.Sink platform.old tape.old input.old output.old ledger.old)
        (handed P.Platform T.Tape I.Source O.Sink L.Sink platform.new tape.new input.new output.new ledger.new) }

    // 8 only where the cell can't be served, or a root record in the words is none; then all is as it was but for the line that says so, and at 2 all is.
    ensures refuses { Refuses P.tells (map string_bytes words.now) result
        (handed P.Platform T.Tape I.Source O.Sink L.Sink platform.old tape.old input.old output.old ledger.old)
        (handed P.Platform T.Tape I.Source O.Sink L.Sink platform.new tape.new input.new output.new ledger.new) }

    // An input that is at its end is asked no more.
    ensures ended { I.ends input.new ≤ I.ends input.old + 1 }

    // With no words or `run`, the replies are those of an array of blocks; at each moment a loss of power leaves a device that they passed. With room, and no
    // fault, each line has its reply.
    ensures serves { AreRunWords (map string_bytes words.now) → ServesScript P.tells result
        (handed P.Platform T.Tape I.Source O.Sink L.Sink platform.old tape.old input.old output.old ledger.old)
        (handed P.Platform T.Tape I.Source O.Sink L.Sink platform.new tape.new input.new output.new ledger.new) }

    // Chains of opening from the root key reach at each moment exactly the device's records, and what was deleted never.
    ensures forgets { Forgets P.tells (T.drawn tape.old) (T.drawn tape.new) (P.history platform.old) (P.history platform.new) }

    // The ledger gets the certificate of each root record that comes into the cell; with these each ledger that the checker accepted before is accepted.
    ensures ledger { KeepsLedger P.tells (L.written ledger.old) (L.written ledger.new) (P.history platform.old) (P.history platform.new) (result ≡ 0) }

    // A cell that can be served is one at each moment, and pages are only added.
    ensures stays { Stays P.tells (around P.Platform T.Tape L.Sink platform.old tape.old ledger.old)
        (around P.Platform T.Tape L.Sink platform.new tape.new ledger.new) }

    // With the word `check`, 0 exactly where the cell holds a root record and the chain of the whole input is accepted for it; the live addresses are those
    // that its trace reaches, and none that it says is deleted. 10 exactly where the cell is empty or a rule is broken, this one first.
    ensures checks { AreCheckWords (map string_bytes words.now) → Checked P.tells result
        (handed P.Platform T.Tape I.Source O.Sink L.Sink platform.old tape.old input.old output.old ledger.old)
        (handed P.Platform T.Tape I.Source O.Sink L.Sink platform.new tape.new input.new output.new ledger.new) }

    // With the word `seize`, 0 only with exactly the bodies at which a chain of opening from the key in the cell, or from that of a root record in the words
    // behind, ends, over what a read gives of each page; 8 exactly where the cell is full, and not with the root record of a root within the pages, or a
    // word behind is none, unless that could not be told or not be said.
    ensures seizes { AreSeizeWords (map string_bytes words.now) → Seizing P.tells (records_of (map string_bytes words.now)) result
        (handed P.Platform T.Tape I.Source O.Sink L.Sink platform.old tape.old input.old output.old ledger.old)
        (handed P.Platform T.Tape I.Source O.Sink L.Sink platform.new tape.new input.new output.new ledger.new) }

    // With the word `work` the script of the seed is served as a run serves it, its replies are those of the array of blocks, and what came of it is put.
    ensures works { (seed count : ℕ) → AreWorkWords seed count (map string_bytes words.now) → Working P.tells seed count result
        (handed P.Platform T.Tape I.Source O.Sink L.Sink platform.old tape.old input.old output.old ledger.old)
        (handed P.Platform T.Tape I.Source O.Sink L.Sink platform.new tape.new input.new output.new ledger.new) }
{
    match order_of(words) {
        Some(Order::Run) => match run(alloc, platform, tape, input, output, ledger) {
            Ok(()) => 0,
            Err(stop) => stop.status(),
        },
        Some(Order::Check) => match check(alloc, platform, input, output) {
            Ok(finding) => finding.status(),
            Err(stop) => stop.status(),
        },
        Some(Order::Seize) => match seize_word(alloc, records_of(words), platform, output) {
            Ok(()) => 0,
            Err(stop) => stop.status(),
        },
        Some(Order::Work { seed, count }) => {
            match work(alloc, seed, count, platform, tape, output, ledger) {
                Ok(()) => 0,
                Err(stop) => stop.status(),
            }
        }
        None => 2,
    }
}

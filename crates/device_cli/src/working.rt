//! The word `work`: serves the script of a seed, and tells what came of it.
ghost use Rattle.std.specs.Prelude.{◌≡◌, ◌≤◌, ◌⊎◌, ℕ, List, Option, None, ⊤, IfErr, IsOk, flat_map};
ghost use Rattle.script_lang.specs.Replies.{Reply, line_of};
ghost use Rattle.workload.specs.Summaries.{heading, summary};
ghost use Rattle.sdbt_base.specs.Told.{Got};
ghost use Rattle.device_terms.specs.Served.{IsServedImage};
ghost use Rattle.device_session.specs.Sessions.{Session};
ghost use Rattle.device_course.specs.Keys.{KeepsOn};
ghost use Rattle.line_run.specs.Puts.{HasPut, damage_line, TellsPut};
ghost use Rattle.line_run.specs.Stops.{exit_of, IsBlamedOn, status_of};
ghost use Rattle.sdbt_base.specs.Counts.{counts};
ghost use Rattle.session_calls.specs.Cells.{IsUntouched};
ghost use Rattle.device_cli.specs.Scripts.{ScriptState};
ghost use Rattle.device_cli.specs.Working.{IsIdle, Worked};
ghost use Rattle.device_cli.specs.World.{start_by, world_by, world_of};

use crate::run::run;
use arrayvec::ArrayVec;
use line_run::{Stop, last_line, push_text, put_line};
use platform::Platform;
use sdbt_base::{Line, MemSink, Sink, Source, SourceFault, Tape, copy_front, ends_behind};
use session_calls::DeviceStop;
use std::alloc::Global;
use std::marker::Model;
use workload::{Tally, lines_behind, script};

/// How many lines of a script stand in front of the last two, beside those that are generated.
const LINES_AROUND: u64 = 3;

/// The input of a script that is in memory: it never fails.
#[derive(Drop)]
struct ScriptSource {
    text: Line,
    at: usize,
    ends: u64,
}

impl Model for ScriptSource {
    ghost use Rattle.std.specs.Prelude.{◌≤◌, length, drop};
    ghost use Rattle.device_cli.specs.Scripts.{ScriptState};

    ghost Value = { ScriptState };

    ghost view = { λ s. record { left = drop s.at s.text; ends = s.ends } };

    ghost invariant = { λ s. s.at ≤ length s.text };
}

impl ScriptSource {
    /// The input of this script, of which nothing is taken yet.
    fn new(text: Line) -> ScriptSource
        ensures { result ≡ record { left = text; ends = 0 } }
    {
        ScriptSource {
            text,
            at: 0,
            ends: 0,
        }
    }
}

impl Source for ScriptSource {
    ghost use Rattle.std.specs.Prelude.{Some};

    ghost left = { λ s. Some s.left };

    ghost faults = { λ s. 0 };

    ghost ends = { λ s. s.ends };

    #[tactic(auto, using(sdbt_base::proofs::ToldLaws::ends))]
    fn take(&mut self, into: &mut [u8]) -> Result<usize, SourceFault> {
        let (_, rest) = self.text.bytes().split_at(self.at);
        let count = copy_front(rest, into);
        self.at += count;
        self.ends = ends_behind(count, self.ends);
        Ok(count)
    }
}

/// Serves the script of a seed with so many generated lines, 1 to 5,000, and puts what came of it: how many lines were accepted and
/// refused, and the replies to the last two. Where the serving stops, only the last line of a run is put that met damage.
pub(crate) fn work<P: Platform, T: Tape, O: Sink, L: Sink>(
    alloc: Global,
    seed: u64,
    count: u64,
    platform: &mut P,
    tape: &mut T,
    output: &mut O,
    ledger: &mut L,
) -> Result<(), Stop>
    requires some { 1 ≤ count }
    requires at_most { count ≤ 5000 }
    ensures refused_only { P.tells → IfErr result (λ stop. status_of stop ≡ 8 → IsServedImage (P.history platform.old).present → ⊥) }
    ensures refused { P.tells → (IsServedImage (P.history platform.old).present → ⊥)
        → (exit_of result ≡ 8) ⊎ (exit_of result ≡ 4) ⊎ (exit_of result ≡ 5) ⊎ (exit_of result ≡ 11) }
    ensures untouched { P.tells → (IsServedImage (P.history platform.old).present → ⊥)
        → IsUntouched tape.old tape.new (tt {0}) (tt {0}) ledger.old ledger.new (P.head platform.old) (P.head platform.new) (P.history platform.old) (P.history platform.new) }
    ensures said { P.tells → IfErr result (λ stop. status_of stop ≡ 8 → Got (O.written output.old) (damage_line DeviceStop.BadRoot) (O.written output.new)) }
    ensures keeps { KeepsOn P.tells (T.drawn tape.old) (T.drawn tape.new) (L.written ledger.old) (L.written ledger.new) None
        (P.history platform.old) (P.history platform.new) (IsOk result) (λ keys. ⊤) }
    ensures blame { IsBlamedOn
        (counts (P.faults platform.old) (T.faults tape.old) 0 (O.faults output.old) (L.faults ledger.old))
        (counts (P.faults platform.new) (T.faults tape.new) 0 (O.faults output.new) (L.faults ledger.new)) result }
    ensures worked { (session : Option Session)
        × (IsIdle (world_of P.Platform None platform.old) (world_of P.Platform session platform.new) (O.written output.old) (O.written output.new) result
        ⊎ Worked P.tells seed count (start_by P.Platform T.Tape platform.old tape.old) (world_by P.Platform T.Tape session platform.new tape.new) (O.written output.old) (O.written output.new) result) }
{
    let Ok(text) = script(alloc, seed, count) else {
        return Err(Stop::Device(DeviceStop::Memory));
    };
    let Ok(mut told) = MemSink::new(alloc, &[]) else {
        return Err(Stop::Device(DeviceStop::Memory));
    };
    let mut input = ScriptSource::new(text);
    match run(alloc, platform, tape, &mut input, &mut told, ledger) {
        Ok(()) => put_summary(seed, count, told.bytes(), output),
        Err(Stop::Device(stop)) => Err(last_line(stop, output)),
        // Memory refused one of the replies: nothing else keeps a sink in memory from growing.
        Err(Stop::Sink) => Err(Stop::Device(DeviceStop::Memory)),
        Err(Stop::Source | Stop::Limit) => unreachable!(),
    }
}

/// Puts what came of the script of a seed whose lines have these replies.
fn put_summary<O: Sink>(seed: u64, count: u64, told: &[u8], output: &mut O) -> Result<(), Stop>
    requires { count ≤ 5000 }
    ensures put { (replies : List Reply) → told.now ≡ flat_map line_of replies
        → HasPut (summary seed count replies) result (O.written output.old) (O.written output.new) }
    ensures stop { TellsPut result (O.faults output.old) (O.faults output.new) }
    ensures count { O.faults output.old ≤ O.faults output.new }
{
    if let Err(stop) = put_line(heading_of(seed, count, Tally::of(told)).as_slice(), output) {
        return Err(stop);
    }
    put_line(lines_behind(told, count + LINES_AROUND), output)
}

/// The first two lines of what came of a script. The longest ones have 105 bytes.
#[tactic(auto, unfolding(workload::specs::Summaries::heading))]
fn heading_of(seed: u64, count: u64, tally: Tally) -> ArrayVec<u8, 128>
    ensures { result.items ≡ heading seed count tally.accepted tally.refused }
{
    let mut line = ArrayVec::new();
    push_text(&mut line, b"work seed ");
    push_text(&mut line, itoa::Buffer::new().format(seed).as_bytes());
    push_text(&mut line, b" count ");
    push_text(&mut line, itoa::Buffer::new().format(count).as_bytes());
    push_text(&mut line, b"\naccepted ");
    push_text(
        &mut line,
        itoa::Buffer::new().format(tally.accepted).as_bytes(),
    );
    push_text(&mut line, b" refused ");
    push_text(
        &mut line,
        itoa::Buffer::new().format(tally.refused).as_bytes(),
    );
    push_text(&mut line, b"\n");
    line
}

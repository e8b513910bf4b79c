//! A run: the mount, the table of block 0, the lines, and the last line.
ghost use Rattle.std.specs.Prelude.{◌≡◌, ◌≤◌, List, Option, None, Some, IfErr, IfOk, IsOk, ◌+◌};
ghost use Rattle.sdbt_base.specs.Arrays.{Device, Session as OpenSession, mounted};
ghost use Rattle.sdbt_base.specs.Counts.{counts};
ghost use Rattle.device_course.specs.States.{IsAt, around};
ghost use Rattle.device_session.specs.Open.{IsOpen, blocks_of, needed_by};
ghost use Rattle.device_session.specs.Reading.{room_of};
ghost use Rattle.session_calls.specs.Along.{Along, Drawn};
ghost use Rattle.session_calls.specs.Damage.{IsMounted};
ghost use Rattle.volume_table.specs.Tables.{IsTable};
ghost use Rattle.session_calls.specs.Carrying.{Carries, IsReady};
ghost use Rattle.volumes.specs.Halts.{Blames};
ghost use Rattle.session_calls.specs.Spans.{Spans};
ghost use Rattle.volumes.specs.Running.{ChangesRan, IsIdle, Looked, Ran, ServesFew};
ghost use Rattle.volumes.specs.Starting.{FindsFirst, FindsTable, HaltsAtDamage, HaltsBehind, IsFrom, IsOfTable, IsRefusal, IsStart};

use crate::halts::{Halt, put_last_line};
use device_session::Session;
use line_run::Stop;
use platform::Platform;
use sdbt_base::{BLOCK, Sink, Source, Tape};
use session_calls::{mount_session, read_block};
use std::alloc::Global;
use volume_desk::Desk;
use volume_lines::ReplyWriter;
use volume_serving::serve_input;
use volume_table::{Table, decode};

/// How many nodes a session keeps in memory.
const CACHED_NODES: usize = 256;

/// Serves the volumes of the device, where it is one with a table, and says last why it isn't, or which damage was met.
pub(crate) fn run<P: Platform, T: Tape, I: Source, O: Sink, L: Sink>(
    alloc: Global,
    platform: &mut P,
    tape: &mut T,
    input: &mut I,
    output: &mut O,
    ledger: &mut L,
) -> Result<(), Halt>
    ensures spans { Spans P.tells (around P.Platform T.Tape L.Sink platform.old tape.old ledger.old)
        (around P.Platform T.Tape L.Sink platform.new tape.new ledger.new) (IsOk result) }
    ensures ended { I.ends input.new ≤ I.ends input.old + 1 }
    ensures blame { Blames (counts (P.faults platform.old) (T.faults tape.old) (I.faults input.old) (O.faults output.old) (L.faults ledger.old))
        (counts (P.faults platform.new) (T.faults tape.new) (I.faults input.new) (O.faults output.new) (L.faults ledger.new)) result }
    ensures ran { (ran : Ran P.tells (around P.Platform T.Tape L.Sink platform.old tape.old ledger.old)
        (around P.Platform T.Tape L.Sink platform.new tape.new ledger.new)
        (IsIdle P.tells tape.old tape.new input.old input.new ledger.old ledger.new (P.head platform.old) (P.head platform.new) (P.history platform.old) (P.history platform.new))
        (I.left input.old) (I.left input.new) (O.written output.old) (O.written output.new) result)
        × ChangesRan P.tells (around P.Platform T.Tape L.Sink platform.old tape.old ledger.old)
        (around P.Platform T.Tape L.Sink platform.new tape.new ledger.new)
        (IsIdle P.tells tape.old tape.new input.old input.new ledger.old ledger.new (P.head platform.old) (P.head platform.new) (P.history platform.old) (P.history platform.new))
        (I.left input.old) (I.left input.new) (O.written output.old) (O.written output.new) result ran (P.changes platform.old) (P.changes platform.new) }
{
    match serve_device(alloc, platform, tape, input, output, ledger) {
        Ok(()) => Ok(()),
        Err(halt) => Err(put_last_line(halt, output)),
    }
}

/// Opens a session on the device, and serves its volumes.
fn serve_device<P: Platform, T: Tape, I: Source, O: Sink, L: Sink>(
    alloc: Global,
    platform: &mut P,
    tape: &mut T,
    input: &mut I,
    output: &mut O,
    ledger: &mut L,
) -> Result<(), Halt>
    ensures spans { Spans P.tells (around P.Platform T.Tape L.Sink platform.old tape.old ledger.old)
        (around P.Platform T.Tape L.Sink platform.new tape.new ledger.new) (IsOk result) }
    ensures ended { I.ends input.new ≤ I.ends input.old + 1 }
    ensures blame { Blames (counts (P.faults platform.old) (T.faults tape.old) (I.faults input.old) (O.faults output.old) (L.faults ledger.old))
        (counts (P.faults platform.new) (T.faults tape.new) (I.faults input.new) (O.faults output.new) (L.faults ledger.new)) result }
    ensures serves { ServesFew P.tells 1 (IsStart P.tells (around P.Platform T.Tape L.Sink platform.old tape.old ledger.old))
        (around P.Platform T.Tape L.Sink platform.old tape.old ledger.old)
        (around P.Platform T.Tape L.Sink platform.new tape.new ledger.new)
        result (I.left input.old) (I.left input.new) (O.written output.old) (O.written output.new) (P.changes platform.old) (P.changes platform.new) }
    ensures looked { Looked P.tells (P.history platform.old).present result }
    ensures idle { P.tells → IfErr result (λ halt. IsRefusal halt
        → IsIdle P.tells tape.old tape.new input.old input.new ledger.old ledger.new (P.head platform.old) (P.head platform.new) (P.history platform.old) (P.history platform.new)
        × (O.written output.new ≡ O.written output.old)) }
    // On any pages: which damage it met.
    ensures damage { P.tells → IfErr result (HaltsAtDamage (P.history platform.new).present) }
{
    match mount_session(alloc, platform, CACHED_NODES) {
        Ok(Some(session)) => serve_volumes(session, platform, tape, input, output, ledger),
        Ok(None) => Err(Halt::NoDevice),
        Err(stop) => Err(Halt::Stopped(Stop::Device(stop))),
    }
}

/// Serves the lines of the input over a session, where its block 0 has a table.
fn serve_volumes<P: Platform, T: Tape, I: Source, O: Sink, L: Sink>(
    first: Session,
    platform: &mut P,
    tape: &mut T,
    input: &mut I,
    output: &mut O,
    ledger: &mut L,
) -> Result<(), Halt>
    requires ready { IsReady P.tells (around P.Platform T.Tape L.Sink platform.old tape.old ledger.old) first }
    requires fresh { needed_by first ≡ 0 }
    requires room { room_of first ≡ 256 }
    ensures carries { Carries P.tells (around P.Platform T.Tape L.Sink platform.old tape.old ledger.old)
        (around P.Platform T.Tape L.Sink platform.new tape.new ledger.new) first None (IsOk result) }
    ensures ended { I.ends input.new ≤ I.ends input.old + 1 }
    ensures blame { Blames (counts (P.faults platform.old) (T.faults tape.old) (I.faults input.old) (O.faults output.old) (L.faults ledger.old))
        (counts (P.faults platform.new) (T.faults tape.new) (I.faults input.new) (O.faults output.new) (L.faults ledger.new)) result }
    // It doesn't look at the cell.
    ensures serves { ServesFew P.tells 0 (IsFrom P.tells (around P.Platform T.Tape L.Sink platform.old tape.old ledger.old) first)
        (around P.Platform T.Tape L.Sink platform.old tape.old ledger.old)
        (around P.Platform T.Tape L.Sink platform.new tape.new ledger.new)
        result (I.left input.old) (I.left input.new) (O.written output.old) (O.written output.new) (P.changes platform.old) (P.changes platform.new) }
    ensures idle { P.tells → IfErr result (λ halt. IsRefusal halt
        → IsIdle P.tells tape.old tape.new input.old input.new ledger.old ledger.new (P.head platform.old) (P.head platform.new) (P.history platform.old) (P.history platform.new)
        × (O.written output.new ≡ O.written output.old)) }
    // On any pages: which damage it met.
    ensures damage { P.tells → IfErr result (HaltsBehind (P.history platform.new).present) }
{
    let mut session = first;
    let table = match read_table(&mut session, platform) {
        Ok(table) => table,
        Err(halt) => return Err(halt),
    };
    let mut desk = Desk {
        table,
        buffer: [0; BLOCK],
    };
    let mut writer = ReplyWriter::new();
    match serve_input(
        session,
        &mut desk,
        &mut writer,
        platform,
        tape,
        input,
        output,
        ledger,
    ) {
        Ok(()) => Ok(()),
        Err(stop) => Err(Halt::Stopped(stop)),
    }
}

/// The table in block 0 of a session.
fn read_table<P: Platform>(session: &mut Session, platform: &mut P) -> Result<Table, Halt>
    requires open { IsOpen session.old (P.head platform.old) }
    ensures along { (drawn : Drawn) → Along P.Platform 0 21 platform.old platform.new drawn drawn session.old session.new }
    ensures blame { Blames (counts (P.faults platform.old) 0 0 0 0) (counts (P.faults platform.new) 0 0 0 0) result }
    ensures table { IfOk result (IsTable (blocks_of session.old)) }
    ensures finds { P.tells → (there : Device) (array : OpenSession) → IsAt (P.history platform.old).present (Some session.old) (mounted there array)
        → FindsTable (P.history platform.new).present session.new there array result }
    // On any pages: the table is that which they spell, or they spell none.
    ensures spelled { P.tells → IsMounted (P.history platform.old).present session.old → FindsFirst (P.history platform.old).present session.old result }
    ensures early { IfErr result IsOfTable }
    ensures damage { P.tells → IsMounted (P.history platform.old).present session.old → IfErr result (HaltsBehind (P.history platform.new).present) }
{
    let mut block = [0; BLOCK];
    match read_block(session, platform, 0, &mut block) {
        Ok(()) => match decode(&block, session.blocks()) {
            Some(table) => Ok(table),
            None => Err(Halt::BadDirectory),
        },
        Err(stop) => Err(Halt::Stopped(Stop::Device(stop))),
    }
}

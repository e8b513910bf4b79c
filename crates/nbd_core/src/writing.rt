//! Writes.
ghost use Rattle.std.specs.Prelude.{Option, Some, IfErr, OnErr, ◌≡◌, ◌≢◌, ◌+◌, ◌-◌, ◌*◌, ◌≤◌, ◌<◌, ◌^◌, ℕ, IfOk, length};
ghost use Rattle.byte_arrays.specs.Ranges.{touched_blocks};
ghost use Rattle.device_session.specs.Open.{IsOpen, blocks_of, needed_by};
ghost use Rattle.device_course.specs.States.{IsAt};
ghost use Rattle.sdbt_base.specs.Arrays.{Device, Session as OpenSession, mounted};
ghost use Rattle.nbd_terms.specs.Turn.{Writes};
ghost use Rattle.nbd_core.specs.Stops.{EndsOnce};
ghost use Rattle.nbd_core.specs.Arrays.{AddsOne, WritesPart, WroteRange};
ghost use Rattle.session_calls.specs.Along.{Along, drawn_by};
ghost use Rattle.sdbt_base.specs.Counts.{Counts, NoneFell};
ghost use Rattle.session_calls.specs.Blame.{HasCause, IsOfCall};
ghost use Rattle.session_calls.specs.Damage.{IsMounted};
ghost use Rattle.nbd_core.specs.Damages.{WritesTrue};
ghost use Rattle.nbd_core.specs.Found.{WritesFound};
ghost use Rattle.nbd_core.specs.Halts.{Blames, outcome_after};
ghost use Rattle.session_calls.specs.Calling.{Calls};
ghost use Rattle.nbd_core.specs.Serving.{IsWithin};
ghost use Rattle.nbd_core.specs.Reads.{reads_at};
ghost use Rattle.nbd_core.specs.Requests.{DataCame};
ghost use Rattle.nbd_core.specs.Stopped.{LeavesCounts};
ghost use Rattle.nbd_core.specs.Turns.{EndsAs, LeadsOn, MayHalt};

use crate::halts::{Halt, after_stop};
use crate::intake::Intake;
use crate::stop::Stop;
use byte_arrays::{Part, touched};
use device_session::Session;
use nbd_lang::{Outcome, Request, RequestKind};
use platform::Platform;
use sdbt_base::{BLOCK, Source, Tape};
use session_calls::{DeviceStop, read_block, write_block};

/// Writes a range, where as many pages are free as it touches blocks.
pub(crate) fn write<P: Platform, T: Tape, I: Source>(
    session: &mut Session,
    block: &mut [u8; BLOCK],
    intake: &mut Intake,
    platform: &mut P,
    tape: &mut T,
    input: &mut I,
    request: &Request,
) -> Result<Outcome, Halt>
    requires open { IsOpen session.old (P.head platform.old) }
    requires within { IsWithin request.now (blocks_of session.old) }
    ensures along { Along P.Platform
        (length (touched_blocks request.now.offset request.now.length))
        (reads_at RequestKind.Write request.now.offset request.now.length) platform.old platform.new
        (drawn_by T.Tape tape.old) (drawn_by T.Tape tape.new) session.old session.new }
    ensures ended { EndsOnce result (λ done. Unit {0}) (I.ends input.old) (I.ends input.new) }
    ensures blame { (rest : Counts)
        → Blames (record rest { platform = P.faults platform.old; tape = T.faults tape.old; input = I.faults input.old })
        (record rest { platform = P.faults platform.new; tape = T.faults tape.new; input = I.faults input.new }) result }
    ensures bytes { DataCame (I.left input.old) (I.left input.new) intake.old intake.new
        request.now.length
        (λ gone. LeadsOn P.Platform platform.old platform.new session.old session.new
        (λ outcome entry next. Writes (P.capacity platform.old - entry.pages) entry
        request.now.offset gone (touched_blocks request.now.offset request.now.length)
        outcome next) result
        × WritesTrue P.Platform platform.old platform.new session.old session.new
        request.now.offset request.now.length gone result) result }
    ensures ends { EndsAs RequestKind.Write result }
    ensures short { IfOk result (λ outcome. outcome ≡ Outcome.NoSpace
        → P.capacity platform.new - P.head platform.new
        < length (touched_blocks request.now.offset request.now.length)) }
{
    let blocks = touched(request.offset, request.length as u64);
    if blocks.end - blocks.start > platform.capacity() - platform.head() {
        return let_go(intake, input, request.length as u64, Outcome::NoSpace);
    }
    write_range(
        session,
        block,
        intake,
        platform,
        tape,
        input,
        request.offset,
        request.length as usize,
    )
}

/// Takes so many bytes, and puts them into their blocks from the place `at` on, each part of a
/// block as soon as its bytes are there.
fn write_range<P: Platform, T: Tape, I: Source>(
    session: &mut Session,
    block: &mut [u8; BLOCK],
    intake: &mut Intake,
    platform: &mut P,
    tape: &mut T,
    input: &mut I,
    at: u64,
    count: usize,
) -> Result<Outcome, Halt>
    requires open { IsOpen session.old (P.head platform.old) }
    requires small { count < 2 ^ 32 }
    requires within { at + count ≤ 4096 * blocks_of session.old }
    requires free { P.head platform.old + length (touched_blocks at count)
        ≤ P.capacity platform.old }
    ensures along { Along P.Platform (length (touched_blocks at count))
        (reads_at RequestKind.Write at count) platform.old platform.new
        (drawn_by T.Tape tape.old) (drawn_by T.Tape tape.new) session.old session.new }
    ensures ended { EndsOnce result (λ done. Unit {0}) (I.ends input.old) (I.ends input.new) }
    ensures blame { (rest : Counts)
        → Blames (record rest { platform = P.faults platform.old; tape = T.faults tape.old; input = I.faults input.old })
        (record rest { platform = P.faults platform.new; tape = T.faults tape.new; input = I.faults input.new }) result }
    ensures bytes { DataCame (I.left input.old) (I.left input.new) intake.old intake.new count
        (λ gone. (P.tells → (device : Device) (array : OpenSession)
        → IsAt (P.history platform.old).present (Some session.old) (mounted device array)
        → IfOk result (WroteRange (P.history platform.new).present (P.head platform.old)
        (P.head platform.new) (needed_by session.old) session.new device array at gone
        (touched_blocks at count)))
        × WritesTrue P.Platform platform.old platform.new session.old session.new at count
        gone result) result }
    ensures ends { EndsAs RequestKind.Write result }
    ensures room { IfOk result (λ outcome. outcome ≢ Outcome.NoSpace) }
{
    let mut done = 0;
    while done < count {
        let part = Part::first(at + done as u64, count - done);
        match intake.need(input, part.count) {
            Ok(true) => {}
            Ok(false) => return Err(Halt::Client(Stop::Broken)),
            Err(stop) => return Err(Halt::Client(stop)),
        }
        let bytes = &intake.ahead()[..part.count];
        let written = write_part(session, block, platform, tape, part, bytes);
        intake.skip(part.count);
        done += part.count;
        match written {
            Ok(()) => {}
            Err(stop) => return give_up(stop, intake, input, (count - done) as u64),
        }
    }
    Ok(Outcome::Done)
}

/// What a write comes to that stopped: where it has a reply, the rest of its bytes is let go.
fn give_up<I: Source>(
    stop: DeviceStop,
    intake: &mut Intake,
    input: &mut I,
    left: u64,
) -> Result<Outcome, Halt>
    requires { IsOfCall stop }
    ensures ended { EndsOnce result (λ done. Unit {0}) (I.ends input.old) (I.ends input.new) }
    ensures blame { (before now : Counts) → NoneFell before now → HasCause before now stop
        → Blames (record before { input = I.faults input.old })
        (record now { input = I.faults input.new }) result }
    ensures bytes { DataCame (I.left input.old) (I.left input.new) intake.old intake.new left
        (λ gone. Unit {0}) result }
    ensures outcome { IfOk result (λ outcome. outcome_after stop ≡ Ok outcome) }
    ensures ends { EndsAs RequestKind.Write result }
{
    match after_stop(stop) {
        Ok(outcome) => let_go(intake, input, left, outcome),
        Err(halt) => Err(halt),
    }
}

/// Lets the next bytes of the input go, so many, for a request that comes to this outcome.
pub(crate) fn let_go<I: Source>(
    intake: &mut Intake,
    input: &mut I,
    count: u64,
    outcome: Outcome,
) -> Result<Outcome, Halt>
    ensures outcome { IfOk result (λ it. it ≡ outcome) }
    ensures halted { (kind : RequestKind) (refused : Option Outcome)
        → IfErr result (MayHalt kind refused) }
    ensures ended { EndsOnce result (λ done. Unit {0}) (I.ends input.old) (I.ends input.new) }
    ensures blame { (rest : Counts)
        → Blames (record rest { input = I.faults input.old })
        (record rest { input = I.faults input.new }) result }
    ensures bytes { DataCame (I.left input.old) (I.left input.new) intake.old intake.new count
        (λ gone. Unit {0}) result }
{
    match intake.pass(input, count) {
        Ok(true) => Ok(outcome),
        Ok(false) => Err(Halt::Client(Stop::Broken)),
        Err(stop) => Err(Halt::Client(stop)),
    }
}

/// Writes a part of a block, of which all else stays.
fn write_part<P: Platform, T: Tape>(
    session: &mut Session,
    block: &mut [u8; BLOCK],
    platform: &mut P,
    tape: &mut T,
    part: Part,
    bytes: &[u8],
) -> Result<(), DeviceStop>
    requires size { length bytes.now ≡ part.count }
    requires some { 0 < part.count }
    requires open { IsOpen session.old (P.head platform.old) }
    requires within { part.block < blocks_of session.old }
    requires free { P.head platform.old ≢ P.capacity platform.old }
    ensures calls { Calls P.Platform 1
        (reads_at RequestKind.Write (4096 * part.block + part.start) part.count)
        platform.old platform.new (drawn_by T.Tape tape.old) (drawn_by T.Tape tape.new)
        session.old session.new result }
    ensures writes { P.tells → (device : Device) (array : OpenSession)
        → IsAt (P.history platform.old).present (Some session.old) (mounted device array)
        → WritesPart (P.history platform.new).present session.new device array
        part.block part.start part.count bytes.now result }
    ensures adds { AddsOne (P.head platform.old) (P.head platform.new) result }
    ensures left { OnErr result (LeavesCounts session.old session.new) }
    // On any pages: look-ups find the bytes in their place, or there is damage.
    ensures damage { P.tells → IsMounted (P.history platform.old).present session.old
        → WritesFound (P.history platform.old).present (P.history platform.new).present
        session.old session.new (4096 * part.block + part.start) bytes.now result }
{
    if part.is_whole() {
        return write_block(session, platform, tape, part.block, bytes);
    }
    match read_block(session, platform, part.block, block) {
        Ok(()) => {}
        Err(stop) => return Err(stop),
    }
    part.paste(bytes, block);
    write_block(session, platform, tape, part.block, block)
}

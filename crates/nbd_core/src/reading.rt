//! Reads.
ghost use Rattle.std.specs.Prelude.{Some, false, ◌≡◌, ◌≢◌, ◌+◌, ◌*◌, ◌≤◌, ◌<◌, ℕ, IfErr, IfOk, IsTrue, length, vec_capacity};
ghost use Rattle.device_session.specs.Open.{IsOpen, blocks_of};
ghost use Rattle.session_calls.specs.Along.{Along, Drawn};
ghost use Rattle.sdbt_base.specs.Counts.{Counts};
ghost use Rattle.sdbt_base.specs.Arrays.{Device, Session as OpenSession, mounted};
ghost use Rattle.device_course.specs.States.{IsAt};
ghost use Rattle.nbd_core.specs.Arrays.{ReadsBytes};
ghost use Rattle.session_calls.specs.Damage.{IsMounted};
ghost use Rattle.nbd_core.specs.Damages.{SaysTrue};
ghost use Rattle.nbd_core.specs.Found.{FindsBytes, FindsSame, ReadsFound};
ghost use Rattle.nbd_core.specs.Halts.{Blames};
ghost use Rattle.nbd_core.specs.Meets.{HasMet};
ghost use Rattle.nbd_core.specs.Reads.{reads_at};
ghost use Rattle.nbd_core.specs.Rooms.{KeepsRoom};
ghost use Rattle.nbd_terms.specs.Turn.{Reads};
ghost use Rattle.session_calls.specs.Calling.{Calls};
ghost use Rattle.nbd_core.specs.Serving.{IsWithin, bytes_of_reply};
ghost use Rattle.nbd_core.specs.Turns.{LeadsOn, MayCome};

use crate::halts::{Halt, after_stop};
use byte_arrays::Part;
use device_session::Session;
use nbd_lang::{Outcome, REPLY_HEAD, Request, RequestKind};
use platform::Platform;
use sdbt_base::BLOCK;
use session_calls::{DeviceStop, read_block};

/// Puts the bytes of a range into the room of a reply, behind its head.
pub(crate) fn read<P: Platform>(
    session: &mut Session,
    block: &mut [u8; BLOCK],
    reply: &mut Vec<u8>,
    platform: &mut P,
    request: &Request,
) -> Result<Outcome, Halt>
    requires open { IsOpen session.old (P.head platform.old) }
    requires within { IsWithin request.now (blocks_of session.old) }
    ensures along { (drawn : Drawn) → Along P.Platform 0
        (reads_at RequestKind.Read request.now.offset request.now.length)
        platform.old platform.new drawn drawn session.old session.new }
    ensures blame { (rest : Counts)
        → Blames (record rest { platform = P.faults platform.old })
        (record rest { platform = P.faults platform.new }) result }
    ensures halts { IfErr result (λ halt. halt ≡ Halt.Platform) }
    ensures comes { IfOk result (MayCome RequestKind.Read) }
    ensures room { IfOk result (λ outcome. outcome ≡ Outcome.Done
        → 16 + request.now.length ≤ length reply.new.items) }
    ensures keeps { KeepsRoom (16 + request.now.length) (length reply.old.items) (length reply.new.items) (vec_capacity reply.old) (vec_capacity reply.new) }
    // Memory is wanted for the reply alone, where there is no room for it.
    ensures lacks { IfOk result (λ outcome. outcome ≡ Outcome.NoMemory
        → length reply.old.items < 16 + request.now.length) }
    ensures leads { LeadsOn P.Platform platform.old platform.new session.old session.new
        (λ outcome entry next. Reads entry request.now outcome
        (bytes_of_reply RequestKind.Read request.now.length outcome reply.new.items) next) result }
    // On any pages: it has these bytes of the look-ups, or there is damage.
    ensures damage { P.tells → IsMounted (P.history platform.old).present session.old
        → FindsSame (P.history platform.old).present (P.history platform.new).present
        session.old session.new
        × IfOk result (SaysTrue (Unit {0}) (HasMet RequestKind.Read session.old (P.history platform.new).present
        request.now.offset request.now.length)
        (FindsBytes (P.history platform.old).present session.old request.now.offset
        (bytes_of_reply RequestKind.Read request.now.length Outcome.Done reply.new.items))
        (FindsSame (P.history platform.old).present (P.history platform.new).present
        session.old session.new)) }
{
    let length = request.length as usize;
    if !has_room(reply, REPLY_HEAD + length) {
        return Ok(Outcome::NoMemory);
    }
    let out = &mut reply[REPLY_HEAD..REPLY_HEAD + length];
    match read_range(session, block, platform, request.offset, out) {
        Ok(()) => Ok(Outcome::Done),
        Err(stop) => after_stop(stop),
    }
}

/// Whether so many bytes are there, or could be added; no more are taken than these.
fn has_room(reply: &mut Vec<u8>, count: usize) -> bool
    ensures there { IsTrue result → count ≤ length reply.new.items }
    ensures lacks { result ≡ false → length reply.old.items < count }
    ensures keeps { KeepsRoom count (length reply.old.items) (length reply.new.items) (vec_capacity reply.old) (vec_capacity reply.new) }
{
    count <= reply.len() || reply.resize(count, 0).is_ok()
}

/// Reads the bytes from the place `at` on: as many as `out` has room for.
fn read_range<P: Platform>(
    session: &mut Session,
    block: &mut [u8; BLOCK],
    platform: &mut P,
    at: u64,
    out: &mut [u8],
) -> Result<(), DeviceStop>
    requires open { IsOpen session.old (P.head platform.old) }
    requires within { at + length out.old ≤ 4096 * blocks_of session.old }
    ensures calls { (drawn : Drawn) → Calls P.Platform 0
        (reads_at RequestKind.Read at (length out.old)) platform.old platform.new drawn drawn
        session.old session.new result }
    ensures memory { IfErr result (λ stop. stop ≢ DeviceStop.Memory) }
    ensures size { length out.new ≡ length out.old }
    ensures reads { P.tells → (device : Device) (array : OpenSession)
        → IsAt (P.history platform.old).present (Some session.old) (mounted device array)
        → ReadsBytes (P.history platform.new).present session.new device array at out.new result }
    // On any pages.
    ensures damage { P.tells → IsMounted (P.history platform.old).present session.old
        → ReadsFound (P.history platform.old).present (P.history platform.new).present
        session.old session.new at out.new result }
{
    let mut done = 0;
    while done < out.len() {
        let part = Part::first(at + done as u64, out.len() - done);
        let place = &mut out[done..done + part.count];
        match read_part(session, block, platform, part, place) {
            Ok(()) => {}
            Err(stop) => return Err(stop),
        }
        done += part.count;
    }
    Ok(())
}

/// Reads a part of a block.
fn read_part<P: Platform>(
    session: &mut Session,
    block: &mut [u8; BLOCK],
    platform: &mut P,
    part: Part,
    out: &mut [u8],
) -> Result<(), DeviceStop>
    requires size { length out.old ≡ part.count }
    requires open { IsOpen session.old (P.head platform.old) }
    requires within { part.block < blocks_of session.old }
    ensures calls { (drawn : Drawn) → Calls P.Platform 0 21 platform.old platform.new drawn drawn
        session.old session.new result }
    ensures memory { IfErr result (λ stop. stop ≢ DeviceStop.Memory) }
    ensures size { length out.new ≡ length out.old }
    ensures reads { P.tells → (device : Device) (array : OpenSession)
        → IsAt (P.history platform.old).present (Some session.old) (mounted device array)
        → ReadsBytes (P.history platform.new).present session.new device array
        (4096 * part.block + part.start) out.new result }
    // On any pages.
    ensures damage { P.tells → IsMounted (P.history platform.old).present session.old
        → ReadsFound (P.history platform.old).present (P.history platform.new).present
        session.old session.new (4096 * part.block + part.start) out.new result }
{
    if part.is_whole() {
        return read_block(session, platform, part.block, out);
    }
    match read_block(session, platform, part.block, block) {
        Ok(()) => {}
        Err(stop) => return Err(stop),
    }
    out.copy_from_slice(part.bytes_of(block));
    Ok(())
}

//! Writes a table, and trims the blocks of a volume.
ghost use Rattle.std.specs.Prelude.{◌≡◌, ◌≢◌, ◌+◌, ◌*◌, ◌<◌, ◌≤◌, Some, IfErr, OnOk};
ghost use Rattle.sdbt_base.specs.Arrays.{Device, Session as OpenSession, mounted, written};
ghost use Rattle.byte_arrays.specs.Ranges.{blocks_from};
ghost use Rattle.device_course.specs.States.{IsAt};
ghost use Rattle.device_session.specs.Open.{IsOpen, blocks_of};
ghost use Rattle.device_course.specs.Held.{trim_all};
ghost use Rattle.session_calls.specs.Along.{Drawn, drawn_by};
ghost use Rattle.session_calls.specs.Damage.{IsMounted};
ghost use Rattle.volume_table.specs.Tables.{IsInside, table_bytes};
ghost use Rattle.volume_desk.specs.Causes.{IsNearBound, MeetsNode};
ghost use Rattle.volume_desk.specs.Done.{HasCleared, HasTrimmed};
ghost use Rattle.volume_desk.specs.Drawing.{DrewOne, tally};
ghost use Rattle.volume_desk.specs.Turns.{ChangesTo};
ghost use Rattle.session_calls.specs.Calling.{Calls};

use device_session::Session;
use platform::Platform;
use sdbt_base::{BLOCK, Tape};
use session_calls::{DeviceStop, trim_block, write_block};
use volume_table::{Table, Volume, encode};

/// Writes a table to block 0, where a page is free, and then trims all blocks of a volume.
pub(crate) fn change<P: Platform, T: Tape>(
    session: &mut Session,
    platform: &mut P,
    tape: &mut T,
    table: &Table,
    volume: &Volume,
) -> Result<(), DeviceStop>
    requires open { IsOpen session.old (P.head platform.old) }
    requires inside { IsInside (blocks_of session.old) volume.now }
    requires free { P.head platform.old ≢ P.capacity platform.old }
    ensures calls { Calls P.Platform (1 + volume.now.count) (40 + 40 * volume.now.count) platform.old platform.new (drawn_by T.Tape tape.old) (drawn_by T.Tape tape.new) session.old session.new result }
    ensures head { OnOk result (P.head platform.new ≡ P.head platform.old + 1) }
    ensures drew { OnOk result (DrewOne (tally (T.drawn tape.old) (P.head platform.old)) (tally (T.drawn tape.new) (P.head platform.new))) }
    ensures leads { P.tells → (device : Device) (array : OpenSession) → IsAt (P.history platform.old).present (Some session.old) (mounted device array)
        → ChangesTo (P.history platform.new).present session.new device (trim_all (written array 0 (table_bytes table.now)) (blocks_from volume.now.start volume.now.count)) result }
    ensures damage { P.tells → IsMounted (P.history platform.old).present session.old → IfErr result (MeetsNode (IsNearBound session.old volume.now.count) (P.history platform.new).present) }
    // On any pages: none of the blocks is left, and block 0 has the table.
    ensures left { P.tells → IsMounted (P.history platform.old).present session.old → OnOk result (HasCleared (P.history platform.old).present session.old (P.history platform.new).present session.new volume.now table.now) }
{
    let mut block = [0; BLOCK];
    encode(table, &mut block);
    match write_block(session, platform, tape, 0, &block) {
        Ok(()) => trim_range(session, platform, volume),
        Err(stop) => Err(stop),
    }
}

/// Trims all blocks of a volume.
fn trim_range<P: Platform>(
    session: &mut Session,
    platform: &mut P,
    volume: &Volume,
) -> Result<(), DeviceStop>
    requires open { IsOpen session.old (P.head platform.old) }
    requires inside { IsInside (blocks_of session.old) volume.now }
    ensures calls { (drawn : Drawn) → Calls P.Platform volume.now.count (40 * volume.now.count) platform.old platform.new drawn drawn session.old session.new result }
    ensures head { P.head platform.new ≡ P.head platform.old }
    ensures leads { P.tells → (device : Device) (array : OpenSession) → IsAt (P.history platform.old).present (Some session.old) (mounted device array)
        → ChangesTo (P.history platform.new).present session.new device (trim_all array (blocks_from volume.now.start volume.now.count)) result }
    ensures damage { P.tells → IsMounted (P.history platform.old).present session.old → IfErr result (MeetsNode (session.old.mapped < volume.now.count) (P.history platform.new).present) }
    // On any pages: none of the blocks is left, and each other one is as it was.
    ensures gone { P.tells → IsMounted (P.history platform.old).present session.old
        → OnOk result (HasTrimmed (P.history platform.old).present.readable (P.history platform.new).present.readable session.old session.new volume.now.start volume.now.count) }
{
    for i in 0..volume.count {
        match trim_block(session, platform, volume.start + i) {
            Ok(()) => {}
            Err(stop) => return Err(stop),
        }
    }
    Ok(())
}

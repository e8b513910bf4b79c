ghost use Rattle.std.specs.Prelude.{◌*◌, ◌<◌, ◌≤◌, ◌≢◌, Some, OnOk, length};
ghost use Rattle.sdbt_base.specs.Arrays.{Device, Session as OpenSession, mounted, padded};
ghost use Rattle.device_session.specs.Damage.{HasPut};
ghost use Rattle.device_session.specs.Open.{IsOpen, blocks_of};
ghost use Rattle.device_course.specs.States.{IsAt};
ghost use Rattle.session_calls.specs.Along.{drawn_by};
ghost use Rattle.session_calls.specs.Damage.{IsMounted, WritesAny};
ghost use Rattle.session_calls.specs.Goes.{AddsBlock, Goes, IsWriteStop, WritesBlock};

use crate::stops::DeviceStop;
use device_session::{Session, WriteRefusal};
use platform::Platform;
use sdbt_base::Tape;

/// Writes a block that the device has, where a page is free: at most 4,096 bytes, and zeros up to its end.
///
/// The session goes on after a stop, with the array that it had.
pub fn write_block<P: Platform, T: Tape>(
    session: &mut Session,
    platform: &mut P,
    tape: &mut T,
    block: u64,
    content: &[u8],
) -> Result<(), DeviceStop>
    requires size { length content.now ≤ 4096 }
    requires open { IsOpen session.old (P.head platform.old) }
    requires within { block < blocks_of session.old }
    requires free { P.head platform.old ≢ P.capacity platform.old }
    ensures goes { Goes P.Platform 1 (2 * session.old.grove.level) platform.old platform.new (drawn_by T.Tape tape.old) (drawn_by T.Tape tape.new) session.old session.new result }
    ensures leads { P.tells → (device : Device) (array : OpenSession) → IsAt (P.history platform.old).present (Some session.old) (mounted device array)
        → WritesBlock (P.history platform.new).present session.new device array block content.now result }
    ensures adds { AddsBlock P.Platform T.Tape platform.old platform.new tape.old tape.new result }
    // On any pages: why it is answered so.
    ensures any { WritesAny (P.tells × IsMounted (P.history platform.old).present session.old) (P.history platform.old).present (P.history platform.new).present
        session.old block result }
    // And what a write makes of the tree.
    ensures written { P.tells → IsMounted (P.history platform.old).present session.old
        → OnOk result (HasPut (P.history platform.old).present.readable (P.history platform.new).present.readable session.old session.new block (padded content.now)) }
{
    match session.write(platform, tape, block, content) {
        Ok(()) => Ok(()),
        Err(refusal) => Err(stop_of_write(refusal)),
    }
}

/// The stop that a refused write comes to, where the device has the block and a page is free.
fn stop_of_write(refusal: WriteRefusal) -> DeviceStop
    requires { (refusal ≢ WriteRefusal.Range) × (refusal ≢ WriteRefusal.Full) }
    ensures { IsWriteStop refusal result }
{
    match refusal {
        WriteRefusal::Memory => DeviceStop::Memory,
        WriteRefusal::BadRecord { addr } => DeviceStop::BadRecord { addr },
        WriteRefusal::PlatformFault => DeviceStop::Platform,
        WriteRefusal::TapeFault => DeviceStop::Tape,
        WriteRefusal::Range | WriteRefusal::Full => unreachable!(),
    }
}

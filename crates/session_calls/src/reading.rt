ghost use Rattle.std.specs.Prelude.{◌≡◌, ◌+◌, ◌<◌, ◌≢◌, Some, IfErr, OnErr, length};
ghost use Rattle.sdbt_base.specs.Arrays.{Device, Session as OpenSession, mounted};
ghost use Rattle.device_session.specs.Open.{IsOpen, blocks_of};
ghost use Rattle.device_course.specs.States.{IsAt};
ghost use Rattle.session_calls.specs.Along.{Drawn};
ghost use Rattle.session_calls.specs.Damage.{IsMounted, ReadsAny};
ghost use Rattle.session_calls.specs.Goes.{Goes, IsReadStop, ReadsBlock, ReadsPages};

use crate::stops::DeviceStop;
use device_session::{ReadRefusal, Session};
use platform::Platform;

/// Puts the content of a block that the device has into the 4,096 bytes of `out`: zeros where it is not mapped.
///
/// The session goes on after a stop, with the array that it had, and `out` is as it was then.
pub fn read_block<P: Platform>(
    session: &mut Session,
    platform: &mut P,
    block: u64,
    out: &mut [u8],
) -> Result<(), DeviceStop>
    requires size { length out.old ≡ 4096 }
    requires open { IsOpen session.old (P.head platform.old) }
    requires within { block < blocks_of session.old }
    ensures goes { (drawn : Drawn) → Goes P.Platform 0 (session.old.grove.level + 1) platform.old platform.new drawn drawn session.old session.new result }
    ensures leads { P.tells → (device : Device) (array : OpenSession) → IsAt (P.history platform.old).present (Some session.old) (mounted device array)
        → ReadsBlock (P.history platform.new).present session.new device array block out.new result }
    ensures reads { ReadsPages P.Platform block platform.old platform.new session.old session.new result }
    // On any pages: why it is answered so.
    ensures any { ReadsAny (P.tells × IsMounted (P.history platform.old).present session.old) (P.history platform.old).present (P.history platform.new).present
        session.old block out.new result }
    ensures same { (session.new.mapped ≡ session.old.mapped) × (session.new.grove ≡ session.old.grove) }
    ensures left { OnErr result (out.new ≡ out.old) }
    ensures room { IfErr result (λ stop. stop ≢ DeviceStop.Memory) }
{
    match session.read(platform, block, out) {
        Ok(()) => Ok(()),
        Err(refusal) => Err(stop_of_read(refusal)),
    }
}

/// The stop that a refused read comes to, where the device has the block.
fn stop_of_read(refusal: ReadRefusal) -> DeviceStop
    requires { refusal ≢ ReadRefusal.Range }
    ensures { IsReadStop refusal result }
{
    match refusal {
        ReadRefusal::BadRecord { addr } => DeviceStop::BadRecord { addr },
        ReadRefusal::PlatformFault => DeviceStop::Platform,
        ReadRefusal::Range => unreachable!(),
    }
}

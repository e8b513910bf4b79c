ghost use Rattle.std.specs.Prelude.{◌≡◌, ◌*◌, ◌<◌, ◌≢◌, Some, OnOk};
ghost use Rattle.sdbt_base.specs.Arrays.{Device, Session as OpenSession, mounted};
ghost use Rattle.device_session.specs.Damage.{HasTaken};
ghost use Rattle.device_session.specs.Open.{IsOpen, blocks_of};
ghost use Rattle.device_session.specs.Reading.{KnowsUnmapped};
ghost use Rattle.device_course.specs.States.{IsAt};
ghost use Rattle.session_calls.specs.Along.{Drawn};
ghost use Rattle.session_calls.specs.Damage.{IsMounted, TrimsAny};
ghost use Rattle.session_calls.specs.Goes.{Goes, IsTrimStop, TrimsBlock};

use crate::stops::DeviceStop;
use device_session::{Session, TrimRefusal};
use platform::Platform;

/// Unmaps a block that the device has, which then reads as zeros. One that is not mapped stays so: where the nodes in memory and the
/// cache say so, nothing is read or brought into memory.
///
/// The session goes on after a stop, with the array that it had.
pub fn trim_block<P: Platform>(
    session: &mut Session,
    platform: &mut P,
    block: u64,
) -> Result<(), DeviceStop>
    requires open { IsOpen session.old (P.head platform.old) }
    requires within { block < blocks_of session.old }
    ensures goes { (drawn : Drawn) → Goes P.Platform 1 (2 * session.old.grove.level) platform.old platform.new drawn drawn session.old session.new result }
    ensures leads { P.tells → (device : Device) (array : OpenSession) → IsAt (P.history platform.old).present (Some session.old) (mounted device array)
        → TrimsBlock (P.history platform.new).present session.new device array block result }
    ensures head { P.head platform.new ≡ P.head platform.old }
    // On any pages: why it is answered so.
    ensures any { TrimsAny (P.tells × IsMounted (P.history platform.old).present session.old) (P.history platform.old).present (P.history platform.new).present
        session.old block result }
    // Where it is known that the block isn't mapped, and what a trim makes of the tree.
    ensures known { KnowsUnmapped session.old block → (platform.new ≡ platform.old) × (session.new ≡ session.old) }
    ensures taken { P.tells → IsMounted (P.history platform.old).present session.old
        → OnOk result (HasTaken (P.history platform.old).present.readable (P.history platform.new).present.readable session.old session.new block) }
{
    match session.trim(platform, block) {
        Ok(()) => Ok(()),
        Err(refusal) => Err(stop_of_trim(refusal)),
    }
}

/// The stop that a refused trim comes to, where the device has the block.
fn stop_of_trim(refusal: TrimRefusal) -> DeviceStop
    requires { refusal ≢ TrimRefusal.Range }
    ensures { IsTrimStop refusal result }
{
    match refusal {
        TrimRefusal::Memory => DeviceStop::Memory,
        TrimRefusal::BadRecord { addr } => DeviceStop::BadRecord { addr },
        TrimRefusal::PlatformFault => DeviceStop::Platform,
        TrimRefusal::Range => unreachable!(),
    }
}

ghost use Rattle.std.specs.Prelude.{◌≡◌, ◌≤◌, ◌+◌, ℕ, List, Option, None, IfErr, IfOk, IsErrOf, IsOk};
ghost use Rattle.sdbt_base.specs.Arrays.{State};
ghost use Rattle.platform.specs.Calls.{Looks};
ghost use Rattle.page_store.specs.Reading.{MayLook};
ghost use Rattle.device_course.specs.Keys.{KeepsOn};
ghost use Rattle.device_course.specs.States.{IsAt, IsListed};
ghost use Rattle.sdbt_base.specs.Counts.{counts};
ghost use Rattle.session_calls.specs.Blame.{IsBlamed};
ghost use Rattle.session_calls.specs.Mounts.{IsFound, IsMountStop, MountLeads};

use crate::stops::DeviceStop;
use device_session::{MountRefusal, Session};
use platform::Platform;
use std::alloc::Global;

/// Opens a session on the device, if there is one. It looks at the cell once, and reads no page.
///
/// `nodes` is how many nodes of the tree the session keeps in memory, at most 4,096.
pub fn mount_session<P: Platform>(
    alloc: Global,
    platform: &mut P,
    nodes: usize,
) -> Result<Option<Session>, DeviceStop>
    requires { nodes ≤ 4096 }
    ensures finds { IfOk result (IsFound P.Platform nodes platform.old platform.new) }
    ensures stops { IfErr result (IsMountStop P.tells (P.history platform.old).present.cell (P.head platform.old)) }
    ensures leads { P.tells → (entry : State) → IsAt (P.history platform.old).present None entry → MountLeads (P.history platform.new).present entry result }
    ensures keeps { (drawn : Option (List (List ℕ))) (written : Option (List ℕ)) → KeepsOn P.tells drawn drawn written written None
        (P.history platform.old) (P.history platform.new) (IsOk result) (λ keys. IfOk result (λ found. IsListed found (P.history platform.new).present keys)) }
    ensures blame { IsBlamed (counts (P.faults platform.old) 0 0 0 0) (counts (P.faults platform.new) 0 0 0 0) result }
    ensures looks { Looks P.Platform platform.old platform.new }
    ensures reads { P.tells → MayLook P.Platform platform.old platform.new }
    ensures looked { P.tells → (IsErrOf result DeviceStop.Platform → ⊥) → P.reads platform.new ≡ P.reads platform.old + 1 }
{
    match Session::mount(alloc, platform, nodes) {
        Ok(session) => Ok(Some(session)),
        Err(MountRefusal::NoDevice) => Ok(None),
        Err(MountRefusal::BadRoot) => Err(DeviceStop::BadRoot),
        Err(MountRefusal::PlatformFault) => Err(DeviceStop::Platform),
        Err(MountRefusal::Memory) => Err(DeviceStop::Memory),
    }
}

//! What is looked at before anything is served.
ghost use Rattle.std.specs.Prelude.{◌≡◌, ◌⊎◌, ◌+◌, IfErr, IfOk, OnOk, IsErrOf};
ghost use Rattle.sdbt_base.specs.Faults.{TellsOf};
ghost use Rattle.page_store.specs.Reading.{ReadsCell};
ghost use Rattle.device_terms.specs.Served.{IsServedImage};
ghost use Rattle.session_calls.specs.Cells.{IsInCell};

use crate::stops::DeviceStop;
use page_store::{CurrentRefusal, current};
use platform::Platform;
use root_codec::Root;

/// The root record in the cell, if there is one. Stops at `BadRoot` where the cell is full, and not with one that can be served.
pub fn check_cell<P: Platform>(platform: &mut P) -> Result<Option<Root>, DeviceStop>
    ensures found { P.tells → IfOk result (IsInCell (P.history platform.old).present) }
    ensures served { P.tells → OnOk result (IsServedImage (P.history platform.old).present) }
    ensures bad_root { P.tells → IsErrOf result DeviceStop.BadRoot → IsServedImage (P.history platform.old).present → ⊥ }
    ensures stops { IfErr result (λ stop. (stop ≡ DeviceStop.BadRoot) ⊎ (stop ≡ DeviceStop.Platform)) }
    ensures cause { TellsOf DeviceStop.Platform result (P.faults platform.old) (P.faults platform.new) }
    ensures reads_cell { ReadsCell P.Platform platform.old platform.new }
    ensures once { P.tells → (IsErrOf result DeviceStop.Platform → ⊥) → P.reads platform.new ≡ P.reads platform.old + 1 }
{
    match current(platform) {
        Ok(found) => Ok(found),
        Err(CurrentRefusal::BadRoot) => Err(DeviceStop::BadRoot),
        Err(CurrentRefusal::PlatformFault) => Err(DeviceStop::Platform),
    }
}

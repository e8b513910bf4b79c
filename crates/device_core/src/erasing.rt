ghost use Rattle.std.specs.Prelude.{◌≡◌, ◌≤◌, ℕ, List, Option, None};
ghost use Rattle.platform.specs.Image.{IsEither, LeavesOnly, with_cell};
ghost use Rattle.sdbt_base.specs.Rises.{CountsOnce};
ghost use Rattle.platform.specs.History.{During, Steps, Turns};
ghost use Rattle.sdbt_base.specs.Arrays.{Device};
ghost use Rattle.page_store.specs.Stands.{Stands};
ghost use Rattle.page_store.specs.Kept.{Kept};
ghost use Rattle.page_store.specs.Reading.{MayLookAndChange, ReadsNothing};
ghost use Rattle.page_store.specs.Stands.{IsSound};
ghost use Rattle.page_store.specs.Floors.{Forgets};
ghost use Rattle.device_terms.specs.Served.{IsServedImage};
ghost use Rattle.device_core.specs.Publishing.{IsClearCause, IsEraseCause};

use crate::refusals::EraseRefusal;
use platform::Platform;
use sdbt_base::{PlatformFault, ROOT};

/// Clears the cell: nothing that was on the device can be reached any more.
///
/// `NoDevice` comes exactly where the cell is empty.
pub fn erase<P: Platform>(platform: &mut P) -> Result<(), EraseRefusal>
    ensures cause { IsEraseCause P.Platform platform.old platform.new result }
    // At each moment a loss of power leaves the device, until one from which on it leaves none.
    ensures time { P.tells → (device : Option Device) → Stands (P.history platform.old).present device
        → Turns (P.history platform.old) (P.history platform.new)
        (LeavesOnly (λ left. Stands left device)) (LeavesOnly (λ left. Stands left None)) }
    // The cell is as it was, until a moment from which on it is empty.
    ensures turns { P.tells → Turns (P.history platform.old) (P.history platform.new)
        (λ image. image.cell ≡ (P.history platform.old).present.cell) (λ image. image.cell ≡ None) }

    // Each moment keeps the keys that the image kept before, and what was deleted before stays deleted.
    ensures keeps { P.tells → (keys : List (List ℕ)) → Kept keys (P.history platform.old).present
        → During (P.history platform.old) (P.history platform.new) (Kept keys) }
    ensures forgets { P.tells → IsSound (P.history platform.old).present → Forgets (P.history platform.old) (P.history platform.new) }
    // A cell that can be served is one at each moment.
    ensures serves { P.tells → IsServedImage (P.history platform.old).present
        → During (P.history platform.old) (P.history platform.new) IsServedImage }

    ensures pages { (P.head platform.new ≡ P.head platform.old) × (P.capacity platform.new ≡ P.capacity platform.old)
        × (P.faults platform.old ≤ P.faults platform.new) }
    // The cell is looked at once and cleared once, at most, and no page is read.
    ensures reads { P.tells → MayLookAndChange P.Platform 1 platform.old platform.new }
{
    let mut cell = [0; ROOT];
    match platform.load_root(&mut cell) {
        Ok(true) => {}
        Ok(false) => return Err(EraseRefusal::NoDevice),
        Err(_) => return Err(EraseRefusal::PlatformFault),
    }
    match clear(platform) {
        Ok(()) => Ok(()),
        Err(_) => Err(EraseRefusal::PlatformFault),
    }
}

/// Clears the cell, whatever it holds, without a look at it. Nothing that was on the device can be reached any more.
pub fn clear<P: Platform>(platform: &mut P) -> Result<(), PlatformFault>
    ensures cause { IsClearCause P.Platform platform.old platform.new result }
    ensures once { P.tells → Steps (P.history platform.old) (P.history platform.new)
        × IsEither (P.history platform.old).present (with_cell (P.history platform.old).present None) (P.history platform.new).present }
    // At each moment a loss of power leaves the device, until one from which on it leaves none.
    ensures time { P.tells → (device : Option Device) → Stands (P.history platform.old).present device
        → Turns (P.history platform.old) (P.history platform.new)
        (LeavesOnly (λ left. Stands left device)) (LeavesOnly (λ left. Stands left None)) }
    // The cell is as it was, until a moment from which on it is empty.
    ensures turns { P.tells → Turns (P.history platform.old) (P.history platform.new)
        (λ image. image.cell ≡ (P.history platform.old).present.cell) (λ image. image.cell ≡ None) }

    // Each moment keeps the keys that the image kept before, and what was deleted before stays deleted.
    ensures keeps { P.tells → (keys : List (List ℕ)) → Kept keys (P.history platform.old).present
        → During (P.history platform.old) (P.history platform.new) (Kept keys) }
    ensures forgets { P.tells → IsSound (P.history platform.old).present → Forgets (P.history platform.old) (P.history platform.new) }
    // A cell that can be served is one at each moment.
    ensures serves { P.tells → IsServedImage (P.history platform.old).present
        → During (P.history platform.old) (P.history platform.new) IsServedImage }

    ensures pages { (P.head platform.new ≡ P.head platform.old) × (P.capacity platform.new ≡ P.capacity platform.old)
        × (P.faults platform.old ≤ P.faults platform.new) }
    ensures reads { P.tells → ReadsNothing P.Platform platform.old platform.new }
    ensures changes { P.tells → CountsOnce result (P.changes platform.old) (P.changes platform.new) }
{
    platform.clear_root()
}

//! The last three steps of a format.
ghost use Rattle.std.specs.Prelude.{◌≡◌, ◌≤◌, ◌⊎◌, Some, OnOk, IsOk};
ghost use Rattle.sdbt_base.specs.Counts.{counts};
ghost use Rattle.sdbt_base.specs.Told.{Got, GotPart};
ghost use Rattle.platform.specs.Image.{with_cell, all_synced};
ghost use Rattle.sdbt_base.specs.Rises.{MayRiseBy};
ghost use Rattle.platform.specs.History.{Turns, CellStays};
ghost use Rattle.page_store.specs.Reading.{ReadsNothing};
ghost use Rattle.root_codec.specs.RootRecord.{FitsRoot, root_bytes};
ghost use Rattle.device_terms.specs.Certifying.{PutsSynced};
ghost use Rattle.device_core.specs.Publishing.{IsPublishCause, most_publish};

use platform::Platform;
use root_codec::{Root, encode_root};
use sdbt_base::{ROOT, Sink};

/// Why a root record was not published.
pub(crate) enum PublishFault {
    /// The platform failed.
    Platform,
    /// The ledger failed.
    Ledger,
}

/// Syncs the medium, puts the entry of its certificate to the ledger, and then replaces the root record. The cell is as it was
/// until that one step, before which the entry was put whole.
pub(crate) fn publish<P: Platform, L: Sink>(
    platform: &mut P,
    ledger: &mut L,
    root: &Root,
    entry: &[u8],
) -> Result<(), PublishFault>
    requires { FitsRoot root.now }

    ensures published { P.tells
        → OnOk result ((P.history platform.new).present
        ≡ with_cell (all_synced (P.history platform.old).present) (Some (root_bytes root.now))) }
    ensures time { P.tells → Turns (P.history platform.old) (P.history platform.new)
        (λ image. image.cell ≡ (P.history platform.old).present.cell)
        (λ image. image ≡ with_cell (all_synced (P.history platform.old).present) (Some (root_bytes root.now))) }
    ensures put { (Got (L.written ledger.old) entry.now (L.written ledger.new)
        × (P.tells → ((P.history platform.new).present.cell ≡ Some (root_bytes root.now))
        ⊎ (CellStays (P.history platform.old) (P.history platform.new) × (IsOk result → ⊥))))
        ⊎ (GotPart (L.written ledger.old) entry.now (L.written ledger.new)
        × (P.tells → CellStays (P.history platform.old) (P.history platform.new)) × (IsOk result → ⊥)) }

    ensures synced { PutsSynced P.Platform 0 platform.old platform.new ledger.old ledger.new }
    ensures head { P.head platform.new ≡ P.head platform.old }
    ensures capacity { P.capacity platform.new ≡ P.capacity platform.old }
    ensures reads { P.tells → ReadsNothing P.Platform platform.old platform.new
        × MayRiseBy (most_publish result) (P.changes platform.old) (P.changes platform.new) }
    ensures faults { P.faults platform.old ≤ P.faults platform.new }
    ensures ledger_faults { L.faults ledger.old ≤ L.faults ledger.new }
    ensures cause { IsPublishCause (P.tells → CellStays (P.history platform.old) (P.history platform.new))
        (counts (P.faults platform.old) 0 0 0 (L.faults ledger.old)) (counts (P.faults platform.new) 0 0 0 (L.faults ledger.new)) result }
{
    let mut bytes = [0; ROOT];
    encode_root(root, &mut bytes);
    let Ok(()) = platform.sync() else {
        return Err(PublishFault::Platform);
    };
    let Ok(()) = ledger.put(entry) else {
        return Err(PublishFault::Ledger);
    };
    match platform.swap_root(&bytes) {
        Ok(()) => Ok(()),
        Err(_) => Err(PublishFault::Platform),
    }
}

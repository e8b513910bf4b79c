ghost use Rattle.std.specs.Prelude.{◌≡◌, ◌≢◌, ◌≤◌, ◌⊎◌, ◌%◌, ◌∷◌, [], ℕ, List, Option, None, Some, OnOk, OnErr, IsOk, IsErrOf, ⊤};
ghost use Rattle.sdbt_base.specs.Counts.{counts};
ghost use Rattle.platform.specs.Image.{LeavesOnly};
ghost use Rattle.platform.specs.Calls.{Grows};
ghost use Rattle.platform.specs.History.{Turns, CellStays};
ghost use Rattle.sdbt_base.specs.Arrays.{Device, new_device};
ghost use Rattle.page_store.specs.Keeping.{DrewAll};
ghost use Rattle.page_store.specs.Reading.{MayLookAndChange};
ghost use Rattle.page_store.specs.Stands.{Stands, IsSound};
ghost use Rattle.root_codec.specs.declared.root.Root.{Root};
ghost use Rattle.root_codec.specs.RootRecord.{root_bytes};
ghost use Rattle.device_terms.specs.Served.{IsServedImage};
ghost use Rattle.device_terms.specs.Effects.{ChangesBehind, Discloses, NamesLast};
ghost use Rattle.device_terms.specs.Certifying.{Certifies, PutsSynced};
ghost use Rattle.device_core.specs.Certifying.{IsOfFormat};
ghost use Rattle.device_core.specs.Publishing.{IsFormatCause, most_format};

use crate::certifying::first_entry;
use crate::publishing::{PublishFault, publish};
use crate::refusals::FormatRefusal;
use page_store::{AppendFault, Buffers};
use platform::Platform;
use root_codec::Root;
use sdbt_base::{ROOT, Sink, Tape};
use std::alloc::Global;

/// The version of a new device.
const VERSION: u8 = 1;

/// Makes a device of `blocks` blocks, none of them mapped, where the cell is empty: one empty leaf, and
/// then the root record that names it.
///
/// `NotEmpty` comes exactly where the cell is full, and else `Full` exactly where no page is free. The ledger gets one entry,
/// in one put, before the root record is written.
pub fn format<P: Platform, T: Tape, L: Sink>(
    alloc: Global,
    platform: &mut P,
    tape: &mut T,
    ledger: &mut L,
    blocks: u64,
    order: u16,
) -> Result<(), FormatRefusal>
    requires sized { (1 ≤ blocks) × (blocks ≤ 1048576) }
    requires ordered { (4 ≤ order) × (order ≤ 64) × (order % 2 ≡ 0) }

    // The new root record names the page and the key of this call.
    ensures made { P.tells → OnOk result (Stands (P.history platform.new).present (Some (new_device blocks order))
        × IsServedImage (P.history platform.new).present
        × ((root : Root) × ((P.history platform.new).present.cell ≡ Some (root_bytes root))
        × NamesLast (T.drawn tape.old) (T.drawn tape.new) (P.head platform.new) root)) }
    // The cell is looked at once at most, no page is read, and no key drawn but that of the leaf; all is synced and the cell replaced
    // once at most, and neither where it is refused before.
    ensures spends { (P.tells → MayLookAndChange P.Platform (most_format result) platform.old platform.new)
        × OnOk result ((key : List ℕ) × DrewAll (T.drawn tape.old) (key ∷ []) (T.drawn tape.new)) }
    ensures cause { IsFormatCause P.Platform T.Tape platform.old platform.new tape.old tape.new
        (counts (P.faults platform.old) (T.faults tape.old) 0 0 (L.faults ledger.old))
        (counts (P.faults platform.new) (T.faults tape.new) 0 0 (L.faults ledger.new)) result }
    // Where there is a device already, or no page is free, nothing is drawn and the cell is as it was at each moment, whatever the answer.
    ensures kept { P.tells → ((P.history platform.old).present.cell ≢ None) ⊎ (P.head platform.old ≡ P.capacity platform.old)
        → (tape.new ≡ tape.old) × CellStays (P.history platform.old) (P.history platform.new) }
    ensures undrawn { OnErr result (IsErrOf result FormatRefusal.PlatformFault ⊎ (IsErrOf result FormatRefusal.LedgerFault
        ⊎ ((T.drawn tape.new ≡ T.drawn tape.old) × (L.written ledger.new ≡ L.written ledger.old)))) }
    // At each moment a loss of power leaves what there was before, until one from which on it leaves the new device.
    ensures time { P.tells → (device : Option Device) → Stands (P.history platform.old).present device
        → Turns (P.history platform.old) (P.history platform.new)
        (LeavesOnly (λ left. Stands left device)) (LeavesOnly (λ left. Stands left (Some (new_device blocks order)))) }
    ensures discloses { Discloses P.tells (T.drawn tape.old) (T.drawn tape.new) (P.history platform.old) (P.history platform.new)
        (λ keys. IsSound (P.history platform.old).present) (λ keys. ⊤) }
    ensures certifies { Certifies P.tells (L.written ledger.old) (L.written ledger.new) (P.history platform.old) (P.history platform.new)
        (P.head platform.old) 0 (IsOfFormat (P.history platform.old).present (P.history platform.new).present) (IsOk result) }
    // The leaf's page was added, and all pages outlast a loss of power, before the ledger gets the entry.
    ensures synced { PutsSynced P.Platform 1 platform.old platform.new ledger.old ledger.new }
    ensures grows { Grows P.Platform platform.old platform.new × (T.faults tape.old ≤ T.faults tape.new)
        × (L.faults ledger.old ≤ L.faults ledger.new) × ChangesBehind P.Platform 1 platform.old platform.new }
{
    let mut cell = [0; ROOT];
    let Ok(is_full) = platform.load_root(&mut cell) else {
        return Err(FormatRefusal::PlatformFault);
    };
    if is_full {
        return Err(FormatRefusal::NotEmpty);
    }
    if platform.head() == platform.capacity() {
        return Err(FormatRefusal::Full);
    }
    let Ok(mut buffers) = Buffers::new(alloc) else {
        return Err(FormatRefusal::Memory);
    };
    let addr = platform.head();
    let Ok(entry) = first_entry(alloc, addr) else {
        return Err(FormatRefusal::Memory);
    };
    buffers.put_node(addr, 1, VERSION, &[]);
    let placed = match buffers.append(platform, tape, VERSION) {
        Ok(placed) => placed,
        Err(AppendFault::TapeFault) => return Err(FormatRefusal::TapeFault),
        Err(AppendFault::PlatformFault) => return Err(FormatRefusal::PlatformFault),
    };
    let root = Root {
        version: VERSION,
        order,
        level: 1,
        blocks,
        commit: 0,
        addr: placed.addr,
        key: placed.key,
        mapped: 0,
        head: placed.addr + 1,
    };
    match publish(platform, ledger, &root, entry.bytes()) {
        Ok(()) => Ok(()),
        Err(PublishFault::Ledger) => Err(FormatRefusal::LedgerFault),
        Err(PublishFault::Platform) => Err(FormatRefusal::PlatformFault),
    }
}

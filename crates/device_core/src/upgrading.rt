//! Devices of version 2, whose pages can't be changed unseen.
ghost use Rattle.std.specs.Prelude.{◌≡◌, ◌≤◌, ◌⊎◌, Option, Some, OnErr, IsErrOf, IfOk, IsOk, ⊤};
ghost use Rattle.std.specs.Option.{option_map};
ghost use Rattle.sdbt_base.specs.Counts.{counts};
ghost use Rattle.sdbt_base.specs.Arrays.{Device, upgraded};
ghost use Rattle.platform.specs.Image.{LeavesOnly};
ghost use Rattle.platform.specs.History.{Turns};
ghost use Rattle.page_store.specs.Stands.{Stands, IsSound};
ghost use Rattle.device_terms.specs.Effects.{Discloses};
ghost use Rattle.device_core.specs.Upgrading.{CertifiesUpgrade, IsUpgradeCause, PutsUpgrade, SpendsUpgrade, StandsFrom};

use crate::preparing::prepare;
use crate::publishing::publish;
use crate::refusals::UpgradeRefusal;
use crate::rewriting::rewrite;
use crate::surveying::begin;
use platform::Platform;
use sdbt_base::{Sink, Tape};
use std::alloc::Global;

/// Makes the device one of version 2: each record is sealed anew, under a key of its own, first the data records in order of their blocks and
/// then nodes over them, and the new root record names the digest of its root node's page, as each node does of its children's. Answers the number of this
/// commit. No session may be open on the device.
///
/// `NoDevice`, `BadRoot`, `AlreadyUpgraded` and `Full` come in this order, each exactly where the root record says so; all memory is taken behind
/// that and before the first key is drawn. Then the nodes are met, each before those below it; their number of entries, for which the root node's address
/// is named; and the data records in order of blocks. The ledger gets one entry, in one put, before the root record is replaced.
pub fn upgrade<P: Platform, T: Tape, L: Sink>(
    alloc: Global,
    platform: &mut P,
    tape: &mut T,
    ledger: &mut L,
) -> Result<u64, UpgradeRefusal>
    // Over an image that stands: the new tree has no page of the old one, since all of its pages came in this call.
    ensures made { P.tells → (device : Device) → Stands (P.history platform.old).present (Some device)
        → IfOk result (λ number. (number ≡ (upgraded device).number) × StandsFrom (P.head platform.old) (Some (upgraded device)) (P.history platform.new).present) }
    ensures cause { IsUpgradeCause P.Platform T.Tape platform.old platform.new tape.old tape.new
        (counts (P.faults platform.old) (T.faults tape.old) 0 0 (L.faults ledger.old))
        (counts (P.faults platform.new) (T.faults tape.new) 0 0 (L.faults ledger.new)) result }
    ensures unput { OnErr result (IsErrOf result UpgradeRefusal.PlatformFault ⊎ (IsErrOf result UpgradeRefusal.LedgerFault
        ⊎ (L.written ledger.new ≡ L.written ledger.old))) }
    // At each moment a loss of power leaves the device as it was, until one from which on it leaves the new one.
    ensures time { P.tells → (device : Option Device) → Stands (P.history platform.old).present device
        → Turns (P.history platform.old) (P.history platform.new)
        (LeavesOnly (λ left. Stands left device)) (LeavesOnly (StandsFrom (P.head platform.old) (option_map upgraded device))) }
    // Below the old root record's head the new tree has only places of the old one, and what was deleted before stays deleted.
    ensures discloses { Discloses P.tells (T.drawn tape.old) (T.drawn tape.new) (P.history platform.old) (P.history platform.new)
        (λ keys. IsSound (P.history platform.old).present) (λ keys. ⊤) }
    ensures certifies { CertifiesUpgrade P.tells (L.written ledger.old) (L.written ledger.new) (P.history platform.old) (P.history platform.new) (IsOk result) }
    // All pages that it needs are added, and outlast a loss of power, before the ledger gets the entry.
    ensures synced { PutsUpgrade P.Platform platform.old platform.new ledger.old ledger.new }
    // It draws a key for each page that it adds and no other one, and looks at the cell once, and reads the nodes of the tree twice and the data records once. Where it
    // is refused before the first key, too, it has read no node more than twice, and none twice where the first walk was cut short.
    ensures spends { SpendsUpgrade P.Platform T.Tape platform.old platform.new tape.old tape.new (IsOk result) }
    ensures grows { (P.head platform.old ≤ P.head platform.new) × (P.capacity platform.new ≡ P.capacity platform.old)
        × (P.faults platform.old ≤ P.faults platform.new) × (T.faults tape.old ≤ T.faults tape.new) × (L.faults ledger.old ≤ L.faults ledger.new) }
{
    let root = begin(platform)?;
    let mut prepared = prepare(alloc, platform, &root)?;
    let next = rewrite(&root, &mut prepared, platform, tape)?;
    publish(platform, ledger, &next, prepared.line.bytes())?;
    Ok(next.commit)
}

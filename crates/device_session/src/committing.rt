ghost use Rattle.std.specs.Prelude.{◌≡◌, ◌<◌, ◌≤◌, ◌-◌, Some, true, false, IfOk, OnOk, IsOk};
ghost use Rattle.sdbt_base.specs.Counts.{counts};
ghost use Rattle.platform.specs.Image.{with_cell};
ghost use Rattle.platform.specs.History.{Turns, CellStays};
ghost use Rattle.root_codec.specs.RootRecord.{FitsRoot, root_bytes};
ghost use Rattle.shadow_commit.specs.Finishing.{Swaps};
ghost use Rattle.device_session.specs.Finishing.{PutsLine, IsPublishCause, TakesUp};
ghost use Rattle.device_session.specs.Publishing.{Commits, HasRaised};

use crate::refusals::{CommitFault, CommitReply};
use crate::session::Session;
use btree_update::Grove;
use platform::Platform;
use root_codec::Root;
use sdbt_base::{Sink, Tape};
use shadow_commit::{CommitRefusal, Prepared, prepare};

impl Session {
    ghost use Rattle.device_session.specs.Open.{IsOpen, number_of, root_of, is_touched, needed_by};
    ghost use Rattle.device_session.specs.Damage.{Follows};

    /// Makes the session's changes the device's: the changed nodes on new pages, their certificate, and then the root record that
    /// names the new tree.
    ///
    /// Without changes since the mount or the last commit it answers the present number and calls nothing.
    /// Else `Full` comes exactly where fewer pages are free than nodes are in memory, and the session is then as before. A fault ends
    /// the session: the device is the one from before, or, where the last step failed, that one or the one
    /// after. The ledger gets one entry, in one put, before the root record is replaced. The cache has then what it had but for the
    /// nodes that are gone, and the new nodes as the most recent ones.
    pub fn commit<P: Platform, T: Tape, L: Sink>(
        &mut self,
        platform: &mut P,
        tape: &mut T,
        ledger: &mut L,
    ) -> Result<CommitReply, CommitFault>
        requires { IsOpen self.old (P.head platform.old) }
        ensures idle { is_touched self.old ≡ false → (self.new ≡ self.old) × (platform.new ≡ platform.old) × (tape.new ≡ tape.old)
            × (ledger.new ≡ ledger.old) × IfOk result (λ reply. reply ≡ CommitReply.Committed (number_of self.old)) × IsOk result }
        ensures full { is_touched self.old ≡ true → P.capacity platform.old - P.head platform.old < needed_by self.old → (self.new ≡ self.old)
            × (platform.new ≡ platform.old) × (tape.new ≡ tape.old) × (ledger.new ≡ ledger.old)
            × IfOk result (λ reply. reply ≡ CommitReply.Full (needed_by self.old) (P.capacity platform.old - P.head platform.old)) × IsOk result }
        ensures raised { is_touched self.old ≡ true → needed_by self.old ≤ P.capacity platform.old - P.head platform.old
            → IfOk result (HasRaised P.Platform T.Tape platform.old platform.new tape.old tape.new self.old self.new) }
        ensures commits { Commits P.Platform T.Tape L.Sink platform.old platform.new tape.old tape.new ledger.old ledger.new self.old self.new result }
        // On any image: the session follows the pages still, and one on the root record in the cell stays on it.
        ensures mounted { P.tells → OnOk result (
            (Follows self.old (P.history platform.old).present → Follows self.new (P.history platform.new).present)
            × ((P.history platform.old).present.cell ≡ Some (root_bytes (root_of self.old))
            → (P.history platform.new).present.cell ≡ Some (root_bytes (root_of self.new)))) }
    {
        if !self.is_touched {
            let number = self.root.commit;
            return Ok(CommitReply::Committed { number });
        }
        let prepared = match prepare(
            self.alloc,
            &self.grove,
            &self.root,
            self.mapped,
            platform,
            tape,
            &mut self.reader,
        ) {
            Ok(prepared) => prepared,
            Err(CommitRefusal::Full { needed, free }) => {
                return Ok(CommitReply::Full { needed, free });
            }
            Err(CommitRefusal::Memory) => return Err(CommitFault::Memory),
            Err(CommitRefusal::TapeFault) => return Err(CommitFault::TapeFault),
            Err(CommitRefusal::PlatformFault) => return Err(CommitFault::PlatformFault),
        };
        let root = publish(platform, ledger, prepared)?;
        let number = root.commit;
        self.take_up(root);
        Ok(CommitReply::Committed { number })
    }

    /// Goes on with the tree of a root record that was just put into the cell: no node is in memory then, and none that is gone in
    /// the cache.
    fn take_up(&mut self, root: Root)
        requires { FitsRoot root }
        ensures { TakesUp self.old self.old.cache root self.new }
    {
        self.reader.cache.forget_all(self.grove.gone());
        self.grove.wipe();
        self.grove = Grove::of(self.alloc, &root);
        self.root = root;
        self.is_touched = false;
        self.reader.wipe();
    }
}

/// Puts the line of a commit's certificate to the ledger and then replaces the root record. The cell is as it was until that one
/// step, before which the line was put whole.
fn publish<P: Platform, L: Sink>(
    platform: &mut P,
    ledger: &mut L,
    prepared: Prepared,
) -> Result<Root, CommitFault>
    requires { FitsRoot prepared.root }
    ensures root { IfOk result (λ root. root ≡ prepared.root) }
    ensures swapped { P.tells → OnOk result ((P.history platform.new).present
        ≡ with_cell (P.history platform.old).present (Some (root_bytes prepared.root))) }
    ensures time { P.tells → Turns (P.history platform.old) (P.history platform.new) (λ image. image.cell ≡ (P.history platform.old).present.cell)
        (λ image. image ≡ with_cell (P.history platform.old).present (Some (root_bytes prepared.root))) }
    ensures put { PutsLine P.tells (L.written ledger.old) (L.written ledger.new) (P.history platform.old) (P.history platform.new)
        prepared.line prepared.root (IsOk result) }
    ensures beside { Swaps P.Platform platform.old platform.new }
    ensures count { L.faults ledger.old ≤ L.faults ledger.new }
    ensures cause { IsPublishCause (P.tells → CellStays (P.history platform.old) (P.history platform.new) × (P.changes platform.new ≡ P.changes platform.old))
        (counts (P.faults platform.old) 0 0 0 (L.faults ledger.old)) (counts (P.faults platform.new) 0 0 0 (L.faults ledger.new)) result }
{
    let Ok(()) = ledger.put(prepared.line()) else {
        prepared.abandon();
        return Err(CommitFault::LedgerFault);
    };
    Ok(prepared.finish(platform)?)
}

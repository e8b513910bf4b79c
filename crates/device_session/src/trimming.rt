ghost use Rattle.std.specs.Prelude.{◌≡◌, ◌+◌, ◌*◌, ◌<◌, ◌≤◌, ℕ, OnOk, IsErrOf};
ghost use Rattle.sdbt_base.specs.Arrays.{Device, Blocks};
ghost use Rattle.platform.specs.Calls.{Looks};
ghost use Rattle.btree_walk.specs.Sights.{StandsOver};
ghost use Rattle.btree_update.specs.Groves.{KeepsTree};
ghost use Rattle.device_session.specs.Causes.{IsTrimCause};
ghost use Rattle.device_session.specs.Changes.{Trims};

use crate::refusals::TrimRefusal;
use crate::session::Session;
use btree_update::ReadyRefusal;
use platform::Platform;

impl Session {
    ghost use Rattle.device_session.specs.Open.{IsOpen, blocks_of, is_touched};
    ghost use Rattle.device_session.specs.Holds.{Holds};
    ghost use Rattle.device_session.specs.Damage.{IsTrimMisfit, IsTrimDamage, NamesDamage, HasTaken};
    ghost use Rattle.device_session.specs.Going.{GoesOn, Updates};
    ghost use Rattle.device_session.specs.Keys.{StaysListed};
    ghost use Rattle.device_session.specs.Reading.{TrimsFew};

    /// Unmaps a block, which then reads as zeros. One that is not mapped stays so, and nothing is touched: where the nodes in memory
    /// and the cache say so, that is answered at once, and nothing is read or brought into memory.
    ///
    /// `Range` comes exactly where the device has no such block. `BadRecord` never comes on a sound device;
    /// on a forged one it names a node on the way to the block, or beside it, that does not fit, or the root
    /// node where the root record says that no block is mapped. It reads two pages for each level at most.
    #[tactic(auto, using(crate::proofs::SessionLaws::walk_looks, platform::proofs::CallLaws::looks_start, platform::proofs::CallLaws::looks_call, platform::proofs::CallLaws::looks_then))]
    pub fn trim<P: Platform>(&mut self, platform: &mut P, block: u64) -> Result<(), TrimRefusal>
        requires { IsOpen self.old (P.head platform.old) }
        ensures array { P.tells → (device : Device) (contents : Blocks) → Holds self.old (P.history platform.old).present device contents
            → Trims (P.history platform.new).present device contents block self.old self.new result }
        // On any pages: what is named is a node that doesn't fit, or the root node, where a block is mapped and none is counted; and behind a
        // trim no look-up finds the block, each other one comes to what it came to, and one is counted less where the block was mapped.
        ensures damaged { P.tells → (addr : ℕ) → IsErrOf result (TrimRefusal.BadRecord addr)
            → NamesDamage (P.history platform.old).present (P.history platform.new).present self.old addr
            (IsTrimMisfit (P.history platform.old).present.readable self.old block addr) (IsTrimDamage (P.history platform.old).present.readable self.old block addr) }
        ensures taken { P.tells → StandsOver (P.history platform.old).present.readable self.old.cache
            → OnOk result (HasTaken (P.history platform.old).present.readable (P.history platform.new).present.readable self.old self.new block) }
        ensures goes_on { GoesOn P.tells (P.history platform.old).present (P.history platform.new).present (P.head platform.new) self.old self.new }
        ensures updates { Updates self.old self.new result }
        // Where no block is counted less, nothing is touched.
        ensures idle { self.new.mapped ≡ self.old.mapped → (is_touched self.new ≡ is_touched self.old) × KeepsTree self.old.grove self.new.grove }
        ensures listed { P.tells → StaysListed (P.history platform.old).present (P.history platform.new).present self.old self.new }
        ensures looks { Looks P.Platform platform.old platform.new }
        ensures reads { TrimsFew P.Platform block platform.old platform.new self.old self.new }
        ensures cause { IsTrimCause block (blocks_of self.old) (P.faults platform.old) (P.faults platform.new) result }
    {
        if block >= self.root.blocks {
            return Err(TrimRefusal::Range);
        }
        if self.grove.lacks(block, &self.reader.cache) {
            return Ok(());
        }
        let is_mapped = match self.ready(platform, block) {
            Ok(is_mapped) => is_mapped,
            Err(ReadyRefusal::BadRecord { addr }) => return Err(TrimRefusal::BadRecord { addr }),
            Err(ReadyRefusal::PlatformFault) => return Err(TrimRefusal::PlatformFault),
            Err(ReadyRefusal::Memory) => return Err(TrimRefusal::Memory),
        };
        if !is_mapped {
            return Ok(());
        }
        if self.mapped == 0 {
            return Err(TrimRefusal::BadRecord {
                addr: self.root.addr,
            });
        }
        self.grove.remove(block);
        self.mapped -= 1;
        self.is_touched = true;
        Ok(())
    }
}

ghost use Rattle.std.specs.Prelude.{◌≡◌, ◌<◌, ◌*◌, ℕ, IfOk, IsErrOf, IsTrue};
ghost use Rattle.sdbt_base.specs.Faults.{TellsOf};
ghost use Rattle.sdbt_base.specs.Arrays.{Device, Blocks};
ghost use Rattle.btree_walk.specs.Looks.{Looks};
ghost use Rattle.btree_walk.specs.Sights.{StandsOver};
ghost use Rattle.btree_update.specs.Groves.{CanInsert, CanRemove, KeepsTree};
ghost use Rattle.device_session.specs.Ready.{Readies};

use crate::session::Session;
use btree_update::ReadyRefusal;
use platform::Platform;

impl Session {
    ghost use Rattle.device_session.specs.Open.{IsOpen, blocks_of};
    ghost use Rattle.device_session.specs.Holds.{Holds};
    ghost use Rattle.device_session.specs.Keys.{StaysListed};
    ghost use Rattle.device_session.specs.Going.{GoesOn};

    /// Brings into memory, beside the tree, what an update of a block may need, and answers whether the block is mapped. The
    /// array is the same. `BadRecord` never comes on a sound device; on a forged one it names a node on the way to the block, or
    /// beside it, that does not fit.
    pub(crate) fn ready<P: Platform>(
        &mut self,
        platform: &mut P,
        block: u64,
    ) -> Result<bool, ReadyRefusal>
        requires open { IsOpen self.old (P.head platform.old) }
        requires to { block < blocks_of self.old }
        ensures goes_on { GoesOn P.tells (P.history platform.old).present (P.history platform.new).present (P.head platform.new) self.old self.new }
        ensures same { (self.new.mapped ≡ self.old.mapped) × (self.new.is_touched ≡ self.old.is_touched) × KeepsTree self.old.grove self.new.grove }
        ensures holds { P.tells → (device : Device) (contents : Blocks) → Holds self.old (P.history platform.old).present device contents
            → Holds self.new (P.history platform.new).present device contents × ((addr : ℕ) → ¬ (IsErrOf result (ReadyRefusal.BadRecord addr))) }
        ensures listed { P.tells → StaysListed (P.history platform.old).present (P.history platform.new).present self.old self.new }
        ensures can { IfOk result (λ mapped. CanInsert block self.new.grove × (IsTrue mapped → CanRemove block self.new.grove)) }
        ensures ready { P.tells → StandsOver (P.history platform.old).present.readable self.old.cache
            → Readies (P.history platform.old).present.readable (P.history platform.new).present.readable block self.old self.new result }
        ensures looks { Looks P.Platform (2 * self.old.grove.level) platform.old platform.new }
        ensures cause { TellsOf ReadyRefusal.PlatformFault result (P.faults platform.old) (P.faults platform.new) }
    {
        self.grove
            .ready(self.alloc, block, platform, &mut self.reader)
    }
}

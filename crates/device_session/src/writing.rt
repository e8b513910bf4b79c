ghost use Rattle.std.specs.Prelude.{◌≡◌, ◌⊎◌, ◌*◌, ◌<◌, ◌≤◌, ℕ, true, All, IsTrue, OnOk, IsErrOf, length};
ghost use Rattle.std.specs.Bool.{OnFalse};
ghost use Rattle.sdbt_base.specs.Counts.{counts};
ghost use Rattle.sdbt_base.specs.Arrays.{padded, Device, Blocks};
ghost use Rattle.page_store.specs.Keeping.{KeepsKeys};
ghost use Rattle.btree_walk.specs.Sights.{StandsOver};
ghost use Rattle.btree_update.specs.Groves.{CanInsert, CanRemove, places_of};
ghost use Rattle.device_session.specs.Causes.{IsWriteCause, IsPutCause};
ghost use Rattle.device_session.specs.Changes.{Writes, WriteAdds, WriteGrows};
ghost use Rattle.device_session.specs.Ready.{IsReadyFor, counted_with};

use crate::refusals::WriteRefusal;
use crate::session::Session;
use btree_update::ReadyRefusal;
use page_store::AppendFault;
use platform::Platform;
use sdbt_base::Tape;

impl Session {
    ghost use Rattle.device_session.specs.Open.{IsOpen, blocks_of, is_touched};
    ghost use Rattle.device_session.specs.Holds.{Holds};
    ghost use Rattle.device_session.specs.Damage.{IsWriteMisfit, IsWriteDamage, NamesDamage, IsFound, IsAtLimit, HasRoom, HasPut, LeavesPut};
    ghost use Rattle.device_session.specs.Going.{GoesOn, Updates};
    ghost use Rattle.device_session.specs.Keys.{HoldsListed};

    /// Writes a block: at most 4,096 bytes, and zeros up to its end. It is the session's alone until a commit.
    ///
    /// `Range` comes exactly where the device has no such block, and else `Full` exactly where no page is
    /// free. `BadRecord` never comes on a sound device; on a forged one it names a node on the way to the block, or
    /// beside it, that does not fit, or the root node where a block more would be mapped than there are or than its
    /// level allows. It reads two pages for each level at most.
    pub fn write<P: Platform, T: Tape>(
        &mut self,
        platform: &mut P,
        tape: &mut T,
        block: u64,
        content: &[u8],
    ) -> Result<(), WriteRefusal>
        requires size { length content.now ≤ 4096 }
        requires open { IsOpen self.old (P.head platform.old) }
        ensures array { P.tells → (device : Device) (contents : Blocks) → Holds self.old (P.history platform.old).present device contents
            → Writes (P.history platform.new).present device contents block (P.head platform.old) (padded content.now) self.old self.new result }
        // On any pages: what is named is a node that doesn't fit, or the root node, where the block isn't mapped and no more can be; a
        // block is written where it is mapped, or another one can be, which is counted then; and behind a write a look-up of it comes to
        // the content, and each other one to what it came to.
        ensures damaged { P.tells → (addr : ℕ) → IsErrOf result (WriteRefusal.BadRecord addr)
            → NamesDamage (P.history platform.old).present (P.history platform.new).present self.old addr
            (IsWriteMisfit (P.history platform.old).present.readable self.old block addr) (IsWriteDamage (P.history platform.old).present.readable self.old block addr) }
        ensures written { P.tells → StandsOver (P.history platform.old).present.readable self.old.cache
            → OnOk result (HasPut (P.history platform.old).present.readable (P.history platform.new).present.readable self.old self.new block (padded content.now))
            × (IsErrOf result WriteRefusal.TapeFault → IsFound true (P.history platform.old).present.readable self.old block ⊎ HasRoom self.old) }
        ensures goes_on { GoesOn P.tells (P.history platform.old).present (P.history platform.new).present (P.head platform.new) self.old self.new }
        ensures touched { OnOk result (is_touched self.new ≡ true) }
        ensures updates { Updates self.old self.new result }
        // Each moment keeps the keys that the image kept before, with the one that was drawn.
        ensures keeps { KeepsKeys P.tells (T.drawn tape.old) (T.drawn tape.new) (P.history platform.old) (P.history platform.new)
            (HoldsListed self.old (P.history platform.old).present) (HoldsListed self.new (P.history platform.new).present) }
        ensures adds { WriteAdds P.Platform T.Tape platform.old platform.new tape.old tape.new (places_of self.new.grove) block result }
        ensures cause { IsWriteCause block (blocks_of self.old) (P.head platform.old) (P.capacity platform.old)
            (counts (P.faults platform.old) (T.faults tape.old) 0 0 0) (counts (P.faults platform.new) (T.faults tape.new) 0 0 0) result }
        ensures grows { WriteGrows P.Platform T.Tape (2 * self.old.grove.level) platform.old platform.new tape.old tape.new }
    {
        if block >= self.root.blocks {
            return Err(WriteRefusal::Range);
        }
        if platform.head() == platform.capacity() {
            return Err(WriteRefusal::Full);
        }
        let is_mapped = match self.ready(platform, block) {
            Ok(is_mapped) => is_mapped,
            Err(ReadyRefusal::BadRecord { addr }) => return Err(WriteRefusal::BadRecord { addr }),
            Err(ReadyRefusal::PlatformFault) => return Err(WriteRefusal::PlatformFault),
            Err(ReadyRefusal::Memory) => return Err(WriteRefusal::Memory),
        };
        if !is_mapped && self.is_at_limit() {
            return Err(WriteRefusal::BadRecord {
                addr: self.root.addr,
            });
        }
        self.put(platform, tape, block, content, is_mapped)
    }

    /// Whether no block more can be mapped: there are as many as the device has, or the tree has as many levels as it may.
    fn is_at_limit(&self) -> bool
        ensures full { IsTrue result → IsAtLimit self.now }
        ensures room { OnFalse result (HasRoom self.now) }
    {
        self.mapped >= self.root.blocks || self.grove.level() >= 20
    }

    /// Appends a block's data record and puts it into the tree, where all is at hand that this may need.
    fn put<P: Platform, T: Tape>(
        &mut self,
        platform: &mut P,
        tape: &mut T,
        block: u64,
        content: &[u8],
        is_mapped: bool,
    ) -> Result<(), WriteRefusal>
        requires size { length content.now ≤ 4096 }
        requires open { IsOpen self.old (P.head platform.old) }
        requires room { (block < blocks_of self.old) × (P.head platform.old < P.capacity platform.old) }
        requires can { CanInsert block self.old.grove × (IsTrue is_mapped → CanRemove block self.old.grove) }
        requires limit { OnFalse is_mapped (HasRoom self.old) }
        ensures array { P.tells → (device : Device) (contents : Blocks) → Holds self.old (P.history platform.old).present device contents
            → IsReadyFor (P.history platform.old).present.readable block self.old.grove is_mapped
            → Writes (P.history platform.new).present device contents block (P.head platform.old) (padded content.now) self.old self.new result }
        ensures goes_on { GoesOn (P.tells × IsReadyFor (P.history platform.old).present.readable block self.old.grove is_mapped)
            (P.history platform.old).present (P.history platform.new).present (P.head platform.new) self.old self.new }
        ensures touched { OnOk result (is_touched self.new ≡ true) }
        ensures counts { OnOk result (self.new.mapped ≡ counted_with is_mapped self.old.mapped) }
        ensures updates { Updates self.old self.new result }
        ensures keeps { KeepsKeys P.tells (T.drawn tape.old) (T.drawn tape.new) (P.history platform.old) (P.history platform.new)
            (λ keys. HoldsListed self.old (P.history platform.old).present keys × IsReadyFor (P.history platform.old).present.readable block self.old.grove is_mapped)
            (HoldsListed self.new (P.history platform.new).present) }
        ensures adds { WriteAdds P.Platform T.Tape platform.old platform.new tape.old tape.new (places_of self.new.grove) block result }
        ensures cause { IsPutCause (counts (P.faults platform.old) (T.faults tape.old) 0 0 0) (counts (P.faults platform.new) (T.faults tape.new) 0 0 0) result }
        ensures grows { WriteGrows P.Platform T.Tape 0 platform.old platform.new tape.old tape.new }
        ensures left { P.tells → IsReadyFor (P.history platform.old).present.readable block self.old.grove is_mapped
            → OnOk result (LeavesPut (P.history platform.old).present.readable (P.history platform.new).present.readable self.old self.new block (padded content.now)) }
    {
        are_bytes(content);
        let addr = platform.head();
        self.reader.buffers.put_block(addr, block, content);
        let version = self.root.version;
        let placed = match self.reader.buffers.append(platform, tape, version) {
            Ok(placed) => placed,
            Err(AppendFault::TapeFault) => return Err(WriteRefusal::TapeFault),
            Err(AppendFault::PlatformFault) => return Err(WriteRefusal::PlatformFault),
        };
        self.grove.insert(block, placed.addr, placed.key);
        self.mapped = count_with(self.mapped, is_mapped);
        self.is_touched = true;
        Ok(())
    }
}

/// How many blocks are mapped with one that was mapped, or wasn't.
fn count_with(mapped: u64, is_mapped: bool) -> u64
    requires { OnFalse is_mapped (mapped < 1048576) }
    ensures { result ≡ counted_with is_mapped mapped }
{
    if is_mapped { mapped } else { mapped + 1 }
}

/// A fact: each is below 256.
fn are_bytes(bytes: &[u8])
    ensures { All (λ b. b < 256) bytes.now }
{}

ghost use Rattle.std.specs.Prelude.{◌≡◌, ◌⊎◌, ◌<◌, ◌≤◌, ◌+◌, ℕ, OnOk, OnErr, IsErrOf, length};
ghost use Rattle.sdbt_base.specs.Faults.{TellsOf};
ghost use Rattle.sdbt_base.specs.Arrays.{Device, Blocks, content_of};
ghost use Rattle.platform.specs.Image.{Image};
ghost use Rattle.platform.specs.Calls.{Looks};
ghost use Rattle.node_codec.specs.Record.{DataRecord};
ghost use Rattle.page_store.specs.Places.{NothingFits, FitsAt, block_want};
ghost use Rattle.page_store.specs.Tree.{Wrong};
ghost use Rattle.btree_walk.specs.Sights.{StandsOver};
ghost use Rattle.device_session.specs.Causes.{IsReadCause};

use crate::refusals::ReadRefusal;
use crate::session::Session;
use node_codec::Entry;
use page_store::{Buffers, FetchRefusal, Want, fetch_block};
use platform::Platform;

impl Session {
    ghost use Rattle.device_session.specs.Open.{IsOpen, blocks_of, root_of};
    ghost use Rattle.device_session.specs.Holds.{Holds};
    ghost use Rattle.device_session.specs.Damage.{Follows};
    ghost use Rattle.device_session.specs.Changed.{IsChangedBelow, CollidesOnWay};
    ghost use Rattle.device_session.specs.Going.{GoesOn};
    ghost use Rattle.device_session.specs.Keys.{StaysListed};
    ghost use Rattle.device_session.specs.Reading.{ReadsArray, FindsContent, IsFirstMisfit, ReadsFew};

    /// Puts the content of a block into the 4,096 bytes of `out`: zeros where it is not mapped.
    ///
    /// It allocates nothing, and reads one page for each level and one for the block at most; one alone where the cache keeps the
    /// nodes on the way to the block, as it does after a read of it, where it has room for one of each level. `Range` comes exactly where the
    /// device has no such block, and nothing is read then. A refusal leaves `out` as it was.
    #[tactic(auto, using(crate::proofs::SessionLaws::walk_looks, platform::proofs::CallLaws::looks_start, platform::proofs::CallLaws::looks_call, platform::proofs::CallLaws::looks_then))]
    pub fn read<P: Platform>(
        &mut self,
        platform: &mut P,
        block: u64,
        out: &mut [u8],
    ) -> Result<(), ReadRefusal>
        requires size { length out.old ≡ 4096 }
        requires open { IsOpen self.old (P.head platform.old) }
        ensures array { P.tells → (device : Device) (contents : Blocks) → Holds self.old (P.history platform.old).present device contents
            → Holds self.new (P.history platform.new).present device contents × ReadsArray contents block out.new result }
        // On any pages: what is named is a place of the root's tree that doesn't fit.
        ensures damaged { P.tells → Follows self.old (P.history platform.old).present → (addr : ℕ)
            → IsErrOf result (ReadRefusal.BadRecord addr) → Wrong (P.history platform.old).present.readable (root_of self.old) addr }
        // The content is what the tree and the block's data record say, and what is named is the first record that doesn't fit. No count is
        // asked.
        ensures finds { P.tells → StandsOver (P.history platform.old).present.readable self.old.cache
            → OnOk result (FindsContent (P.history platform.old).present.readable self.old.grove block out.new) }
        ensures misfit { P.tells → StandsOver (P.history platform.old).present.readable self.old.cache → (addr : ℕ)
            → IsErrOf result (ReadRefusal.BadRecord addr) → IsFirstMisfit (P.history platform.old).present.readable self.old.grove block addr }
        // Where reads of the medium give other pages than were recorded of a device of version 2, the content is the device's
        // all the same, or on the way to the block a page was met that has the digest of the recorded one.
        ensures unchanged { P.tells → (image : Image) (device : Device) → IsChangedBelow self.old image (P.history platform.old).present device
            → OnOk result ((out.new ≡ content_of device.contents block) ⊎ CollidesOnWay image (P.history platform.old).present (root_of self.old) block) }
        ensures goes_on { GoesOn P.tells (P.history platform.old).present (P.history platform.new).present (P.head platform.new) self.old self.new }
        // A refused read leaves `out` as it was.
        ensures same { (self.new.mapped ≡ self.old.mapped) × (self.new.is_touched ≡ self.old.is_touched) × (self.new.grove ≡ self.old.grove)
            × OnErr result (out.new ≡ out.old) }
        ensures listed { P.tells → StaysListed (P.history platform.old).present (P.history platform.new).present self.old self.new }
        ensures looks { Looks P.Platform platform.old platform.new }
        ensures reads { ReadsFew P.Platform block platform.old platform.new self.old self.new result }
        ensures cause { IsReadCause block (blocks_of self.old) (P.faults platform.old) (P.faults platform.new) result }
    {
        if block >= self.root.blocks {
            return Err(ReadRefusal::Range);
        }
        let found = self.grove.find(block, platform, &mut self.reader)?;
        let Some(entry) = found else {
            out.fill(0);
            return Ok(());
        };
        read_block(platform, &entry, block, &mut self.reader.buffers, out)?;
        Ok(())
    }
}

/// Reads the data record of a block, which an entry names, and puts its content into the 4,096 bytes of `out`.
#[tactic(auto, using(platform::proofs::CallLaws::looks_start, platform::proofs::CallLaws::looks_call, platform::proofs::CallLaws::looks_then))]
fn read_block<P: Platform>(
    platform: &mut P,
    entry: &Entry,
    block: u64,
    buffers: &mut Buffers,
    out: &mut [u8],
) -> Result<(), FetchRefusal>
    requires size { length out.old ≡ 4096 }
    requires within { entry.now.addr < P.head platform.old }
    ensures fits { P.tells
        → OnOk result (FitsAt (P.history platform.old).present.readable (block_want entry.now.addr block) entry.now.key (DataRecord block out.new)) }
    ensures nothing_fits { P.tells → (addr : ℕ) → IsErrOf result (FetchRefusal.BadRecord addr)
        → (addr ≡ entry.now.addr) × NothingFits (P.history platform.old).present.readable (block_want entry.now.addr block) entry.now.key }
    ensures left { OnErr result (out.new ≡ out.old) }
    ensures looks { Looks P.Platform platform.old platform.new }
    ensures reads { P.tells → P.reads platform.new ≤ P.reads platform.old + 1 }
    ensures cause { TellsOf FetchRefusal.PlatformFault result (P.faults platform.old) (P.faults platform.new) }
{
    let want = Want::of_block(entry.addr, block);
    fetch_block(platform, &want, &entry.key, buffers)?;
    out.copy_from_slice(buffers.content());
    Ok(())
}

ghost use Rattle.btree_update.specs.declared.refusals.ReadyRefusal.{ReadyRefusal};
ghost use Rattle.std.specs.Prelude.{◌≡◌, ◌<◌, ◌≤◌, ◌^◌, ℕ, IfOk, IsErrOf, vec_capacity};
ghost use Rattle.sdbt_base.specs.Faults.{TellsOf};
ghost use Rattle.page_store.specs.Places.{NothingFits};
ghost use Rattle.btree_walk.specs.Looks.{Looks};
ghost use Rattle.node_codec.specs.declared.body.NodeBody.{NodeBody};
ghost use Rattle.node_cache.specs.Cached.{IsCached, cached_node};
ghost use Rattle.btree_walk.specs.Finds.{MakesFirst};
ghost use Rattle.btree_walk.specs.Sights.{NodeFits, StandsOver, ForgetsNone, StillKeeps};
ghost use Rattle.btree_walk.specs.Among.{KeepsBut};
ghost use Rattle.btree_twigs.specs.Stubs.{level_of, children_of};
ghost use Rattle.btree_twigs.specs.declared.twigs.Twig.{out-Twig};
ghost use Rattle.btree_update.specs.Reading.{all_kept};
ghost use Rattle.btree_update.specs.Holding.{IsNodeFor, IsNodeOf};

use crate::refusals::ReadyRefusal;
use btree_twigs::{Child, Twig};
use btree_walk::{NodeReader, fits};
use node_codec::NodeBody;
use page_store::{Want, fetch_node};
use platform::Platform;
use record_versions::version_of;
use sdbt_base::Key;
use std::alloc::Global;

/// The node of a place, in memory: the one that is cached, or else that of its page, which is cached then.
pub(crate) fn read_node<P: Platform>(
    alloc: Global,
    platform: &mut P,
    reader: &mut NodeReader,
    want: &Want,
    key: &Key,
) -> Result<Twig, ReadyRefusal>
    requires within { want.now.addr < P.head platform.old }
    requires level { 1 ≤ want.now.level }
    requires small { want.now.addr < 2 ^ 64 }
    ensures fits { IfOk result (IsNodeFor want.now key.now) }
    ensures reads { P.tells → StandsOver (P.history platform.old).present.readable reader.old.cache →
        IfOk result (IsNodeOf (P.history platform.old).present.readable want.now key.now) }
    ensures bad { P.tells → StandsOver (P.history platform.old).present.readable reader.old.cache → (addr : ℕ) → IsErrOf result (ReadyRefusal.BadRecord addr) →
        (addr ≡ want.now.addr) × NothingFits (P.history platform.old).present.readable want.now key.now }
    ensures stands { P.tells → StandsOver (P.history platform.old).present.readable reader.old.cache → StandsOver (P.history platform.old).present.readable reader.new.cache }
    ensures but { KeepsBut want.now.addr key.now reader.old.cache reader.new.cache }
    ensures looks { Looks P.Platform 1 platform.old platform.new }
    ensures cause { TellsOf ReadyRefusal.PlatformFault result (P.faults platform.old) (P.faults platform.new) }
    // A node is let go only where there is no room for it.
    ensures forgets { ForgetsNone reader.old.cache reader.new.cache }
    // What is cached stands in the place of the page, also where it doesn't fit, and nothing is read then; it is cached still, and
    // so is what is cached for other addresses.
    ensures cached { (node : NodeBody) → IsCached reader.old.cache.nodes want.now.addr key.now node → (platform.new ≡ platform.old)
        × (¬ (NodeFits want.now key.now node) → IsErrOf result (ReadyRefusal.BadRecord want.now.addr)) × IfOk result (λ twig. children_of twig ≡ all_kept node.entries.items)
        × IsCached reader.new.cache.nodes want.now.addr key.now node × StillKeeps want.now.addr reader.old.cache reader.new.cache }
    // After an `Ok` the node is the one that was used last.
    ensures fills { IfOk result (λ twig. (node : NodeBody) × (children_of twig ≡ all_kept node.entries.items)
        × MakesFirst (cached_node want.now.addr key.now node) reader.old.cache reader.new.cache) }
{
    let version = version_of(key);
    if let Some(node) = reader.cache.get(want.addr, key) {
        if !fits(want, key, node) {
            return Err(ReadyRefusal::BadRecord { addr: want.addr });
        }
        return in_memory(alloc, node);
    }
    let node: &mut NodeBody = &mut reader.node;
    node.level = want.level;
    node.version = version;
    fetch_node(platform, want, key, &mut reader.buffers, &mut node.entries)?;
    reader.cache.put(want.addr, key, node);
    in_memory(alloc, node)
}

/// The node of a record in memory, with room for one child more than a node may have.
fn in_memory(alloc: Global, node: &NodeBody) -> Result<Twig, ReadyRefusal>
    ensures node { IfOk result (λ t. (level_of t ≡ node.now.level) × (children_of t ≡ all_kept node.now.entries.items) × (vec_capacity (out-Twig t).children ≡ 65)) }
    ensures memory { (e : ReadyRefusal) → IsErrOf result e → e ≡ ReadyRefusal.Memory }
{
    let mut children = Vec::with_capacity(alloc, 65)?;
    for entry in node.entries.iter() {
        children.push_reserved(Child::Kept {
            low: entry.low,
            addr: entry.addr,
            key: entry.key,
        });
    }
    Ok(Twig {
        level: node.level,
        children,
    })
}

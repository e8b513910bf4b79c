ghost use Rattle.std.specs.Prelude.{◌≡◌, ◌↔◌, ◌-◌, ℕ, List, None, IsTrue};
ghost use Rattle.btree_walk.specs.Sights.{CachedFits};
ghost use Rattle.btree_walk.specs.Finds.{AsksFor, Finds};

use crate::turns::{Turn, fits, turn_at};
use node_cache::NodeCache;
use page_store::Want;
use sdbt_base::Key;

/// Whether the cache alone leads from a node down to a leaf that has no entry of the block. It is not changed by that.
///
/// Where it keeps no node for a place on the way, or one that does not fit there, the answer is no. `start` says what is wanted of the
/// node, as for `find`.
pub fn lacks_cached(cache: &NodeCache, start: &Want, key: &Key, block: u64) -> bool
    requires { AsksFor start.now block }
    ensures { IsTrue result ↔ ((path : List ℕ) × Finds (CachedFits cache.now.nodes) start.now.most block None (start.now.level - 1) start.now key.now path) }
{
    let Some(node) = cache.peek(start.addr, key) else {
        return false;
    };
    if !fits(start, key, node) {
        return false;
    }
    match turn_at(start, key, node, block) {
        Turn::Found(found) => found.is_none(),
        Turn::Below(next, next_key) => lacks_cached(cache, &next, &next_key, block),
    }
}

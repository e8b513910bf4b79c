ghost use Rattle.std.specs.Prelude.{◌↔◌, ◌-◌, ℕ, None, IsTrue};
ghost use Rattle.btree_walk.specs.Sights.{CachedFits};
ghost use Rattle.btree_update.specs.Holding.{CanHoldRoot};
ghost use Rattle.btree_update.specs.Finding.{FindsFrom, RootFinds, CanGoOn};

use crate::holding::least_of_root;
use btree_twigs::{Child, Spot};
use btree_walk::lacks_cached;
use node_cache::NodeCache;
use page_store::Want;

/// Whether the nodes in memory below a root, and below them the cache alone, lead to a leaf that has no entry of a block.
pub(crate) fn lacks_root(
    cache: &NodeCache,
    order: u16,
    block: u64,
    top: &Child,
    level: u8,
    high: u64,
) -> bool
    requires { (head : ℕ) × CanHoldRoot order level block high head top.now }
    ensures { IsTrue result ↔ RootFinds (CachedFits cache.now.nodes) order block (level - 1) high top.now None }
{
    match top {
        Child::Grown { twig, .. } => {
            let spot = btree_twigs::find(twig, block, high);
            lacks_from(cache, order, block, spot)
        }
        Child::Kept { low, addr, key } => {
            let want = Want {
                addr: *addr,
                level,
                low: *low,
                high,
                least: least_of_root(level),
                most: order,
            };
            lacks_cached(cache, &want, key, block)
        }
    }
}

/// The same from where a search in memory ended.
fn lacks_from(cache: &NodeCache, order: u16, block: u64, spot: Spot) -> bool
    requires { (head : ℕ) × CanGoOn order block head spot }
    ensures { IsTrue result ↔ FindsFrom (CachedFits cache.now.nodes) order block spot None }
{
    match spot {
        Spot::Found { .. } => false,
        Spot::Absent => true,
        Spot::Below {
            level,
            low,
            high,
            addr,
            key,
        } => {
            let start = Want {
                addr,
                level,
                low,
                high,
                least: order / 2,
                most: order,
            };
            lacks_cached(cache, &start, &key, block)
        }
    }
}

ghost use Rattle.std.specs.Prelude.{◌≡◌, ◌<◌, ◌-◌, ℕ, IfOk, IfSome, IsErrOf};
ghost use Rattle.sdbt_base.specs.Faults.{TellsOf};
ghost use Rattle.page_store.specs.Places.{FitsAt};
ghost use Rattle.btree_walk.specs.Looks.{Looks};
ghost use Rattle.btree_walk.specs.Sights.{StandsOver};
ghost use Rattle.btree_twigs.specs.Stubs.{stubs};
ghost use Rattle.btree_update.specs.Among.{HaveNodes, HaveSpot, CachesAmong};
ghost use Rattle.btree_update.specs.Holding.{CanHoldRoot};
ghost use Rattle.btree_update.specs.Finding.{FindsFrom, StopsFrom, RootFinds, RootStops, KeepsFrom, RootKeeps, UsesCache, level_from, CanGoOn};

use crate::holding::least_of_root;
use btree_twigs::{Child, Spot};
use btree_walk::NodeReader;
use node_codec::Entry;
use page_store::{FetchRefusal, Want};
use platform::Platform;

/// The entry of a block below a root, or `None`: through the nodes in memory, and then on the medium, through the cache.
pub(crate) fn find_root<P: Platform>(
    platform: &mut P,
    reader: &mut NodeReader,
    order: u16,
    block: u64,
    top: &Child,
    level: u8,
    high: u64,
) -> Result<Option<Entry>, FetchRefusal>
    requires can { CanHoldRoot order level block high (P.head platform.old) top.now }
    ensures found { P.tells → StandsOver (P.history platform.old).present.readable reader.old.cache →
        IfOk result (RootFinds (FitsAt (P.history platform.old).present.readable) order block (level - 1) high top.now) }
    ensures bad { P.tells → StandsOver (P.history platform.old).present.readable reader.old.cache → (addr : ℕ) → IsErrOf result (FetchRefusal.BadRecord addr) →
        RootStops (P.history platform.old).present.readable order block addr (level - 1) high top.now }
    ensures entry { IfOk result (λ found. IfSome found (λ e. (e.low ≡ block) × (e.addr < P.head platform.old))) }
    ensures caches { CachesAmong P.Platform (λ pages. HaveNodes pages (stubs level high top.now)) platform.old reader.old.cache reader.new.cache }
    ensures looks { Looks P.Platform level platform.old platform.new }
    ensures cause { TellsOf FetchRefusal.PlatformFault result (P.faults platform.old) (P.faults platform.new) }
    ensures uses { UsesCache P.Platform (λ kept. RootKeeps kept order block (level - 1) high top.now) level platform.old platform.new reader.old.cache reader.new.cache result }
{
    match top {
        Child::Grown { twig, .. } => {
            let spot = btree_twigs::find(twig, block, high);
            find_from(platform, reader, order, block, spot)
        }
        Child::Kept { low, addr, key } => {
            let want = Want {
                addr: *addr,
                level,
                low: *low,
                high,
                least: least_of_root(level),
                most: order,
            };
            btree_walk::find(platform, reader, &want, key, block)
        }
    }
}

/// The entry of a block from where a search in memory ended, or `None`.
fn find_from<P: Platform>(
    platform: &mut P,
    reader: &mut NodeReader,
    order: u16,
    block: u64,
    spot: Spot,
) -> Result<Option<Entry>, FetchRefusal>
    requires can { CanGoOn order block (P.head platform.old) spot }
    ensures found { P.tells → StandsOver (P.history platform.old).present.readable reader.old.cache →
        IfOk result (FindsFrom (FitsAt (P.history platform.old).present.readable) order block spot) }
    ensures bad { P.tells → StandsOver (P.history platform.old).present.readable reader.old.cache → (addr : ℕ) → IsErrOf result (FetchRefusal.BadRecord addr) →
        StopsFrom (P.history platform.old).present.readable order block addr spot }
    ensures entry { IfOk result (λ found. IfSome found (λ e. (e.low ≡ block) × (e.addr < P.head platform.old))) }
    ensures caches { CachesAmong P.Platform (λ pages. HaveSpot pages spot) platform.old reader.old.cache reader.new.cache }
    ensures looks { Looks P.Platform (level_from spot) platform.old platform.new }
    ensures cause { TellsOf FetchRefusal.PlatformFault result (P.faults platform.old) (P.faults platform.new) }
    ensures uses { UsesCache P.Platform (λ kept. KeepsFrom kept order block spot) (level_from spot) platform.old platform.new reader.old.cache reader.new.cache result }
{
    match spot {
        Spot::Found { addr, key } => {
            let entry = Entry {
                low: block,
                addr,
                key,
            };
            Ok(Some(entry))
        }
        Spot::Absent => Ok(None),
        Spot::Below {
            level,
            low,
            high,
            addr,
            key,
        } => {
            let start = Want {
                addr,
                level,
                low,
                high,
                least: order / 2,
                most: order,
            };
            btree_walk::find(platform, reader, &start, &key, block)
        }
    }
}

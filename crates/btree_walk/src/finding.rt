ghost use Rattle.std.specs.Prelude.{◌≡◌, ◌<◌, ◌-◌, ℕ, List, Option, Ok, Err, IfOk, IfSome, IsErrOf};
ghost use Rattle.sdbt_base.specs.Faults.{TellsOf};
ghost use Rattle.node_codec.specs.declared.body.Entry.{Entry};
ghost use Rattle.btree_walk.specs.Sights.{CachedFits, CachedMisfits, Sees, Misses, StandsOver, KeepsOnly, ForgetsNone};
ghost use Rattle.btree_walk.specs.Among.{IsAmong, GoDown, StaysAmong};
ghost use Rattle.btree_walk.specs.Finds.{AsksFor, Finds, Stops, IsFound};
ghost use Rattle.btree_walk.specs.Looks.{Looks};

use crate::looking::look;
use crate::reader::NodeReader;
use crate::turns::Turn;
use node_codec::Entry;
use page_store::{FetchRefusal, Want};
use platform::Platform;
use sdbt_base::Key;

/// The entry of a block in the tree below a node, or `None` where the leaf on its way has none.
///
/// `start` says what is wanted of the node, and its greatest number of entries is the order of the tree. A node that the
/// cache keeps for an address and key stands in the place of that page. There are at most `start.level` reads of pages,
/// and none where the cache keeps each node of the way, as it does after an `Ok` where it has room for `start.level`
/// nodes. `BadRecord` comes exactly where the way comes to a place that does not fit, with that address.
pub fn find<P: Platform>(
    platform: &mut P,
    reader: &mut NodeReader,
    start: &Want,
    key: &Key,
    block: u64,
) -> Result<Option<Entry>, FetchRefusal>
    requires within { start.now.addr < P.head platform.old }
    requires asks { AsksFor start.now block }

    ensures found { P.tells → IfOk result
        (IsFound (P.history platform.old).present.readable start.now key.now block reader.old.cache reader.new.cache) }
    ensures bad { P.tells → (addr : ℕ) → IsErrOf result (FetchRefusal.BadRecord addr) →
        Stops (Sees reader.old.cache.nodes (P.history platform.old).present.readable) start.now.most block
        (Misses reader.old.cache.nodes (P.history platform.old).present.readable) addr (start.now.level - 1) start.now key.now }
    // What is answered is of this block, and stands below the node, whatever the platform tells.
    ensures entry { IfOk result (λ found. IfSome found (λ e. (e.low ≡ block) × (e.addr < start.now.addr))) }
    ensures cached { (found : Option Entry) (path : List ℕ) →
        Finds (CachedFits reader.old.cache.nodes) start.now.most block found (start.now.level - 1) start.now key.now path →
        (platform.new ≡ platform.old) × (result ≡ Ok found) }
    // What is cached for the node stands in the place of its page, also where it doesn't fit, and it does so still.
    ensures misfit { CachedMisfits reader.old.cache.nodes start.now key.now →
        (platform.new ≡ platform.old) × (result ≡ Err (FetchRefusal.BadRecord start.now.addr)) × CachedMisfits reader.new.cache.nodes start.now key.now }

    ensures keeps { P.tells → KeepsOnly (P.history platform.old).present.readable reader.old.cache reader.new.cache }
    // A node is let go only where there is no room for it.
    ensures forgets { ForgetsNone reader.old.cache reader.new.cache }
    // What is cached is of the places that lead down from the node.
    ensures among { P.tells → StandsOver (P.history platform.old).present.readable reader.old.cache →
        StaysAmong (λ places. GoDown (P.history platform.old).present.readable places × IsAmong places start.now.addr key.now) reader.old.cache reader.new.cache }
    ensures looks { Looks P.Platform start.now.level platform.old platform.new }
    ensures cause { TellsOf FetchRefusal.PlatformFault result (P.faults platform.old) (P.faults platform.new) }
{
    match look(platform, reader, start, key, block)? {
        Turn::Found(found) => Ok(found),
        Turn::Below(next, next_key) => find(platform, reader, &next, &next_key, block),
    }
}

ghost use Rattle.std.specs.Prelude.{◌≡◌, ◌<◌, List, Err, IsOkAnd};
ghost use Rattle.node_codec.specs.declared.body.Entry.{Entry};
ghost use Rattle.node_codec.specs.declared.body.NodeBody.{NodeBody};
ghost use Rattle.node_cache.specs.Cached.{IsCached};
ghost use Rattle.node_codec.specs.Record.{NodeRecord};
ghost use Rattle.btree_walk.specs.Ways.{IsTurn};
ghost use Rattle.btree_walk.specs.Sights.{CachedFits, CachedMisfits, StillKeeps};
ghost use Rattle.btree_walk.specs.Finds.{AsksFor, LooksFor};

use crate::reader::NodeReader;
use crate::turns::{Turn, fits, turn_at};
use node_codec::NodeBody;
use page_store::{FetchRefusal, Want, fetch_node};
use platform::Platform;
use record_versions::version_of;
use sdbt_base::Key;

/// Looks at the node of a place for a block: at the one that the cache keeps, or else at its page, whose node the cache
/// then keeps.
pub(crate) fn look<P: Platform>(
    platform: &mut P,
    reader: &mut NodeReader,
    want: &Want,
    key: &Key,
    block: u64,
) -> Result<Turn, FetchRefusal>
    requires within { want.now.addr < P.head platform.old }
    requires asks { AsksFor want.now block }

    ensures look { LooksFor P.Platform want.now key.now block platform.old platform.new reader.old.cache reader.new.cache result }
    ensures cached { (entries : List Entry) → CachedFits reader.old.cache.nodes want.now key.now (NodeRecord want.now.level entries) →
        (platform.new ≡ platform.old) × IsOkAnd result (IsTurn want.now entries block) }

    ensures misfit { CachedMisfits reader.old.cache.nodes want.now key.now →
        (platform.new ≡ platform.old) × (result ≡ Err (FetchRefusal.BadRecord want.now.addr)) × CachedMisfits reader.new.cache.nodes want.now key.now }
    ensures still { (node : NodeBody) → IsCached reader.old.cache.nodes want.now.addr key.now node → StillKeeps want.now.addr reader.old.cache reader.new.cache }
{
    if let Some(node) = reader.cache.get(want.addr, key) {
        return if fits(want, key, node) {
            Ok(turn_at(want, key, node, block))
        } else {
            Err(FetchRefusal::BadRecord { addr: want.addr })
        };
    }
    look_at_page(platform, reader, want, key, block)
}

/// Looks at the page of a place for a block, and has the cache keep its node.
fn look_at_page<P: Platform>(
    platform: &mut P,
    reader: &mut NodeReader,
    want: &Want,
    key: &Key,
    block: u64,
) -> Result<Turn, FetchRefusal>
    requires within { want.now.addr < P.head platform.old }
    requires asks { AsksFor want.now block }

    ensures { LooksFor P.Platform want.now key.now block platform.old platform.new reader.old.cache reader.new.cache result }
{
    let node: &mut NodeBody = &mut reader.node;
    node.level = want.level;
    node.version = version_of(key);
    fetch_node(platform, want, key, &mut reader.buffers, &mut node.entries)?;
    let turn = turn_at(want, key, node, block);
    reader.cache.put(want.addr, key, node);
    Ok(turn)
}

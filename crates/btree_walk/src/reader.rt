ghost use Rattle.std.specs.Prelude.{◌≡◌, ◌≤◌, [], IfOk, box_value};
ghost use Rattle.page_store.specs.Buffer.{IsBlank};
ghost use Rattle.btree_walk.specs.Readers.{IsWiped};

use arrayvec::ArrayVec;
use node_cache::{NodeCache, wipe_entries};
use node_codec::NodeBody;
use page_store::Buffers;
use sdbt_base::Memory;
use std::alloc::Global;

/// What nodes are read with: a cache, and room for a page and for the node that it is, which is used again and again.
#[derive(Drop)]
pub struct NodeReader {
    /// The nodes that were used last.
    pub cache: NodeCache,
    /// Room for a page and for its body.
    pub buffers: Buffers,
    /// Room for a node that is read from its page.
    pub node: Box<NodeBody>,
}

impl NodeReader {
    /// A reader whose cache keeps none yet of at most 4,096 nodes. All memory that it ever takes is taken here.
    pub fn new(alloc: Global, capacity: usize) -> Result<NodeReader, Memory>
        requires { capacity ≤ 4096 }
        ensures cache { IfOk result (λ reader. reader.cache ≡ record { capacity = capacity; nodes = [] }) }
        ensures buffers { IfOk result (λ reader. IsBlank reader.buffers) }
    {
        let node = Box::new(alloc, blank_node())?;
        let buffers = Buffers::new(alloc)?;
        let cache = NodeCache::new(alloc, capacity)?;
        Ok(NodeReader {
            cache,
            buffers,
            node,
        })
    }

    /// Leaves nothing of what was read or sealed in the buffers, nor of the node that was read last. The cache is as it was.
    pub fn wipe(&mut self)
        ensures wiped { IsWiped self.new.buffers (box_value self.new.node) }
        ensures cache { self.new.cache ≡ self.old.cache }
    {
        self.buffers.wipe();
        let node: &mut NodeBody = &mut self.node;
        node.level = 0;
        node.version = 0;
        wipe_entries(&mut node.entries);
    }
}

/// A node without entries, of nothing but zeros.
fn blank_node() -> NodeBody
    ensures level { result.level ≡ 0 }
    ensures entries { result.entries.items ≡ [] }
{
    NodeBody {
        level: 0,
        version: 0,
        entries: ArrayVec::new(),
    }
}

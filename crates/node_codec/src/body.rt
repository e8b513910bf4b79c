use arrayvec::ArrayVec;
use sdbt_base::Key;

/// An entry of a node: what lies from a block number on, and where.
#[derive(Clone, Copy, PartialEq, Eq, Default)]
pub struct Entry {
    /// In a leaf the number of the block, in an inner node the lower bound of the child.
    pub low: u64,
    /// The address of the child: of a data record in a leaf, else of a node one level down.
    pub addr: u64,
    /// The key of the child.
    pub key: Key,
}

/// A node of the tree.
#[derive(Drop)]
pub struct NodeBody {
    /// 1 for a leaf, up to 20.
    pub level: u8,
    /// 2 where the keys of the children have the digests of their pages, else 1.
    pub version: u8,
    /// The entries: their lows ascend strictly.
    pub entries: ArrayVec<Entry, 64>,
}

/// What a record says. The content of a data record stays where it was read: behind its 32 bytes of head.
#[derive(Drop)]
pub enum Body {
    /// A data record: the content of a block.
    Block {
        /// The number of the block.
        block: u64,
    },
    /// A node.
    Node {
        /// The node.
        node: NodeBody,
    },
}

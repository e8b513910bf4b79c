ghost use Rattle.std.specs.Prelude.{◌≡◌, ◌↔◌, IsTrue};
ghost use Rattle.root_codec.specs.RootRecord.{FitsRoot, root_bytes};
ghost use Rattle.root_codec.specs.declared.root.Root.{Root};

use record_versions::{is_of_version, is_version, most_entries};
use sdbt_base::{Key, MAX_BLOCKS, MAX_LEVEL, MAX_PAGES};

/// What the root cell says of a device: its size, its last commit and where its tree begins.
#[derive(Clone, Copy, PartialEq, Eq)]
pub struct Root {
    /// The version of the records: 1, or 2 where each node names the digests of its children's pages.
    pub version: u8,
    /// The most entries of a node: even, 4 to 64, and in version 2 at most 48.
    pub order: u16,
    /// The level of the root node: 1 to 20, 1 being a leaf.
    pub level: u8,
    /// The number of blocks: 1 to 1,048,576.
    pub blocks: u64,
    /// The number of the commit: below the head, since each commit appends a page.
    pub commit: u64,
    /// The address of the root node: below the head.
    pub addr: u64,
    /// The key of the root node, with the digest of its page exactly in version 2.
    pub key: Key,
    /// The number of mapped blocks: at most the number of blocks.
    pub mapped: u64,
    /// The number of pages on the medium at this commit: at most 2^32.
    pub head: u64,
}

impl Root {
    /// Whether a root record can say this.
    pub fn is_in_range(&self) -> bool
        ensures { IsTrue result ↔ FitsRoot self.now }
    {
        is_version(self.version)
            && self.order % 2 == 0
            && (4..=most_entries(self.version)).contains(&self.order)
            && (1..=MAX_LEVEL).contains(&self.level)
            && (1..=MAX_BLOCKS).contains(&self.blocks)
            && self.commit < self.head
            && self.addr < self.head
            && self.mapped <= self.blocks
            && self.head <= MAX_PAGES
            && is_of_version(&self.key, self.version)
    }
}

/// A law: no two roots have the same root record.
pub fn one_spelling()
    ensures { (a b : Root) → FitsRoot a → FitsRoot b → root_bytes a ≡ root_bytes b → a ≡ b }
{}

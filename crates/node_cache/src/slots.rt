ghost use Rattle.std.specs.Prelude.{◌≡◌, ◌≤◌, [], None, Some, Option, IfOk, length, replicate};
ghost use Rattle.std.specs.Option.{option_copied};
ghost use Rattle.node_codec.specs.declared.body.NodeBody.{NodeBody};
ghost use Rattle.node_cache.specs.declared.slots.CachedNode.{CachedNode};
ghost use Rattle.node_cache.specs.Cached.{cached_node, node_of};

use crate::wiping::wipe_entries;
use arrayvec::ArrayVec;
use node_codec::{Entry, NodeBody};
use sdbt_base::{Key, Memory};
use std::alloc::Global;
use std::marker::Model;

/// A node that is cached, with the address and the key that it was read or written under.
#[derive(Drop)]
pub struct CachedNode {
    /// The address of its page.
    pub addr: u64,
    /// Its key.
    pub key: Key,
    /// The node.
    pub node: NodeBody,
}

/// A place for one node, on the heap. What it is written over stays when the node is let go, so that the next node finds
/// room there.
#[derive(Drop)]
pub struct Slot {
    is_full: bool,
    room: Vec<CachedNode>,
}

impl Model for Slot {
    ghost use Rattle.std.specs.Prelude.{◌≡◌, None, Option, IfSome, cond, false, slice_get, vec_capacity};
    ghost use Rattle.node_cache.specs.declared.slots.CachedNode.{CachedNode};
    ghost use Rattle.node_cache.specs.Slots.{IsWipedOut};

    ghost Value = { Option CachedNode };

    ghost view = { λ s. cond s.is_full (slice_get s.room.items 0) None };

    // There is room for one node, and in a slot in which none stands nothing is left of one.
    ghost invariant = { λ s. (vec_capacity s.room ≡ 1) × (s.is_full ≡ false → IfSome (slice_get s.room.items 0) IsWipedOut) };
}

impl CachedNode {
    /// The node of a level and a version with a copy of these entries, for its address under its key.
    fn of(addr: u64, key: &Key, level: u8, version: u8, entries: &[Entry]) -> CachedNode
        requires { length entries.now ≤ 64 }
        ensures { result ≡ cached_node addr key.now (node_of level version entries.now) }
    {
        let mut kept = CachedNode {
            addr,
            key: *key,
            node: NodeBody {
                level,
                version,
                entries: ArrayVec::new(),
            },
        };
        kept.copy(addr, key, level, version, entries);
        kept
    }

    /// Becomes the node of a level and a version with a copy of these entries, for its address under its key.
    fn copy(&mut self, addr: u64, key: &Key, level: u8, version: u8, entries: &[Entry])
        requires { length entries.now ≤ 64 }
        ensures { self.new ≡ cached_node addr key.now (node_of level version entries.now) }
    {
        self.addr = addr;
        self.key = *key;
        self.node.level = level;
        self.node.version = version;
        self.node.entries.clear();
        match self.node.entries.try_extend_from_slice(entries) {
            Ok(()) => {}
            Err(_) => unreachable!(),
        }
    }

    /// Writes over the keys: that of the node, and with its entries those of its children.
    fn wipe(&mut self)
        ensures key { self.new.key ≡ replicate 32 0 }
        ensures entries { self.new.node.entries.items ≡ [] }
    {
        self.key = Key::from_bytes([0; 32]);
        wipe_entries(&mut self.node.entries);
    }
}

impl Slot {
    /// A place in which no node stands.
    pub(crate) fn new(alloc: Global) -> Result<Slot, Memory>
        ensures { IfOk result (λ slot. slot ≡ None) }
    {
        Ok(Slot {
            is_full: false,
            room: Vec::with_capacity(alloc, 1)?,
        })
    }

    /// The node that stands here.
    pub(crate) fn node(&self) -> Option<&CachedNode>
        ensures { option_copied result ≡ self.now }
    {
        if self.is_full {
            self.room.first()
        } else {
            None
        }
    }

    /// Writes the node of a level and a version with these entries over what stands here, for its address under its key.
    pub(crate) fn fill(&mut self, addr: u64, key: &Key, level: u8, version: u8, entries: &[Entry])
        requires { length entries.now ≤ 64 }
        ensures { self.new ≡ Some (cached_node addr key.now (node_of level version entries.now)) }
    {
        if self.room.is_empty() {
            self.room
                .push_reserved(CachedNode::of(addr, key, level, version, entries));
        } else {
            self.room[0].copy(addr, key, level, version, entries);
        }
        self.is_full = true;
    }

    /// Lets go the node that stands here. Its keys are written over.
    pub(crate) fn clear(&mut self)
        ensures { self.new ≡ None }
    {
        if !self.room.is_empty() {
            self.room[0].wipe();
        }
        self.is_full = false;
    }
}

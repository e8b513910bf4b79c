ghost use Rattle.std.specs.Prelude.{◌≡◌, ◌↔◌, ◌<◌, ◌≤◌, List, [], ◌∷◌, None, Some, IfOk, IfSome, IfNone, IsSome, IsTrue, length, map, max, nat_eq, slice_get};
ghost use Rattle.std.specs.Borrow.{sem};
ghost use Rattle.std.specs.Option.{option_copied};
ghost use Rattle.std.specs.List.{IsDistinct};
ghost use Rattle.std.specs.Map.{keys_of, lookup, remove_entry};
ghost use Rattle.lru.specs.LruCache.{lru_cache, promoted};
ghost use Rattle.std.specs.NonZero.{non_zero_usize_get};
ghost use Rattle.node_codec.specs.declared.body.NodeBody.{NodeBody};
ghost use Rattle.node_cache.specs.declared.slots.CachedNode.{CachedNode};
ghost use Rattle.node_cache.specs.Cached.{cached_node, node_of};
ghost use Rattle.node_cache.specs.Slots.{IsLeastUsed, IsSlotFor};
ghost use Rattle.node_cache.specs.Buckets.{Covers};

use crate::buckets::{Bucket, empty_buckets, note, slot_of};
use crate::slots::Slot;
use lru::LruCache;
use node_codec::{Entry, NodeBody};
use sdbt_base::{Addrs, Key, Memory};
use std::alloc::Global;
use std::marker::Model;
use std::num::NonZeroUsize;

/// How many buckets there are for each slot: so many that few addresses share one.
const BUCKETS: usize = 4;

/// Whether a node was put into a cache.
#[derive(Clone, Copy, Debug, PartialEq, Eq)]
pub enum Put {
    /// The node is cached.
    Stored,
    /// The cache keeps nothing.
    Off,
}

/// The nodes that were used last, at most `capacity` of them.
#[derive(Drop)]
pub struct NodeCache {
    slots: LruCache<usize, Slot>,
    addrs: Vec<Option<u64>>,
    buckets: Vec<Bucket>,
}

impl Model for NodeCache {
    ghost use Rattle.std.specs.Prelude.{length};
    ghost use Rattle.node_cache.specs.Cached.{Cached};
    ghost use Rattle.node_cache.specs.Slots.{nodes_in};
    ghost use Rattle.node_cache.specs.Buckets.{IsCachedBy};

    ghost Value = { Cached };

    ghost view = { λ c. record { capacity = length c.addrs.items; nodes = nodes_in c.slots.entries } };

    ghost invariant = { λ c. IsCachedBy c.slots.entries c.slots.cap c.addrs c.buckets };
}

impl NodeCache {
    ghost use Rattle.node_cache.specs.Cached.{filled, without, forgotten, IsCached, IsOnlyCached, Uses};
    ghost use Rattle.node_cache.specs.Slots.{AreApart};
    ghost use Rattle.node_cache.specs.Lends.{EndsUsed};

    /// A cache of at most 4,096 nodes that keeps none yet. All memory that it ever takes is taken here. With
    /// a capacity of 0 it keeps nothing.
    pub fn new(alloc: Global, capacity: usize) -> Result<NodeCache, Memory>
        requires { capacity ≤ 4096 }
        ensures { IfOk result (λ cache. cache ≡ record { capacity = capacity; nodes = [] }) }
    {
        let mut slots = LruCache::new(alloc, room_for(capacity))?;
        let mut addrs = Vec::with_capacity(alloc, capacity)?;
        for number in 0..capacity {
            slots.put(number, Slot::new(alloc)?)?;
            addrs.push_reserved(None);
        }
        let buckets = empty_buckets(alloc, BUCKETS * capacity)?;
        Ok(NodeCache {
            slots,
            addrs,
            buckets,
        })
    }

    /// Keeps a node for its address under its key, as the most recent one, in the place of one that was cached
    /// for that address; else, where all places are taken, in that of the least recent one. `Off` comes
    /// exactly where the capacity is 0. No two nodes are cached for one address.
    pub fn put(&mut self, addr: u64, key: &Key, node: &NodeBody) -> Put
        ensures off { (result ≡ Put.Off) ↔ (self.old.capacity ≡ 0) }
        ensures cached { self.new ≡ filled self.old (cached_node addr key.now node.now) }
        ensures apart { AreApart self.old.nodes }
    {
        self.put_node(addr, key, node.level, node.version, &node.entries)
    }

    /// Keeps the node of a level and a version with these entries, at most 64, as `put` does.
    pub fn put_node(
        &mut self,
        addr: u64,
        key: &Key,
        level: u8,
        version: u8,
        entries: &[Entry],
    ) -> Put
        requires { length entries.now ≤ 64 }
        ensures off { (result ≡ Put.Off) ↔ (self.old.capacity ≡ 0) }
        ensures cached { self.new ≡ filled self.old (cached_node addr key.now (node_of level version entries.now)) }
        ensures apart { AreApart self.old.nodes }
    {
        if self.addrs.is_empty() {
            return Put::Off;
        }
        let number = slot_for(&self.slots, &self.buckets, &self.addrs, addr);
        note(&mut self.buckets, &self.addrs, number, addr);
        self.addrs[number] = Some(addr);
        fill(&mut self.slots, number, addr, key, level, version, entries);
        Put::Stored
    }

    /// The node that is cached for an address under this key, which becomes the most recent one. `None` comes
    /// exactly where none is, and changes nothing.
    pub fn get(&mut self, addr: u64, key: &Key) -> Option<&NodeBody>
        ensures* used { sem 𝓛 (EndsUsed self.entry addr key.now result) }
        ensures found { IfSome result (λ node. IsOnlyCached self.old.nodes addr key.now node.now) }
        ensures none { IfNone result ((node : NodeBody) → ¬ (IsCached self.old.nodes addr key.now node)) }
        ensures apart { AreApart self.old.nodes }
    {
        if self.use_again(addr, key) {
            self.latest()
        } else {
            None
        }
    }

    /// The node that is cached for an address under this key. It is not used by that: the order stays as it is.
    /// `None` comes exactly where none is.
    pub fn peek(&self, addr: u64, key: &Key) -> Option<&NodeBody>
        ensures found { IfSome result (λ node. IsOnlyCached self.now.nodes addr key.now node.now) }
        ensures none { IfNone result ((node : NodeBody) → ¬ (IsCached self.now.nodes addr key.now node)) }
    {
        let Some(number) = slot_of(&self.buckets, &self.addrs, addr) else {
            return None;
        };
        node_under(&self.slots, number, key)
    }

    /// Whether a node is cached for an address under this key, which then becomes the most recent one.
    fn use_again(&mut self, addr: u64, key: &Key) -> bool
        ensures used { IsTrue result → (node : NodeBody) × Uses self.old addr key.now (Some node) self.new }
        ensures none { ¬ (IsTrue result) → Uses self.old addr key.now None self.new }
        ensures apart { AreApart self.old.nodes }
    {
        let Some(number) = slot_of(&self.buckets, &self.addrs, addr) else {
            return false;
        };
        let is_kept = has_key(&self.slots, number, key);
        if is_kept {
            use_slot(&mut self.slots, number);
        }
        is_kept
    }

    /// The most recent node, if there is one.
    fn latest(&self) -> Option<&NodeBody>
        ensures { (first : CachedNode) (others : List CachedNode) → self.now.nodes ≡ first ∷ others → option_copied result ≡ Some first.node }
    {
        let (_, slot) = self.slots.peek_mru()?;
        let kept = slot.node()?;
        Some(&kept.node)
    }

    /// The addresses for which nodes are cached, the most recent first.
    pub fn addresses(&self, alloc: Global) -> Result<Addrs, Memory>
        ensures { IfOk result (λ addrs. addrs ≡ map (λ k. k.addr) self.now.nodes) }
    {
        let mut addrs = Addrs::new(alloc);
        for (_, slot) in self.slots.iter() {
            if let Some(kept) = slot.node() {
                addrs.push(kept.addr)?;
            }
        }
        Ok(addrs)
    }

    /// Forgets what is cached for an address. The other nodes and their order stay.
    pub fn forget(&mut self, addr: u64)
        ensures { self.new ≡ record {
          capacity = self.old.capacity;
          nodes = without addr self.old.nodes;
        } }
    {
        if let Some(number) = slot_of(&self.buckets, &self.addrs, addr) {
            self.addrs[number] = None;
            empty(&mut self.slots, number);
            self.slots.demote(&number);
        }
    }

    /// Forgets what is cached for each of these addresses. The other nodes and their order stay.
    pub fn forget_all(&mut self, addrs: &[u64])
        ensures { self.new ≡ forgotten addrs.now self.old }
    {
        for addr in addrs {
            self.forget(*addr);
        }
    }

    /// Forgets all that is cached. Nothing of it is left in the slots.
    pub fn clear(&mut self)
        ensures { self.new ≡ record {
          capacity = self.old.capacity;
          nodes = [];
        } }
    {
        'nodes: while let Some(addr) = self.first_address() {
            self.forget(addr);
        }
    }

    /// The address of the most recent node, if there is one.
    fn first_address(&self) -> Option<u64>
        ensures some { IfSome result (λ addr. (first : CachedNode) × (others : List CachedNode) × (self.now.nodes ≡ first ∷ others) × (first.addr ≡ addr)) }
        ensures none { IfNone result (self.now.nodes ≡ []) }
    {
        let Some((_, slot)) = self.slots.peek_mru() else {
            return None;
        };
        match slot.node() {
            Some(kept) => Some(kept.addr),
            None => None,
        }
    }
}

/// How many slots the map is to have room for: one at least, which stays unused at a capacity of 0.
fn room_for(capacity: usize) -> NonZeroUsize
    ensures { non_zero_usize_get result ≡ max 1 capacity }
{
    NonZeroUsize::new(capacity).unwrap_or(NonZeroUsize::MIN)
}

/// The number of the slot that a node of an address is to have: its own, or the one that was used least.
fn slot_for(
    slots: &LruCache<usize, Slot>,
    buckets: &[Bucket],
    addrs: &[Option<u64>],
    addr: u64,
) -> usize
    requires some { 0 < length slots.now.entries }
    requires covers { Covers buckets.now addrs.now }
    ensures { IsSlotFor slots.now.entries addrs.now addr result }
{
    match slot_of(buckets, addrs, addr) {
        Some(number) => number,
        None => least_used(slots),
    }
}

/// The number of the slot that was used least recently.
fn least_used(slots: &LruCache<usize, Slot>) -> usize
    requires { 0 < length slots.now.entries }
    ensures { IsLeastUsed slots.now.entries result }
{
    let count = slots.len();
    prove!(count > 0);
    match slots.peek_lru() {
        Some((number, _)) => *number,
        None => unreachable!(),
    }
}

/// Copies a node into a slot, which is then the one that was used last.
fn fill(
    slots: &mut LruCache<usize, Slot>,
    number: usize,
    addr: u64,
    key: &Key,
    level: u8,
    version: u8,
    entries: &[Entry],
)
    requires there { IsSome (lookup (nat_eq number) slots.old.entries) }
    requires count { length entries.now ≤ 64 }
    ensures written { slots.new ≡ lru_cache ((number, Some (cached_node addr key.now (node_of level version entries.now))) ∷ remove_entry (nat_eq number) slots.old.entries) slots.old.cap }
    ensures distinct { IsDistinct nat_eq (keys_of slots.new.entries) }
{
    match slots.get_mut(&number) {
        Some(slot) => slot.fill(addr, key, level, version, entries),
        None => unreachable!(),
    }
    let count = slots.len();
    prove!(count > 0);
}

/// Makes a slot an empty one, which is then the one that was used last.
fn empty(slots: &mut LruCache<usize, Slot>, number: usize)
    requires { IsSome (lookup (nat_eq number) slots.old.entries) }
    ensures written { slots.new ≡ lru_cache ((number, None) ∷ remove_entry (nat_eq number) slots.old.entries) slots.old.cap }
    ensures distinct { IsDistinct nat_eq (keys_of slots.new.entries) }
{
    match slots.get_mut(&number) {
        Some(slot) => slot.clear(),
        None => unreachable!(),
    }
    let count = slots.len();
    prove!(count > 0);
}

/// Whether the node in a slot, if there is one, is cached under this key.
fn has_key(slots: &LruCache<usize, Slot>, number: usize, key: &Key) -> bool
    ensures { IsTrue result ↔ ((kept : CachedNode) × (lookup (nat_eq number) slots.now.entries ≡ Some (Some kept)) × (kept.key ≡ key.now)) }
{
    let Some(slot) = slots.peek(&number) else {
        return false;
    };
    match slot.node() {
        Some(kept) => kept.key == *key,
        None => false,
    }
}

/// The node in a slot, if it is cached under this key.
fn node_under<'a>(
    slots: &'a LruCache<usize, Slot>,
    number: usize,
    key: &Key,
) -> Option<&'a NodeBody>
    ensures some { IfSome result (λ node. (kept : CachedNode) × (lookup (nat_eq number) slots.now.entries ≡ Some (Some kept)) × (kept.key ≡ key.now) × (kept.node ≡ node.now)) }
    ensures none { IfNone result (¬ ((kept : CachedNode) × (lookup (nat_eq number) slots.now.entries ≡ Some (Some kept)) × (kept.key ≡ key.now))) }
{
    let kept = slots.peek(&number)?.node()?;
    if kept.key == *key {
        Some(&kept.node)
    } else {
        None
    }
}

/// Makes a slot the one that was used last.
fn use_slot(slots: &mut LruCache<usize, Slot>, number: usize)
    requires { IsSome (lookup (nat_eq number) slots.old.entries) }
    ensures used { slots.new ≡ lru_cache (promoted (nat_eq number) slots.old.entries) slots.old.cap }
    ensures distinct { IsDistinct nat_eq (keys_of slots.new.entries) }
{
    slots.promote(&number);
    let count = slots.len();
    prove!(count > 0);
}

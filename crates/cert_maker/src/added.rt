//! The addresses that a commit added.
ghost use Rattle.std.specs.Prelude.{◌≡◌, ◌<◌, ◌↔◌, [], ◌∷◌, ◌++◌, Some, IsTrue, length, slice_get, is_ok, if◌then◌else◌, MatchOption};
ghost use Rattle.cert_maker.specs.Added.{traced};
ghost use Rattle.cert_maker.specs.Ordered.{AreOneEach, IsOrderOf};

use sdbt_base::{Addrs, Memory};
use std::alloc::Global;
use std::marker::Model;

/// An address that a commit added, and what stands there. A data record has its block and no children, a node has no block
/// and its children.
#[derive(Drop)]
pub struct Added {
    /// The address.
    pub addr: u64,
    /// The block of a data record; with one, the children count for nothing.
    pub block: Option<u64>,
    /// The addresses of a node's children, in its order.
    pub children: Addrs,
}

/// Added addresses. A contract sees them as a list of what is said of each.
#[derive(Drop)]
pub struct AddedList {
    items: Vec<Added>,
}

impl Model for AddedList {
    ghost use Rattle.std.specs.Prelude.{List, map};
    ghost use Rattle.sdbt_base.specs.Traces.{Traced};
    ghost use Rattle.cert_maker.specs.Added.{traced};

    ghost Value = { List Traced };

    ghost view = { λ a. map traced a.items.items };
}

impl AddedList {
    /// No address yet. It takes no memory.
    pub fn new(alloc: Global) -> AddedList
        ensures { result ≡ [] }
    {
        AddedList {
            items: Vec::new(alloc),
        }
    }

    /// Adds an address at the end. `Memory` changes nothing.
    pub fn push(&mut self, item: Added) -> Result<(), Memory>
        ensures { self.new ≡ (if is_ok result then self.old ++ traced item ∷ [] else self.old) }
    {
        self.items.push(item)?;
        Ok(())
    }

    /// Takes the item at the end, and `None` where there is none.
    pub fn pop(&mut self) -> Option<Added>
        ensures { MatchOption result
            ((self.old ≡ []) × (self.new ≡ []))
            (λ item. self.old ≡ self.new ++ traced item ∷ []) }
    {
        self.items.pop()
    }

    /// How many there are.
    pub fn len(&self) -> usize
        ensures { result ≡ length self.now }
    {
        self.items.len()
    }

    /// Whether there is none.
    pub fn is_empty(&self) -> bool
        ensures { IsTrue result ↔ (self.now ≡ []) }
    {
        self.items.is_empty()
    }

    /// The item at a place, counted from 0.
    pub fn at(&self, i: usize) -> &Added
        requires { i < length self.now }
        ensures { slice_get self.now i ≡ Some (traced result.now) }
    {
        &self.items[i]
    }

    // Brings the items into the order of their addresses, and drops repeats, where no address has two items.
    pub(crate) fn ascend(&mut self)
        ensures { AreOneEach (λ item. item.addr) self.old → IsOrderOf (λ item. item.addr) self.old self.new }
    {
        self.items.sort_unstable_by_key(|item| item.addr);
        self.items.dedup_by_key(|item| item.addr);
    }
}

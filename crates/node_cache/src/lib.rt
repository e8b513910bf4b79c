//! The nodes that were used last, cached under their addresses and keys.
//!
//! A cache has a fixed number of slots. All of its memory is taken when it is made: the kit's LRU map then holds
//! every slot by its number, empty or with a node, in the order of use, and only what stands in a slot changes. Each
//! address belongs into one of the buckets, which tells the slots that may have it.
#![tactic(auto)]

mod buckets;
mod cache;
mod slots;
mod wiping;

#[doc(hidden)]
pub use buckets::Bucket;
pub use cache::{NodeCache, Put};
#[doc(hidden)]
pub use slots::{CachedNode, Slot};
pub use wiping::wipe_entries;

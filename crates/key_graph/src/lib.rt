//! Which pages a chain of opening reaches: the adversary's view of a record that only grows.
//!
//! A key opens a page at an address, and yields the keys in the entries there; each of them is tried on every page.
//! The functions of these laws do nothing: each has its law as its contract.
//!
//! A [`KeyList`] is what chains may begin with.
//!
//! A [`Trace`] says what stands at each address, as certificates tell it, with no page and no key. [`reached`] lists the
//! addresses to which its chains of children lead.
#![tactic(auto)]

mod keys;
mod laws;
mod reach;
mod traces;

pub use keys::KeyList;
pub use laws::{
    chains_are_found, earlier_map, joined_maps, map_below, own_keys, reaches_by_one,
    reaches_exactly, reaches_no_more,
};
pub use reach::reached;
pub use traces::{Trace, TraceEntry};

//! The tree on the medium: looking for a block, and listing what there is.
//!
//! A look-up goes down from a node to the leaf of a block, by one page a level at most, and by none where a cache keeps
//! the node. A node that is cached still has to fit the place that is asked for.
#![tactic(auto)]

mod branches;
mod entry_list;
mod finding;
mod gathering;
mod lacking;
mod laws;
mod list_laws;
mod listing;
mod looking;
mod reader;
mod refusals;
mod turns;
mod walking;

pub use entry_list::Entries;
pub use finding::find;
pub use lacking::lacks_cached;
pub use laws::{
    balance, found_is_mapped, sees_the_pages, stands_over_more_pages, stopped_is_wrong,
};
pub use list_laws::{
    lists_few, lists_in_order, lists_the_tree, no_level_above, one_listing, one_place,
};
pub use listing::{addresses, entries};
pub use reader::NodeReader;
pub use refusals::WalkRefusal;
pub use turns::fits;

//! The shadowed commit: the nodes of a tree that are in memory become a new tree beside the old one.
//!
//! They are sealed in post-order, each after all that is below it, at consecutive addresses from the head on and each under
//! a key of its own; their pages are appended and synced. What an update left on the medium is not written again: the new
//! nodes name it where it is. Then the next root record is known, and with it in the cell the new tree stands; until then
//! the old one does. All memory that a commit takes is taken before the first key is drawn, its certificate's line too: for
//! the addresses and children of all new nodes follow from the shape alone.
#![tactic(auto)]

mod certifying;
mod laws;
mod planning;
mod prepared;
mod preparing;
mod refusals;
mod sealing;

pub use laws::{changes_stand, commit_differs};
pub use prepared::Prepared;
pub use preparing::prepare;
pub use refusals::CommitRefusal;

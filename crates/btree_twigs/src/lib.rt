//! Twigs: the nodes of a tree that are in memory, over those that are still on the medium.
//!
//! A twig's children are in memory themselves, or kept: named by the address and the key of their page. A look-up, an
//! insertion and a removal speak of the list of kept places from left to right; what stands on the pages there is no
//! matter of this crate. An update reads nothing and takes no memory: what it may need is in memory before it begins.
#![tactic(auto)]

mod finding;
mod lists;
mod putting;
mod taking;
mod twigs;
mod wiping;

pub use finding::find;
pub use putting::{put, put_top};
pub use taking::{take, take_top};
pub use twigs::{Child, Spot, Twig, addr_of, end_of, level_of, low_of, place};
pub use wiping::{blank, wipe};

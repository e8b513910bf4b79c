//! The making, the upgrading and the erasing of a block device that forgets, over a medium that keeps every page.
//!
//! A device of any order and number of blocks is made as one empty leaf and the root record that names it, made one of version 2 by a new
//! tree over copies of its data records, and erased by clearing the root cell. Each takes effect in one step: a loss of power at any moment leaves
//! what there was before, or what the call makes.
#![tactic(auto)]

mod certifying;
mod copying;
mod erasing;
mod formatting;
mod preparing;
mod publishing;
mod refusals;
mod rewriting;
mod surveying;
mod upgrading;

pub use erasing::{clear, erase};
pub use formatting::format;
pub use refusals::{EraseRefusal, FormatRefusal, UpgradeRefusal};
pub use upgrading::upgrade;

//! A medium in memory that is written once: each page that was ever pushed stays recorded, and a
//! loss of power can only change what a page reads as that was not synced.
#![tactic(auto)]

mod medium;
mod page_list;
mod want;

pub use medium::MediumTrace;
pub use page_list::{PAGE, Pages};
pub use want::Memory;

//! What an adversary would open now, who has the root record and every page that was ever handed over.
//!
//! Each key that a chain of opening yields is tried on every page, whatever addresses stand in the nodes: on hostile pages
//! too the report has exactly what such a chain comes to, once each, in order.
//!
//! It takes near linear time all the same. A key opens a page at an address exactly where the first 16 bytes of its keystream
//! are those that the page wants there. So each page is read once and kept as these 16 bytes; a key then needs one
//! block of keystream and one look-up, and only the pages that it opens are read once more, and unsealed.
#![tactic(auto)]

mod index;
mod laws;
mod opened;
mod paging;
mod refusals;
mod report;
mod seizing;
mod work;

pub use laws::{a_seizure_counts_mapped_blocks, counted_by_address};
pub use opened::Opened;
pub use paging::{seize_pages, seize_pages_all};
pub use refusals::SeizeRefusal;
pub use report::Report;
pub use seizing::{seize, seize_all};

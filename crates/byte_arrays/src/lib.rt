//! An array of bytes over blocks of 4,096 bytes: which blocks a range of bytes touches, which it
//! covers, the parts of it that lie in one block each, and what reads and writes of these parts
//! make of the array.
#![tactic(auto)]

mod laws;
mod parts;
mod ranges;

pub use laws::{parts_follow, reads_join, touched_and_covered, writes_stay_in_their_range};
pub use parts::Part;
pub use ranges::{covered, touched};

/// How many bytes a block has.
const BLOCK: u64 = 4096;

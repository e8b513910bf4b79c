//! The table of a device with volumes: the 4,096 bytes of its block 0.
//!
//! A volume is a range of blocks with a name. The table has up to 64 entries of 64 bytes: the length
//! of a name (1 byte), the name (47 bytes, zeros behind it), the first block (8 bytes) and the number
//! of blocks (8 bytes), highest byte first; zeros follow. Entries ascend and do not overlap, names are
//! distinct, and block 0 is in no volume.
#![tactic(auto)]

mod decoding;
mod encoding;
mod gaps;
mod laws;
mod name;
mod table;
mod volume;

pub use decoding::decode;
pub use encoding::encode;
pub use laws::{one_spelling, ranges_are_disjoint};
pub use name::{Name, is_name};
pub use table::{BLOCK, MOST, Table};
pub use volume::Volume;

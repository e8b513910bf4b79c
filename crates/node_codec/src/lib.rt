//! Records: the 4,128 bytes of a data record or a node, with one spelling for each value.
//!
//! A record's first 32 bytes are its head: the stamp `SDBTREC1`, its own address (8 bytes), its kind
//! (1 for a data record, 2 for a node), its level, the number of its entries (2 bytes), four zero bytes
//! and its block (8 bytes). The content of a data record follows, or the entries of a node, of 48 bytes
//! each, and zeros. All numbers have their highest byte first.
//!
//! A node of version 2 has the kind 3, and its entries have 80 bytes each: behind the key of a child stands
//! the digest of the child's page. So it has 48 entries at most.
#![tactic(auto)]

mod body;
mod decoding;
mod encoding;
mod entries;
mod head;
mod laws;

pub use body::{Body, Entry, NodeBody};
pub use decoding::{decode, decode_block, decode_node};
pub use encoding::{encode_block, encode_block_over, encode_node, fits_node};
pub use laws::one_spelling;

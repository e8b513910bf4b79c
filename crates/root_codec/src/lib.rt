//! The root record of a device: 128 bytes that name its tree, with one spelling for each value.
#![tactic(auto)]

mod decoding;
mod encoding;
mod root;

pub use decoding::decode_root;
pub use encoding::encode_root;
pub use root::{Root, one_spelling};

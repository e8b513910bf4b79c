//! Hex text of whole blocks: loops that work on many digits at once.
#![tactic(auto)]

mod decoding;
mod encoding;

pub use decoding::decode;
pub use encoding::encode_lower;

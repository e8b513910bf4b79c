//! Seals records: a page is the record's body with the keystream of the record's own key mixed in.
//!
//! The keystream is that of ChaCha20 under the 32 bytes of the key as they stand: stream 0 from its first
//! word, each word of 32 bits least byte first, 1,032 words in all. [`seal`] spends the key of a
//! [`sdbt_base::KeySlot`], so one key seals one record. [`unseal`] mixes the same keystream in once more,
//! and [`stamped`] tells whether a key opens a page at an address. [`stream_front`] and [`front_wanted`]
//! part that test in two, a side for the key and a side for the page, so that many keys can be tried on
//! many pages.
//!
//! All of them are total on pages of the right size, and refuse nothing.
#![tactic(auto)]

mod keystream;
mod records;

pub use keystream::stream_front;
pub use records::{front_wanted, seal, stamped, unseal};

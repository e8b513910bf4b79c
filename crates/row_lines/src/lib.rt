//! Lines of rows: their words, bytes as words, what a client of NBD says in lines, and what it is told.
//!
//! `docs/rows.md` says what stands in them.
#![tactic(auto)]

mod clients;
mod runs;
mod told;
mod words;

pub use clients::{Awaited, Client};
pub use runs::{read_bytes, write_bytes};
pub use told::write_told;
pub use words::{LineFault, byte, end, number, word};

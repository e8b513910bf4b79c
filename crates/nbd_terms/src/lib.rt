//! What a run over NBD promises: which reply belongs to which request of an array of bytes, and
//! what a run leads through. Definitions, and laws as the clauses of functions that do nothing.
#![tactic(auto)]

mod laws;

pub use laws::{
    parts_are_written, parts_lead_on, trim_clears_the_blocks_it_covers, trims_follow,
    write_puts_its_bytes,
};

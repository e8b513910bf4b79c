//! Certificates as text.
#![tactic(auto)]

mod laws;
mod reading;
mod writing;

pub use laws::{
    an_entry_adds_its_certificate, no_first_part_is_read, one_certificate, one_ledger,
    what_is_written_is_one_line, what_is_written_is_read,
};
pub use reading::read_line;
pub use writing::line;

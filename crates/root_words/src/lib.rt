//! Words of a command line that name files of root records.
//!
//! A root record leads to every key of its time. On a command line it would be seen by whoever lists processes, and be
//! kept by a shell: so a word `@FILE` has it read from a file.
#![tactic(auto)]

mod record_files;
mod refusals;
mod spelling;

pub use record_files::read_record;
pub use refusals::{NoRecord, NotSpelled};
pub use spelling::{is_seizure, spelled_words};

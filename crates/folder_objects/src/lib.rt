//! What a program makes of its words and of folders before it serves a device in them, and what it says on standard error.
//!
//! The platform is made by `open_in_folders` of `folder_files`, which has the locks, or by `view_in_folders` where nothing is changed.
#![tactic(auto)]

mod ended;
mod failures;
mod key_source;
mod ledger_file;
mod not_ready;
mod open_to_others;
mod watched;
mod words;

pub use ended::Ended;
pub use failures::reason_of;
pub use key_source::{RANDOM, open_keys};
pub use ledger_file::{LedgerFile, open_ledger};
pub use not_ready::NotReady;
pub use open_to_others::tell_open_cell;
pub use watched::Watched;
pub use words::{print_texts, words_of};

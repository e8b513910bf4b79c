//! What tests of a platform over the files of folders stand on: a double for these files, folders that a test makes, and scripts of
//! calls. It stands apart so that it is proved once, beside those tests.
#![tactic(auto)]

mod doubles;
mod folders;
mod script;

pub use doubles::{CallLog, ENDLESS, LoggedFile, LoggedFiles, TEARING};
pub use folders::{
    APART, CELL, FOLDER, fill_apart, left, length_and_mode, make_apart, make_folder, open, view,
};
pub use script::{comes_true, first_unlike};

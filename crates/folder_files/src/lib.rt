//! The files of a device in folders, with a record of the calls on them.
#![tactic(auto)]

mod cell_folder;
mod honest_files;
mod lock_file;
mod look_files;
mod look_pages;
mod looking;
mod media_file;
mod opening;
mod own_file;
mod record;
mod root_file;
mod std_files;
mod std_pages;

pub use honest_files::{HonestFiles, open_honest, open_honest_in_place, view_honest};
pub use lock_file::LockFile;
pub use look_files::LookFiles;
pub use look_pages::LookPages;
pub use looking::{look_at_pages, view_in_folders};
pub use opening::{files_in_folders, open_in_folders, pages_in_folder};
pub use own_file::open_or_make;
pub use record::Record;
pub use std_files::StdFiles;
pub use std_pages::StdPages;

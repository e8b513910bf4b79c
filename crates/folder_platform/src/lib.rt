//! A platform over the pages of a folder and the cell of a root record, told by a record of the calls on both.
#![tactic(auto)]

mod cell_calls;
mod file_call;
mod folder_calls;
mod folder_platform;
mod folder_view;
mod found;
mod in_folder;
mod look_calls;
mod page_calls;
mod refusals;

pub use cell_calls::CellCalls;
pub use file_call::FileCall;
pub use folder_calls::FolderCalls;
pub use folder_platform::FolderPlatform;
pub use folder_view::FolderView;
pub use found::{FileKind, Found};
pub use in_folder::{InFolder, record_in};
pub use look_calls::LookCalls;
pub use page_calls::PageCalls;
pub use refusals::{FolderFile, OpenRefusal, told};

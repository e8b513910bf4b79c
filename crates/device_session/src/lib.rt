//! A session on a device of any number of levels: an array of blocks with changes that are the device's only with a commit.
#![tactic(auto)]

mod committing;
mod laws;
mod reading;
mod readying;
mod refusals;
mod session;
mod trimming;
mod writing;

pub use laws::{changes_need_pages, more_pages_leave_it_open, stands_under_session};
pub use refusals::{
    CommitFault, CommitReply, MountRefusal, ReadRefusal, TrimRefusal, WriteRefusal,
};
pub use session::Session;

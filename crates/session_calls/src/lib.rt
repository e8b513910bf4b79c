//! The calls of a session as a run needs them that goes on after a refusal: each says what it keeps, whom it blames, what it adds, and
//! from which state it leads to which.
#![tactic(auto)]

mod committing;
mod entry;
mod mounting;
mod reading;
mod stops;
mod trimming;
mod upgrading;
mod writing;

pub use committing::{Committed, commit_session};
pub use entry::check_cell;
pub use mounting::mount_session;
pub use reading::read_block;
pub use stops::DeviceStop;
pub use trimming::trim_block;
pub use upgrading::{UpgradeReply, upgrade_device};
pub use writing::write_block;

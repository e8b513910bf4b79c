//! The platform under a device: a medium that keeps every page ever handed to it, and one root cell.
#![tactic(auto)]

mod failures;
mod mem_platform;
mod platforms;
mod store;

pub use failures::{CallKind, Failure};
pub use mem_platform::MemPlatform;
pub use platforms::Platform;

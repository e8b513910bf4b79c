//! Certificates: what a commit says of the addresses that it added, let go and never kept.
#![tactic(auto)]

mod added;
mod certs;
mod laws;
mod ordering;

pub use added::{Added, AddedList};
pub use certs::Cert;
pub use laws::trees_are_traces;

//! The versions of records: in version 2 a node names, behind the key of each child, the digest of the child's page.
#![tactic(auto)]

mod keys;
mod versions;

pub use keys::{is_key, key_with_digest, plain_key, put_digest, put_key};
pub use versions::{entry_size, is_of_version, is_version, most_entries, version_of};

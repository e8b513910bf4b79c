//! A list of keys. A contract sees it as the list of their bytes.
use sdbt_base::{Key, Listed};

/// Keys, in the order in which they came.
pub type KeyList = Listed<Key>;

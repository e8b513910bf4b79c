use node_codec::Entry;
use sdbt_base::Listed;

/// Entries of leaves: blocks, with where their data records are and under which keys.
pub type Entries = Listed<Entry>;

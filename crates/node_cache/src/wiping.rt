//! Zeros over entries that are let go.
ghost use Rattle.std.specs.Prelude.{◌≡◌, []};

use arrayvec::ArrayVec;
use node_codec::Entry;

/// Lets go of the entries of a node, and writes zeros over them in their place. Behind them its room has zeros already: an
/// `ArrayVec` keeps a blank element wherever it has none, and writes one over each that it lets go.
pub fn wipe_entries(entries: &mut ArrayVec<Entry, 64>)
    ensures { entries.new.items ≡ [] }
{
    entries.clear();
}

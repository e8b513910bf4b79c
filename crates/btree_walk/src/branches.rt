ghost use Rattle.std.specs.Prelude.{◌≡◌, ◌<◌, ◌≤◌, ◌-◌, Some, length, slice_get};
ghost use Rattle.btree_walk.specs.Nodes.{branches};

use crate::turns::end_of;
use node_codec::Entry;
use page_store::Want;
use sdbt_base::Key;

/// What is wanted below an entry of a node, and the key of its page.
#[derive(Clone, Copy)]
pub(crate) struct Branch {
    pub(crate) want: Want,
    pub(crate) key: Key,
}

/// What is wanted below the entry at a place of a node.
pub(crate) fn branch_at(want: &Want, entries: &[Entry], place: usize) -> Branch
    requires inner { 1 ≤ want.now.level }
    requires within { place < length entries.now }
    ensures { slice_get (branches want.now.most (want.now.level - 1) want.now.high entries.now) place ≡ Some result }
{
    let entry = entries[place];
    let high = end_of(entries, place + 1, want.high);
    Branch {
        want: Want::of_child(want.most, want.level - 1, &entry, high),
        key: entry.key,
    }
}

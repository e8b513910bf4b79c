//! What was opened of a page.
ghost use Rattle.std.specs.Prelude.{◌≡◌};
ghost use Rattle.seizure.specs.Opened.{IsOrderOf, count_of_kind, count_of_nodes, is_node_kind};

/// What the body at an address says of itself. It may be any: nothing else of it was looked at.
#[derive(Clone, Copy, Debug, PartialEq, Eq, PartialOrd, Ord)]
pub struct Opened {
    /// The address of the page.
    pub addr: u64,
    /// The kind byte: 1 for a data record, 2 for a node, 3 for one of the second version, else no kind that a device writes.
    pub kind: u8,
    /// The block field: of a data record the block, of a node 0.
    pub block: u64,
}

impl Opened {
    /// Whether it is a node, of either version.
    pub fn is_node(&self) -> bool
        ensures { result ≡ is_node_kind self.now.kind }
    {
        self.kind == 2 || self.kind == 3
    }
}

/// How many items are of a kind.
pub(crate) fn count_of_kind(opened: &[Opened], kind: u8) -> u64
    ensures { result ≡ count_of_kind kind opened.now }
{
    let mut count = 0;
    for item in opened {
        if item.kind == kind {
            count += 1;
        }
    }
    count
}

/// How many items are nodes, of either version.
pub(crate) fn count_of_nodes(opened: &[Opened]) -> u64
    ensures { result ≡ count_of_nodes opened.now }
{
    let mut count = 0;
    for item in opened {
        if item.is_node() {
            count += 1;
        }
    }
    count
}

/// Brings the items into order, and drops repeats.
pub(crate) fn ascend(opened: &mut Vec<Opened>)
    ensures { IsOrderOf opened.old.items opened.new.items }
{
    opened.sort_unstable();
    opened.dedup();
}

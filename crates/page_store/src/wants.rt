ghost use Rattle.std.specs.Prelude.{◌≡◌, ◌↔◌, ◌<◌, ◌≤◌, ◌-◌, All, IfSome, IsTrue, length, map, slice_get};
ghost use Rattle.std.specs.List.Sorted.{IsStrictlyIncreasing};
ghost use Rattle.page_store.specs.Places.{root_want, child_want, block_want, IsNodeWanted};

use node_codec::Entry;
use root_codec::Root;

/// Which record is wanted at a place of the tree.
///
/// At level 0 it is the data record of block `low`. Else it is a node of that level with `least` to `most`
/// entries, whose lows are at least `low` and below `high`; the first low of an inner node, one above
/// level 1, is `low`.
#[derive(Clone, Copy, Debug, PartialEq, Eq)]
pub struct Want {
    /// The address of its page.
    pub addr: u64,
    /// Its level: 0 for a data record, 1 for a leaf, up to 20.
    pub level: u8,
    /// The block, or the lower bound of a node.
    pub low: u64,
    /// The upper bound of a node, which its lows don't reach.
    pub high: u64,
    /// The least number of entries.
    pub least: u16,
    /// The greatest number of entries.
    pub most: u16,
}

impl Want {
    /// The root node of a tree: a leaf may be empty, an inner node has two entries at least.
    pub fn of_root(root: &Root) -> Want
        ensures { result ≡ root_want root.now }
    {
        Want {
            addr: root.addr,
            level: root.level,
            low: 0,
            high: root.blocks,
            least: if root.level == 1 { 0 } else { 2 },
            most: root.order,
        }
    }

    /// What stands below an entry, at this level: its bounds are the entry's low and `high`, and it has
    /// half as many entries as the order says, at least.
    pub fn of_child(order: u16, level: u8, entry: &Entry, high: u64) -> Want
        ensures { result ≡ child_want order level entry.now high }
    {
        Want {
            addr: entry.addr,
            level,
            low: entry.low,
            high,
            least: order / 2,
            most: order,
        }
    }

    /// The data record of a block.
    pub fn of_block(addr: u64, block: u64) -> Want
        ensures { result ≡ block_want addr block }
    {
        Want {
            addr,
            level: 0,
            low: block,
            high: 0,
            least: 0,
            most: 0,
        }
    }

    /// Whether a node of this level and these entries is what is wanted.
    pub fn is_met_by(&self, level: u8, entries: &[Entry]) -> bool
        requires { IsStrictlyIncreasing (map (λ e. e.low) entries.now) }
        ensures { IsTrue result ↔ IsNodeWanted self.now level entries.now }
    {
        let count = entries.len();
        level == self.level
            && self.least as usize <= count
            && count <= self.most as usize
            && self.bounds(entries)
            && (level < 2 || self.begins(entries))
    }

    /// Whether each low is within the bounds: where they ascend the first and the last one tell.
    fn bounds(&self, entries: &[Entry]) -> bool
        requires { IsStrictlyIncreasing (map (λ e. e.low) entries.now) }
        ensures { IsTrue result ↔
            (All (λ e. self.now.low ≤ e.low) entries.now × All (λ e. e.low < self.now.high) entries.now) }
    {
        self.starts(entries) && self.ends(entries)
    }

    /// Whether the first low, if there is one, is not below the lower bound.
    fn starts(&self, entries: &[Entry]) -> bool
        ensures { IsTrue result ↔ IfSome (slice_get entries.now 0) (λ e. self.now.low ≤ e.low) }
    {
        entries.first().is_none_or(|e| self.low <= e.low)
    }

    /// Whether the last low, if there is one, is below the upper bound.
    fn ends(&self, entries: &[Entry]) -> bool
        ensures { IsTrue result ↔ IfSome (slice_get entries.now (length entries.now - 1)) (λ e. e.low < self.now.high) }
    {
        entries.last().is_none_or(|e| e.low < self.high)
    }

    /// Whether the first low, if there is one, is the lower bound.
    fn begins(&self, entries: &[Entry]) -> bool
        ensures { IsTrue result ↔ IfSome (slice_get entries.now 0) (λ e. e.low ≡ self.now.low) }
    {
        entries.first().is_none_or(|e| e.low == self.low)
    }
}

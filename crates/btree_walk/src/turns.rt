ghost use Rattle.std.specs.Prelude.{◌≡◌, ◌↔◌, ◌<◌, ◌≤◌, IfSome, IsTrue, drop, length, map, slice_get};
ghost use Rattle.std.specs.List.Sorted.{IsStrictlyIncreasing, IsPartitionPoint};
ghost use Rattle.page_store.specs.Tree.{bound_of};
ghost use Rattle.btree_walk.specs.Ways.{IsEntryOf, IsTurn};
ghost use Rattle.btree_walk.specs.Sights.{NodeFits};
ghost use Rattle.btree_walk.specs.Finds.{AsksFor};

use node_codec::{Entry, NodeBody, fits_node};
use page_store::Want;
use record_versions::version_of;
use sdbt_base::Key;

/// What a node says of a block.
#[derive(Clone, Copy)]
pub(crate) enum Turn {
    /// The node is a leaf: its entry of the block, if it has one.
    Found(Option<Entry>),
    /// The way of the block goes on below one of its entries.
    Below(Want, Key),
}

/// What a node that fits says of a block.
pub(crate) fn turn_at(want: &Want, key: &Key, node: &NodeBody, block: u64) -> Turn
    requires fits { NodeFits want.now key.now node.now }
    requires asks { AsksFor want.now block }
    ensures { IsTurn want.now node.now.entries.items block result }
{
    if want.level == 1 {
        Turn::Found(entry_of(&node.entries, block))
    } else {
        way_of(want, &node.entries, block)
    }
}

/// The entry of a leaf for a block, if it has one.
fn entry_of(entries: &[Entry], block: u64) -> Option<Entry>
    requires { IsStrictlyIncreasing (map (λ e. e.low) entries.now) }
    ensures { IsEntryOf entries.now block result }
{
    let reach = reach_of(entries, block);
    if reach == 0 {
        return None;
    }
    let entry = entries[reach - 1];
    if entry.low == block {
        Some(entry)
    } else {
        None
    }
}

/// The entry of an inner node below which a block lies, as the place where to look next.
fn way_of(want: &Want, entries: &[Entry], block: u64) -> Turn
    requires level { 2 ≤ want.now.level }
    requires ascend { IsStrictlyIncreasing (map (λ e. e.low) entries.now) }
    requires first { IfSome (slice_get entries.now 0) (λ e. e.low ≤ block) }
    requires some { 1 ≤ length entries.now }
    requires below { block < want.now.high }
    ensures { IsTurn want.now entries.now block result }
{
    let reach = reach_of(entries, block);
    let child = entries[reach - 1];
    let bound = end_of(entries, reach, want.high);
    Turn::Below(
        Want::of_child(want.most, want.level - 1, &child, bound),
        child.key,
    )
}

/// Where what lies below the entries before a place ends: at the low of the entry there, or with the node.
pub(crate) fn end_of(entries: &[Entry], place: usize, high: u64) -> u64
    ensures { result ≡ bound_of (drop place entries.now) high }
{
    match entries.get(place) {
        Some(next) => next.low,
        None => high,
    }
}

/// How many entries have a low that is at most the block. They come first.
fn reach_of(entries: &[Entry], block: u64) -> usize
    requires { IsStrictlyIncreasing (map (λ e. e.low) entries.now) }
    ensures bound { result ≤ length entries.now }
    ensures point { IsPartitionPoint (λ e. e.low ≤ block) (λ e. block < e.low) entries.now result }
{
    entries.partition_point(|e| e.low <= block)
}

/// Whether a node is of the version that the key of a place says, in range there, and what is wanted there.
pub fn fits(want: &Want, key: &Key, node: &NodeBody) -> bool
    ensures { IsTrue result ↔ NodeFits want.now key.now node.now }
{
    let version = version_of(key);
    node.version == version
        && fits_node(want.addr, node.level, version, &node.entries)
        && want.is_met_by(node.level, &node.entries)
}

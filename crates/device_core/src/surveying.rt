//! What an upgrade reads of a device before it draws a key.
ghost use Rattle.std.specs.Prelude.{◌≡◌, ◌↔◌, ◌<◌, ◌+◌, All, IfOk, OnErr, OnOk, IsTrue, map};
ghost use Rattle.std.specs.List.Sorted.{IsStrictlyIncreasing};
ghost use Rattle.root_codec.specs.RootRecord.{FitsRoot};
ghost use Rattle.page_store.specs.Reading.{ReadsCell};
ghost use Rattle.page_store.specs.Roots.{IsRootWithin};
ghost use Rattle.btree_walk.specs.Looks.{OnlyLooks};
ghost use Rattle.device_core.specs.Upgrading.{needed_of_root, order_above, ReadsCut};
ghost use Rattle.device_core.specs.Surveying.{IsBeginCause, IsListing, IsSurvey, IsSurveyCause, ReadsTwice};

use crate::refusals::UpgradeRefusal;
use btree_walk::{addresses, entries};
use node_codec::Entry;
use page_store::{Buffers, current};
use platform::Platform;
use root_codec::Root;
use sdbt_base::Addrs;
use std::alloc::Global;
use tree_build::built;

/// The most entries of a node of version 2.
const MOST_ENTRIES: u16 = 48;

/// The records of a device: those that a tree has.
#[derive(Drop)]
pub(crate) struct Survey {
    /// The entries of the leaves, in order.
    pub(crate) items: Vec<Entry>,
    /// The addresses of the nodes.
    pub(crate) nodes: Addrs,
}

/// The root record in the cell, where an upgrade can begin on it.
pub(crate) fn begin<P: Platform>(platform: &mut P) -> Result<Root, UpgradeRefusal>
    ensures cause { IsBeginCause P.Platform platform.old platform.new result }
    ensures reads_cell { ReadsCell P.Platform platform.old platform.new }
    ensures once { P.tells → OnOk result (P.reads platform.new ≡ P.reads platform.old + 1) }
{
    let Some(root) = current(platform)? else {
        return Err(UpgradeRefusal::NoDevice);
    };
    if root.version == 2 {
        return Err(UpgradeRefusal::AlreadyUpgraded);
    }
    let needed = pages_over(&root);
    let free = platform.capacity() - platform.head();
    if needed > free {
        return Err(UpgradeRefusal::Full { needed, free });
    }
    Ok(root)
}

/// How many pages an upgrade adds.
fn pages_over(root: &Root) -> u64
    requires { FitsRoot root.now }
    ensures { result ≡ needed_of_root root.now }
{
    root.mapped + built(order_over(root), root.mapped)
}

/// The order of the new tree.
pub(crate) fn order_over(root: &Root) -> u16
    ensures { result ≡ order_above root.now.order }
{
    root.order.min(MOST_ENTRIES)
}

/// Lists the records of the tree of a root record.
pub(crate) fn list_records<P: Platform>(
    alloc: Global,
    platform: &mut P,
    root: &Root,
    buffers: &mut Buffers,
) -> Result<Survey, UpgradeRefusal>
    requires within { IsRootWithin (P.head platform.old) root.now }
    ensures listed { IfOk result (IsSurvey P.tells (P.history platform.old).present.readable root.now) }
    ensures cause { IsSurveyCause P.Platform platform.old platform.new root.now result }
    ensures reads { P.tells → IfOk result (λ _. ReadsTwice (P.history platform.old).present.readable root.now (P.reads platform.old) (P.reads platform.new)) }
    ensures cut { P.tells → OnErr result (ReadsCut (P.history platform.old).present.readable root.now (P.reads platform.old) (P.reads platform.new)) }
    ensures looks { OnlyLooks P.Platform platform.old platform.new }
{
    let list = entries(alloc, platform, root, buffers)?;
    let items = list.into_vec();
    if !is_listing(root, &items) {
        return Err(UpgradeRefusal::BadRecord { addr: root.addr });
    }
    let nodes = addresses(alloc, platform, root, buffers)?;
    Ok(Survey { items, nodes })
}

/// Whether there are as many entries as the root record says, in the order of its blocks, and all lie below the root node. What a walk
/// lists is so; this is known of it whatever the platform tells.
fn is_listing(root: &Root, entries: &[Entry]) -> bool
    ensures { IsTrue result ↔ IsListing root.now entries.now }
{
    entries.len() as u64 == root.mapped
        && are_ascending(entries)
        && are_within(entries, root.blocks, root.addr)
}

/// Whether the lows ascend strictly.
fn are_ascending(entries: &[Entry]) -> bool
    ensures { IsTrue result ↔ IsStrictlyIncreasing (map (λ e. e.low) entries.now) }
{
    for i in 1..entries.len() {
        if entries[i - 1].low >= entries[i].low {
            return false;
        }
    }
    true
}

/// Whether the lows are below `blocks`, and the data records below `addr`.
fn are_within(entries: &[Entry], blocks: u64, addr: u64) -> bool
    ensures { IsTrue result ↔ All (λ e. e.low < blocks) entries.now × All (λ e. e.addr < addr) entries.now }
{
    entries.iter().all(|e| e.low < blocks && e.addr < addr)
}

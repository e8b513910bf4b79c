//! All memory of an upgrade, before it draws a key.
ghost use Rattle.std.specs.Prelude.{◌≡◌, ◌≤◌, ◌+◌, IfOk, OnErr, vec_len, vec_capacity};
ghost use Rattle.page_store.specs.Roots.{IsRootWithin};
ghost use Rattle.btree_walk.specs.Looks.{OnlyLooks};
ghost use Rattle.device_core.specs.Upgrading.{needed_of_root, ReadsCut};
ghost use Rattle.device_core.specs.Surveying.{IsSurveyCause, ReadsTwice};
ghost use Rattle.device_core.specs.Preparing.{IsPrepared};

use crate::certifying::upgrade_entry;
use crate::refusals::UpgradeRefusal;
use crate::surveying::{Survey, list_records, order_over};
use node_codec::Entry;
use page_store::Buffers;
use platform::Platform;
use root_codec::Root;
use sdbt_base::{Line, Memory};
use std::alloc::Global;
use tree_build::{Shape, shape};

/// What an upgrade is made with.
#[derive(Drop)]
pub(crate) struct Prepared {
    /// Room for a data record of the old tree.
    pub(crate) source: Buffers,
    /// Room for a record of the new tree.
    pub(crate) target: Buffers,
    /// The entries of the leaves, and room for those of the nodes behind them.
    pub(crate) items: Vec<Entry>,
    /// The nodes of the new tree.
    pub(crate) shape: Shape,
    /// The ledger's entry.
    pub(crate) line: Line,
}

/// Lists the records of the tree of a root record, and takes all memory that its upgrade needs.
pub(crate) fn prepare<P: Platform>(
    alloc: Global,
    platform: &mut P,
    root: &Root,
) -> Result<Prepared, UpgradeRefusal>
    requires within { IsRootWithin (P.head platform.old) root.now }
    requires room { P.head platform.old + needed_of_root root.now ≤ P.capacity platform.old }
    ensures prepared { IfOk result (IsPrepared P.tells (P.history platform.old).present.readable (P.head platform.old) root.now) }
    ensures cause { IsSurveyCause P.Platform platform.old platform.new root.now result }
    ensures reads { P.tells → IfOk result (λ _. ReadsTwice (P.history platform.old).present.readable root.now (P.reads platform.old) (P.reads platform.new)) }
    ensures cut { P.tells → OnErr result (ReadsCut (P.history platform.old).present.readable root.now (P.reads platform.old) (P.reads platform.new)) }
    ensures looks { OnlyLooks P.Platform platform.old platform.new }
{
    let mut source = Buffers::new(alloc)?;
    let target = Buffers::new(alloc)?;
    let Survey { items, nodes } = list_records(alloc, platform, root, &mut source)?;
    let shape = shape(alloc, order_over(root), items.len())?;
    let line = upgrade_entry(alloc, root, platform.head(), &shape, &items, nodes)?;
    let items = with_room(items, shape.len())?;
    Ok(Prepared {
        source,
        target,
        items,
        shape,
        line,
    })
}

/// The entries, with room for so many more.
fn with_room(entries: Vec<Entry>, more: usize) -> Result<Vec<Entry>, Memory>
    ensures items { IfOk result (λ items. items.items ≡ entries.items) }
    ensures room { IfOk result (λ items. vec_len entries + more ≤ vec_capacity items) }
{
    let mut items = entries;
    items.reserve(more)?;
    Ok(items)
}

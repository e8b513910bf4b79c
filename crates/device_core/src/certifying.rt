//! The ledger's entries of a format and of an upgrade.
ghost use Rattle.std.specs.Prelude.{◌≡◌, ◌≤◌, ◌<◌, ◌+◌, ◌^◌, ◌++◌, IfOk, length, map};
ghost use Rattle.page_store.specs.Roots.{IsRootWithin};
ghost use Rattle.tree_build.specs.Shape.{shape_of};
ghost use Rattle.device_core.specs.Certifying.{IsFirstEntry};
ghost use Rattle.device_core.specs.Upgrading.{needed_of_root, order_above};
ghost use Rattle.device_core.specs.UpgradeCalls.{IsUpgradeEntry};

use crate::surveying::order_over;
use cert_codec::line;
use cert_maker::{Added, AddedList, Cert};
use node_codec::Entry;
use root_codec::Root;
use sdbt_base::{Addrs, Line, Memory};
use std::alloc::Global;
use tree_build::{Shape, plan};

/// The ledger's entry of a format that puts an empty leaf at this address, behind all pages that there are: it adds that leaf, and
/// lets go of nothing.
pub(crate) fn first_entry(alloc: Global, addr: u64) -> Result<Line, Memory>
    requires { addr < 2 ^ 32 }
    ensures { IfOk result (IsFirstEntry addr) }
{
    let mut added = AddedList::new(alloc);
    added.push(Added {
        addr,
        block: None,
        children: Addrs::new(alloc),
    })?;
    let cert = Cert::build(alloc, 0, addr, addr + 1, addr, added, &[], &[])?;
    line(alloc, &cert)
}

/// The ledger's entry of an upgrade that begins behind so many pages: it adds what is planned over the entries of the old tree, and lets go of the nodes and
/// the data records of that.
pub(crate) fn upgrade_entry(
    alloc: Global,
    root: &Root,
    head: u64,
    shape: &Shape,
    entries: &[Entry],
    nodes: Addrs,
) -> Result<Line, Memory>
    requires root { IsRootWithin head root.now }
    requires room { head + needed_of_root root.now ≤ 2 ^ 32 }
    requires count { length entries.now ≡ root.now.mapped }
    requires shape { shape.now ≡ shape_of (order_above root.now.order) (length entries.now) }
    ensures { IfOk result (IsUpgradeEntry root.now head entries.now nodes) }
{
    let added = plan(alloc, order_over(root), shape, head, entries)?;
    let gone = with_records(nodes, entries)?;
    let end = head + (entries.len() + shape.len()) as u64;
    let commit = root.commit + 1;
    let cert = Cert::build(alloc, commit, root.head, end, end - 1, added, &gone, &[])?;
    line(alloc, &cert)
}

/// The addresses, and those of the data records of these entries behind them.
fn with_records(nodes: Addrs, entries: &[Entry]) -> Result<Vec<u64>, Memory>
    ensures { IfOk result (λ addrs. addrs.items ≡ nodes ++ map (λ e. e.addr) entries.now) }
{
    let mut addrs = nodes.into_vec();
    for entry in entries {
        addrs.push(entry.addr)?;
    }
    Ok(addrs)
}

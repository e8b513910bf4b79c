ghost use Rattle.std.specs.Prelude.{◌≡◌, ◌<◌, ◌≤◌, ◌+◌, ◌++◌, ◌^◌, ℕ, All, IfOk, map, length};
ghost use Rattle.tree_build.specs.Shape.{IsShaped, shape_of};
ghost use Rattle.tree_build.specs.Nodes.{planned, data_from, nodes_from};
ghost use Rattle.tree_build.specs.Nodes as nodes;

use crate::shapes::Shape;
use cert_maker::{Added, AddedList};
use node_codec::Entry;
use sdbt_base::{Addrs, Memory};
use std::alloc::Global;

/// What a certificate says of a build over the data records of these entries' blocks, the first of them at `base`: of the data records, and of the
/// nodes of the shape behind them. The entries' addresses and keys are no matter.
pub fn plan(
    alloc: Global,
    order: u16,
    shape: &Shape,
    base: u64,
    entries: &[Entry],
) -> Result<AddedList, Memory>
    requires shaped { IsShaped order (length entries.now) }
    requires shape { shape.now ≡ shape_of order (length entries.now) }
    requires base { base < 2 ^ 32 }
    ensures { IfOk result (λ added. added ≡ planned order base (map (λ e. e.low) entries.now)) }
{
    let mut added = AddedList::new(alloc);
    plan_data(alloc, base, entries, &mut added)?;
    plan_nodes(alloc, shape, base, entries.len(), &mut added)?;
    Ok(added)
}

/// Lists data records with consecutive addresses.
fn plan_data(
    alloc: Global,
    base: u64,
    entries: &[Entry],
    added: &mut AddedList,
) -> Result<(), Memory>
    requires { base + length entries.now < 2 ^ 64 }
    ensures { IfOk result (λ _. added.new ≡ added.old ++ data_from base (map (λ e. e.low) entries.now)) }
{
    let mut addr = base;
    for entry in entries {
        added.push(Added {
            addr,
            block: Some(entry.low),
            children: Addrs::new(alloc),
        })?;
        addr += 1;
    }
    Ok(())
}

/// Lists the nodes of a shape, with consecutive addresses behind those of so many data records.
fn plan_nodes(
    alloc: Global,
    shape: &Shape,
    base: u64,
    count: usize,
    added: &mut AddedList,
) -> Result<(), Memory>
    requires room { base + count + length shape.now < 2 ^ 63 }
    requires spans { All (λ s. base + s.first + s.count < 2 ^ 63) shape.now }
    ensures { IfOk result (λ _. added.new ≡ added.old ++ nodes_from base (base + count) shape.now) }
{
    let mut addr = base + count as u64;
    for i in 0..shape.len() {
        let span = shape.at(i);
        let children = addrs_from(alloc, base + span.first as u64, span.count)?;
        added.push(Added {
            addr,
            block: None,
            children,
        })?;
        addr += 1;
    }
    Ok(())
}

/// So many consecutive addresses.
fn addrs_from(alloc: Global, first: u64, count: usize) -> Result<Addrs, Memory>
    requires { first + count < 2 ^ 63 }
    ensures { IfOk result (λ addrs. addrs ≡ nodes.addrs_from first count) }
{
    let mut addrs = Addrs::new(alloc);
    for i in 0..count {
        addrs.push(first + i as u64)?;
    }
    Ok(addrs)
}

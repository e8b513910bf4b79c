//! What a certificate makes of the maps of live addresses.
ghost use Rattle.std.specs.Prelude.{◌≡◌, if◌then◌else◌, ℕ, None, Some, OnOk};
ghost use Rattle.std.specs.Ordering.{nat_cmp};
ghost use Rattle.std.specs.BTreeMap.{get};
ghost use Rattle.key_graph.specs.Trace.{entry_in};
ghost use Rattle.cert_checker.specs.Rules.{is_listed, or_else};
ghost use Rattle.cert_checker.specs.Held.{children_held, live_of, traced_all};
ghost use Rattle.cert_checker.specs.Kept.{parent_or, taker};

use crate::held::{Held, Placed};
use sdbt_base::Memory;
use std::collections::BTreeMap;

/// Takes the gone addresses out.
pub(crate) fn remove_all<V: Drop>(map: &mut BTreeMap<u64, V>, gone: &[u64])
    ensures { (addr : ℕ) → get nat_cmp map.new addr ≡ (if is_listed gone.now addr then None else get nat_cmp map.old addr) }
{
    for addr in gone {
        map.remove(addr);
    }
}

/// Puts the added addresses in, over what was there.
pub(crate) fn insert_all(live: &mut BTreeMap<u64, Held>, added: Vec<Placed>) -> Result<(), Memory>
    ensures { OnOk result ((addr : ℕ) → live_of live.new addr ≡ or_else (entry_in (traced_all added.items) addr) (live_of live.old addr)) }
{
    let mut left = added;
    while let Some(item) = left.pop() {
        live.insert(item.addr, item.held)?;
    }
    Ok(())
}

/// Makes a node the parent of its children.
pub(crate) fn adopt(
    parents: &mut BTreeMap<u64, u64>,
    node: u64,
    children: &[u64],
) -> Result<(), Memory>
    ensures { OnOk result ((addr : ℕ) → get nat_cmp parents.new addr ≡
        (if is_listed children.now addr then Some node else get nat_cmp parents.old addr)) }
{
    for child in children {
        parents.insert(*child, node)?;
    }
    Ok(())
}

/// Makes an added item the parent of its children. A data record has none.
pub(crate) fn adopt_of(parents: &mut BTreeMap<u64, u64>, item: &Placed) -> Result<(), Memory>
    ensures { OnOk result ((addr : ℕ) → get nat_cmp parents.new addr ≡
        (if is_listed (children_held item.now.held) addr then Some item.now.addr else get nat_cmp parents.old addr)) }
{
    match &item.held {
        Held::Data(_) => Ok(()),
        Held::Node(children) => adopt(parents, item.addr, children),
    }
}

/// Makes each added item the parent of its children.
pub(crate) fn adopt_all(parents: &mut BTreeMap<u64, u64>, added: &[Placed]) -> Result<(), Memory>
    ensures { OnOk result ((addr : ℕ) → get nat_cmp parents.new addr ≡ parent_or (taker (traced_all added.now) addr) (get nat_cmp parents.old addr)) }
{
    for i in 0..added.len() {
        adopt_of(parents, &added[i])?;
    }
    Ok(())
}

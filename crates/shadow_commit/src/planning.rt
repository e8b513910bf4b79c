//! What a sealing will append, told before it begins: addresses and children follow from the shape alone.
ghost use Rattle.std.specs.Prelude.{◌≡◌, ◌==◌, ◌<◌, ◌+◌, ◌++◌, [], ◌∷◌, ℕ, List, IfOk, OnOk, if◌then◌else◌};
ghost use Rattle.node_codec.specs.declared.body.Entry.{Entry};
ghost use Rattle.btree_twigs.specs.Stubs.{datum, children_of, nodes, nodes_below, stubs, stubs_below};
ghost use Rattle.shadow_commit.specs.Sealed.{Sealed, Seals, SealsNode};
ghost use Rattle.shadow_commit.specs.CanSeal.{CanSeal, CanSealChild};
ghost use Rattle.shadow_commit.specs.Planned.{AddsOf, new_records};

use btree_twigs::{Child, Twig};
use cert_maker::{Added, AddedList};
use sdbt_base::{Addrs, Memory};
use std::alloc::Global;

/// Lists what a commit adds: the nodes in memory, as they will be sealed from the first address on, and the data records
/// below them whose address is `base` or above. Answers the address of the topmost.
#[cycle(plan)]
pub(crate) fn plan_twig(
    alloc: Global,
    twig: &Twig,
    base: u64,
    first: u64,
    added: &mut AddedList,
) -> Result<u64, Memory>
    requires can { (version : ℕ) × CanSeal version first 4294967296 twig.now }
    ensures addr { (version : ℕ) (at : CanSeal version first 4294967296 twig.now) → IfOk result (λ addr. addr ≡ first + nodes_below at.level twig.now) }
    ensures planned { (version : ℕ) (at : CanSeal version first 4294967296 twig.now) (ns : List Sealed) (addr : ℕ) (key : List ℕ) → SealsNode version (Seals version at.level) at.level first (children_of twig.now) ns addr key
        → IfOk result (λ planned. (addr ≡ planned) × AddsOf base (stubs_below at.level at.high twig.now) ns added.old added.new) }
{
    let mut children = Addrs::new(alloc);
    let mut next = first;
    for child in twig.children.iter() {
        let addr = plan_child(alloc, child, twig.level == 1, base, &mut next, added)?;
        children.push(addr)?;
    }
    added.push(Added {
        addr: next,
        block: None,
        children,
    })?;
    Ok(next)
}

/// Lists what is below a child, which may be one of a leaf, and answers its address.
#[cycle(plan)]
fn plan_child(
    alloc: Global,
    child: &Child,
    in_leaf: bool,
    base: u64,
    next: &mut u64,
    added: &mut AddedList,
) -> Result<u64, Memory>
    requires can { (version : ℕ) × CanSealChild version next.old 4294967296 child.now }
    ensures next { (version : ℕ) (at : CanSealChild version next.old 4294967296 child.now) → IfOk result (λ addr. next.new ≡ next.old + nodes at.level child.now) }
    ensures planned { (version : ℕ) (at : CanSealChild version next.old 4294967296 child.now) → in_leaf ≡ (at.level == 0) → (ns : List Sealed) (e : Entry) → Seals version at.level next.old child.now ns e
        → IfOk result (λ addr. (e.addr ≡ addr) × AddsOf base (stubs at.level at.high child.now) ns added.old added.new) }
{
    match child {
        Child::Kept { low, addr, .. } => {
            plan_kept(alloc, *low, *addr, in_leaf, base, added)?;
            Ok(*addr)
        }
        Child::Grown { twig, .. } => {
            let addr = plan_twig(alloc, twig, base, *next, added)?;
            *next = addr + 1;
            Ok(addr)
        }
    }
}

/// Lists what is kept on the medium where it is the data record of a block, in a leaf, and new.
fn plan_kept(
    alloc: Global,
    block: u64,
    addr: u64,
    in_leaf: bool,
    base: u64,
    added: &mut AddedList,
) -> Result<(), Memory>
    ensures { (key : List ℕ) → OnOk result (added.new ≡ added.old ++ (if in_leaf then new_records base (datum block addr key ∷ []) else [])) }
{
    if in_leaf && addr >= base {
        added.push(Added {
            addr,
            block: Some(block),
            children: Addrs::new(alloc),
        })?;
    }
    Ok(())
}

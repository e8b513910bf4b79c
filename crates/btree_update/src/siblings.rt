ghost use Rattle.std.specs.Prelude.{◌≡◌, ◌↔◌, ◌<◌, ◌≤◌, ◌+◌, ◌-◌, ◌/◌, ℕ, List, [], ◌∷◌, ◌++◌, Option, length, IfOk, IsErrOf, IsTrue};
ghost use Rattle.std.specs.Bool.{OnTrue, OnFalse};
ghost use Rattle.btree_update.specs.declared.refusals.ReadyRefusal.{ReadyRefusal};
ghost use Rattle.btree_update.specs.declared.siblings.Left.TheVariants.{Unmapped, Enough, Short};
ghost use Rattle.btree_twigs.specs.declared.twigs.Child.{Child, out-Child};
ghost use Rattle.btree_twigs.specs.declared.twigs.Twig.{Twig};
ghost use Rattle.btree_twigs.specs.Stubs.{low_of as low_in, children_of, stubs, stubs_below};
ghost use Rattle.sdbt_base.specs.Faults.{TellsOf};
ghost use Rattle.btree_walk.specs.Looks.{Looks};
ghost use Rattle.btree_walk.specs.Sights.{StandsOver};
ghost use Rattle.btree_update.specs.Among.{HaveNodes, CachesAmong};
ghost use Rattle.btree_update.specs.Warm.{StayEarly, OnceDone};
ghost use Rattle.btree_update.specs.Held.{AnyRead, IsReadAs};
ghost use Rattle.btree_update.specs.Holding.{CanHoldBelow, HoldsFew, neighbours_in};
ghost use Rattle.btree_update.specs.Wrong.{IsWrongBeside, IsWrongChild};
ghost use Rattle.btree_update.specs.Beside.{CanRead, LendsFrom, HoldsBeside, IsAfter, loses_for};

use crate::reading::read_node;
use crate::refusals::ReadyRefusal;
use btree_twigs::{Child, Twig, end_of};
use btree_walk::NodeReader;
use page_store::Want;
use platform::Platform;
use sdbt_base::Key;
use std::alloc::Global;

/// What a removal leaves of a node.
#[derive(Clone, Copy)]
pub enum Left {
    /// All, since the block is not mapped.
    Unmapped,
    /// As many children as it must have.
    Enough,
    /// One child fewer than it must have, perhaps.
    Short,
}

/// What a neighbour of a node that is short can do.
#[derive(Drop)]
pub struct Help {
    /// Its node, where that was not in memory.
    pub node: Option<Twig>,
    /// Whether it has a child to spare.
    pub lends: bool,
}

/// Finds out what helps the child before a place of a node, if that will be short, and holds the neighbour that does. Answers what
/// a removal leaves of the node.
pub(crate) fn hold_beside<P: Platform>(
    alloc: Global,
    platform: &mut P,
    reader: &mut NodeReader,
    order: u16,
    twig: &Twig,
    at: usize,
    level: u8,
    high: u64,
    left: Left,
    beside: &mut Vec<Option<Twig>>,
) -> Result<Left, ReadyRefusal>
    requires can { (block : ℕ) × CanHoldBelow order level block high (P.head platform.old) twig.now }
    requires inner { 1 ≤ level }
    requires within { (1 ≤ at) × (at ≤ length (children_of twig.now)) }
    ensures helps { (front : List Child) (c : Child) (back : List Child) → children_of twig.now ≡ front ++ c ∷ back → length front + 1 ≡ at
        → IfOk result (HoldsBeside AnyRead order (level - 1) (length (children_of twig.now)) high front c back beside.old.items beside.new.items left) }
    ensures reads { P.tells → StandsOver (P.history platform.old).present.readable reader.old.cache →
        (front : List Child) (c : Child) (back : List Child) → children_of twig.now ≡ front ++ c ∷ back → length front + 1 ≡ at
        → IfOk result (HoldsBeside (IsReadAs (P.history platform.old).present.readable order) order (level - 1) (length (children_of twig.now)) high front c back beside.old.items beside.new.items left) }
    ensures bad { P.tells → StandsOver (P.history platform.old).present.readable reader.old.cache →
        (front : List Child) (c : Child) (back : List Child) → children_of twig.now ≡ front ++ c ∷ back → length front + 1 ≡ at → (addr : ℕ) → IsErrOf result (ReadyRefusal.BadRecord addr)
        → IsWrongBeside low_in (IsWrongChild (P.history platform.old).present.readable order addr level) high front c back }
    ensures few { IfOk result (λ _. HoldsFew P.Platform 0 1 platform.old platform.new [] [] beside.old.items beside.new.items (left ≡ Unmapped)) }
    ensures caches { CachesAmong P.Platform (λ pages. HaveNodes pages (stubs_below level high twig.now)) platform.old reader.old.cache reader.new.cache }
    ensures early { OnceDone P.Platform (λ pages. HaveNodes pages (stubs_below level high twig.now)) platform.old reader.old.cache result (λ pages places. StayEarly pages places 1 reader.old.cache reader.new.cache) }
    ensures looks { Looks P.Platform 1 platform.old platform.new }
    ensures cause { TellsOf ReadyRefusal.PlatformFault result (P.faults platform.old) (P.faults platform.new) }
{
    match left {
        Left::Unmapped => Ok(Left::Unmapped),
        Left::Enough => {
            keep(None, beside)?;
            Ok(left_of(twig, order, true))
        }
        Left::Short => {
            let other = beside_of(at, twig.children.len());
            let end = end_of(&twig.children, other + 1, high);
            let help = read_help(
                alloc,
                platform,
                reader,
                order,
                &twig.children[other],
                level,
                end,
            )?;
            keep(help.node, beside)?;
            Ok(left_of(twig, order, help.lends))
        }
    }
}

/// The place of the neighbour of the child before a place: the one that follows, or where there is none the one before.
pub(crate) fn beside_of(at: usize, count: usize) -> usize
    requires { (1 ≤ at) × (at ≤ count) × (2 ≤ count) }
    ensures next { at < count → result ≡ at }
    ensures last { at ≡ count → result + 2 ≡ at }
    ensures within { result < count }
{
    if at < count { at } else { at - 2 }
}

/// What is left of a node of which a child is short: with a neighbour that lends as many children as before, else one fewer.
fn left_of(twig: &Twig, order: u16, lends: bool) -> Left
    ensures lends { OnTrue lends (IsAfter order (length (children_of twig.now)) 0 result) }
    ensures merges { OnFalse lends (IsAfter order (length (children_of twig.now)) 1 result) }
{
    let half = order as usize / 2;
    let width = twig.children.len();
    let is_enough = if lends { width >= half } else { width > half };
    if is_enough { Left::Enough } else { Left::Short }
}

/// What is left of a leaf that may have a block's data record.
pub(crate) fn left_of_leaf(twig: &Twig, order: u16, is_mapped: bool) -> Left
    ensures mapped { OnTrue is_mapped (IsAfter order (length (children_of twig.now)) 1 result) }
    ensures unmapped { OnFalse is_mapped (result ≡ Unmapped) }
{
    if is_mapped {
        left_of(twig, order, false)
    } else {
        Left::Unmapped
    }
}

/// Whether a block is mapped.
pub(crate) fn is_mapped(left: Left) -> bool
    ensures { IsTrue result ↔ ¬ (left ≡ Unmapped) }
{
    match left {
        Left::Unmapped => false,
        Left::Enough => true,
        Left::Short => true,
    }
}

/// Whether a node has a child to spare.
fn can_lend(twig: &Twig, order: u16) -> bool
    ensures spare { OnTrue result (order / 2 < length (children_of twig.now)) }
    ensures none { OnFalse result (length (children_of twig.now) ≤ order / 2) }
{
    twig.children.len() > order as usize / 2
}

/// Reads the node of a neighbour, where it isn't in memory.
fn read_help<P: Platform>(
    alloc: Global,
    platform: &mut P,
    reader: &mut NodeReader,
    order: u16,
    child: &Child,
    level: u8,
    high: u64,
) -> Result<Help, ReadyRefusal>
    requires can { CanRead order level high (P.head platform.old) child.now }
    ensures helps { IfOk result (λ h. LendsFrom AnyRead order (level - 1) (loses_for h.lends) high (out-Child child.now) h.node) }
    ensures reads { P.tells → StandsOver (P.history platform.old).present.readable reader.old.cache →
        IfOk result (λ h. LendsFrom (IsReadAs (P.history platform.old).present.readable order) order (level - 1) (loses_for h.lends) high (out-Child child.now) h.node) }
    ensures bad { P.tells → StandsOver (P.history platform.old).present.readable reader.old.cache → (addr : ℕ) → IsErrOf result (ReadyRefusal.BadRecord addr) →
        IsWrongChild (P.history platform.old).present.readable order addr level high child.now }
    // Only for a node that is held something is read.
    ensures few { IfOk result (λ h. P.tells → P.reads platform.new ≤ P.reads platform.old + neighbours_in (h.node ∷ [])) }
    ensures caches { CachesAmong P.Platform (λ pages. HaveNodes pages (stubs level high child.now)) platform.old reader.old.cache reader.new.cache }
    ensures early { OnceDone P.Platform (λ pages. HaveNodes pages (stubs level high child.now)) platform.old reader.old.cache result (λ pages places. StayEarly pages places 1 reader.old.cache reader.new.cache) }
    ensures looks { Looks P.Platform 1 platform.old platform.new }
    ensures cause { TellsOf ReadyRefusal.PlatformFault result (P.faults platform.old) (P.faults platform.new) }
{
    match child {
        Child::Grown { twig, .. } => Ok(Help {
            node: None,
            lends: can_lend(twig, order),
        }),
        Child::Kept { low, addr, key } => {
            let want = Want {
                addr: *addr,
                level,
                low: *low,
                high,
                least: order / 2,
                most: order,
            };
            let twig = read_node(alloc, platform, reader, &want, key)?;
            let lends = can_lend(&twig, order);
            Ok(Help {
                node: Some(twig),
                lends,
            })
        }
    }
}

/// Holds the node of a neighbour, or none.
fn keep(node: Option<Twig>, beside: &mut Vec<Option<Twig>>) -> Result<(), ReadyRefusal>
    ensures kept { IfOk result (λ _. beside.new.items ≡ beside.old.items ++ node ∷ []) }
    ensures memory { (e : ReadyRefusal) → IsErrOf result e → e ≡ ReadyRefusal.Memory }
{
    beside.push(node)?;
    Ok(())
}

ghost use Rattle.std.specs.Prelude.{◌≡◌, ◌<◌, ◌≤◌, ◌+◌, ◌-◌, ◌*◌, length, ℕ, List, [], ◌∷◌, ◌++◌, IfOk, IsErrOf, take};
ghost use Rattle.btree_update.specs.declared.refusals.ReadyRefusal.{ReadyRefusal};
ghost use Rattle.btree_update.specs.declared.siblings.Left.TheVariants.{Unmapped};
ghost use Rattle.sdbt_base.specs.Faults.{TellsOf};
ghost use Rattle.btree_walk.specs.Looks.{Looks};
ghost use Rattle.btree_walk.specs.Sights.{StandsOver};
ghost use Rattle.btree_update.specs.Among.{HaveNodes};
ghost use Rattle.btree_update.specs.Held.{AnyRead, IsReadAs, OnWay, HeldFor, HeldFrom};
ghost use Rattle.btree_twigs.specs.Top.{top_least};
ghost use Rattle.btree_twigs.specs.Stubs.{stubs_below, children_of, stubs};
ghost use Rattle.page_store.specs.Places.{FitsAt};
ghost use Rattle.page_store.specs.Tree.{Mapped};
ghost use Rattle.btree_update.specs.GroveTree.{Maps, MapsFrom};
ghost use Rattle.btree_update.specs.Wrong.{WrongUnder, WrongFrom};
ghost use Rattle.btree_update.specs.Beside.{IsLeft, HelpsBelow, LeftOf, IsMappedBy};
ghost use Rattle.btree_update.specs.Holding.{CanHold, CanHoldBelow, HoldsFew};
ghost use Rattle.btree_update.specs.Finding.{FindsAmong, ChildFinds, IsFoundBy};
ghost use Rattle.btree_update.specs.Warm.{KeepsFromChild, KeepsBelow, FillsFromChild, FillsBelow, CachesWay};

use crate::reading::read_node;
use crate::refusals::ReadyRefusal;
use crate::siblings::{Left, hold_beside, left_of_leaf};
use btree_twigs::{Child, Twig, end_of, low_of, place};
use btree_walk::NodeReader;
use page_store::Want;
use platform::Platform;
use sdbt_base::Key;
use std::alloc::Global;

/// Reads the nodes on the way to a block that are not in memory, from a child down, and holds them, the topmost last, and with
/// them what a removal may need beside the way. The node of the child has `least` children at least: in a root fewer may be than in
/// other nodes. Answers what a removal leaves of the child.
#[cycle(hold)]
pub(crate) fn hold_way<P: Platform>(
    alloc: Global,
    platform: &mut P,
    reader: &mut NodeReader,
    order: u16,
    least: u16,
    block: u64,
    child: &Child,
    level: u8,
    high: u64,
    held: &mut Vec<Twig>,
    beside: &mut Vec<Option<Twig>>,
) -> Result<Left, ReadyRefusal>
    requires can { CanHold order least level block high (P.head platform.old) child.now }
    ensures at_hand { IfOk result (λ left. HeldFrom AnyRead order least block (level - 1) high child.now held.new.items
        × HoldsFew P.Platform level (level - 1) platform.old platform.new held.old.items held.new.items beside.old.items beside.new.items (left ≡ Unmapped)) }
    ensures reads { P.tells → StandsOver (P.history platform.old).present.readable reader.old.cache →
        IfOk result (λ _. HeldFrom (IsReadAs (P.history platform.old).present.readable order) order least block (level - 1) high child.now held.new.items) }
    ensures helps { IfOk result (LeftOf AnyRead order block (level - 1) high child.now held.new.items beside.new.items) }
    ensures beside { P.tells → StandsOver (P.history platform.old).present.readable reader.old.cache →
        IfOk result (LeftOf (IsReadAs (P.history platform.old).present.readable order) order block (level - 1) high child.now held.new.items beside.new.items) }
    ensures bad { P.tells → StandsOver (P.history platform.old).present.readable reader.old.cache → (addr : ℕ) → IsErrOf result (ReadyRefusal.BadRecord addr) →
        WrongFrom (P.history platform.old).present.readable order least block addr (level - 1) high child.now }
    ensures mapped { P.tells → StandsOver (P.history platform.old).present.readable reader.old.cache →
        IfOk result (λ left. (mapped : List Mapped) → MapsFrom (P.history platform.old).present.readable order least (level - 1) high child.now mapped → IsMappedBy block mapped left) }
    ensures finds { P.tells → StandsOver (P.history platform.old).present.readable reader.old.cache →
        IfOk result (IsFoundBy (ChildFinds (FitsAt (P.history platform.old).present.readable) order least block (level - 1) high child.now)) }
    // What is cached is of the places below the child. Where the cache keeps the way, nothing is read on it; and it keeps it then.
    ensures caches { CachesWay P.Platform (λ pages. HaveNodes pages (stubs level high child.now)) (λ kept. KeepsFromChild kept order least block (level - 1) high child.now)
        (λ places kept. FillsFromChild places (take (2 * level - 1) kept) order least block (level - 1) high child.now) (level - 1) (2 * level - 1)
        platform.old platform.new reader.old.cache reader.new.cache beside.old.items beside.new.items result }
    ensures looks { Looks P.Platform (2 * level - 1) platform.old platform.new }
    ensures cause { TellsOf ReadyRefusal.PlatformFault result (P.faults platform.old) (P.faults platform.new) }
{
    match child {
        Child::Grown { twig, .. } => hold_below(
            alloc,
            platform,
            reader,
            order,
            block,
            twig,
            level - 1,
            high,
            held,
            beside,
        ),
        Child::Kept { low, addr, key } => {
            let want = Want {
                addr: *addr,
                level,
                low: *low,
                high,
                least,
                most: order,
            };
            let twig = read_node(alloc, platform, reader, &want, key)?;
            let left = hold_below(
                alloc,
                platform,
                reader,
                order,
                block,
                &twig,
                level - 1,
                high,
                held,
                beside,
            )?;
            hold(twig, held)?;
            Ok(left)
        }
    }
}

/// Reads the nodes on the way to a block below a node, over children of a level, and what a removal may need beside it.
/// Answers what a removal leaves of the node.
#[cycle(hold)]
pub(crate) fn hold_below<P: Platform>(
    alloc: Global,
    platform: &mut P,
    reader: &mut NodeReader,
    order: u16,
    block: u64,
    twig: &Twig,
    level: u8,
    high: u64,
    held: &mut Vec<Twig>,
    beside: &mut Vec<Option<Twig>>,
) -> Result<Left, ReadyRefusal>
    requires can { CanHoldBelow order level block high (P.head platform.old) twig.now }
    ensures at_hand { IfOk result (λ left. OnWay block (λ end c. HeldFor AnyRead order block level end c held.new.items) high twig.now
        × HoldsFew P.Platform level level platform.old platform.new held.old.items held.new.items beside.old.items beside.new.items (left ≡ Unmapped)) }
    ensures reads { P.tells → StandsOver (P.history platform.old).present.readable reader.old.cache →
        IfOk result (λ _. OnWay block (λ end c. HeldFor (IsReadAs (P.history platform.old).present.readable order) order block level end c held.new.items) high twig.now) }
    ensures helps { IfOk result (IsLeft (λ loses. HelpsBelow AnyRead order block level high twig.now held.new.items beside.new.items loses) order (length (children_of twig.now))) }
    ensures beside { P.tells → StandsOver (P.history platform.old).present.readable reader.old.cache →
        IfOk result (IsLeft (λ loses. HelpsBelow (IsReadAs (P.history platform.old).present.readable order) order block level high twig.now held.new.items beside.new.items loses) order (length (children_of twig.now))) }
    ensures bad { P.tells → StandsOver (P.history platform.old).present.readable reader.old.cache → (addr : ℕ) → IsErrOf result (ReadyRefusal.BadRecord addr) →
        WrongUnder (P.history platform.old).present.readable order block addr level high twig.now }
    ensures mapped { P.tells → StandsOver (P.history platform.old).present.readable reader.old.cache →
        IfOk result (λ left. (mapped : List Mapped) → Maps (P.history platform.old).present.readable order (stubs_below level high twig.now) mapped → IsMappedBy block mapped left) }
    ensures finds { P.tells → StandsOver (P.history platform.old).present.readable reader.old.cache →
        IfOk result (IsFoundBy (FindsAmong (FitsAt (P.history platform.old).present.readable) order block (stubs_below level high twig.now))) }
    ensures caches { CachesWay P.Platform (λ pages. HaveNodes pages (stubs_below level high twig.now)) (λ kept. KeepsBelow kept order block level high twig.now)
        (λ places kept. FillsBelow places (take (2 * level) kept) order block level high twig.now) level (2 * level)
        platform.old platform.new reader.old.cache reader.new.cache beside.old.items beside.new.items result }
    ensures looks { Looks P.Platform (2 * level) platform.old platform.new }
    ensures cause { TellsOf ReadyRefusal.PlatformFault result (P.faults platform.old) (P.faults platform.new) }
{
    let at = place(&twig.children, block);
    if at == 0 {
        return Ok(Left::Unmapped);
    }
    let child = &twig.children[at - 1];
    if level == 0 {
        return Ok(left_of_leaf(twig, order, low_of(child) == block));
    }
    let end = end_of(&twig.children, at, high);
    let half = order / 2;
    let left = hold_way(
        alloc, platform, reader, order, half, block, child, level, end, held, beside,
    )?;
    hold_beside(
        alloc, platform, reader, order, twig, at, level, high, left, beside,
    )
}

/// The least number of children of a root.
pub(crate) fn least_of_root(level: u8) -> u16
    requires { 1 ≤ level }
    ensures { result ≡ top_least (level - 1) }
{
    if level == 1 { 0 } else { 2 }
}

/// Holds a node.
fn hold(twig: Twig, held: &mut Vec<Twig>) -> Result<(), ReadyRefusal>
    ensures held { IfOk result (λ _. held.new.items ≡ held.old.items ++ twig ∷ []) }
    ensures memory { (e : ReadyRefusal) → IsErrOf result e → e ≡ ReadyRefusal.Memory }
{
    held.push(twig)?;
    Ok(())
}

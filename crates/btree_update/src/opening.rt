ghost use Rattle.std.specs.Prelude.{◌≡◌, ℕ, List, [], ◌∷◌, ◌++◌, ◌+◌, ◌<◌, ◌≤◌, ◌-◌, length, Option, vec_len, vec_capacity};
ghost use Rattle.btree_twigs.specs.Stubs.{children_of, stubs, stubs_below, nodes, nodes_below};
ghost use Rattle.btree_twigs.specs.declared.twigs.Child.{out-Child};
ghost use Rattle.btree_twigs.specs.declared.twigs.Child.TheOpen.{Grown};
ghost use Rattle.btree_twigs.specs.declared.twigs.Twig.{Twig};
ghost use Rattle.btree_update.specs.Held.{Bound, AreBelow, IsReadAs, HeldFor, OnWay, CanOpen, IsOpened, IsTakenUp, IsNoted, IsAtHand, CanOpenBelow, IsOpenedBelow};
ghost use Rattle.btree_update.specs.Opens.{HasWay, Fitting, GivesChild, GivesBelow};
ghost use Rattle.btree_update.specs.Beside.{HelpsBelow, HelpsFrom, HelpsWide, Source, ReadOver};
ghost use Rattle.btree_update.specs.Roots.{CanOpenRoot, IsRootOpened, HeldRoot, RootMaps};
ghost use Rattle.btree_update.specs.GroveTree.{want_of, want_in, Maps};
ghost use Rattle.page_store.specs.Tree.{Mapped};

use btree_twigs::{Child, Twig, addr_of, low_of, place};

/// Takes the nodes on the way to a block into the tree, from those that are held for it, the topmost last. The addresses
/// of their pages are gone then.
#[cycle(open)]
pub fn open_way(child: &mut Child, level: u8, block: u64, held: &mut Vec<Twig>, gone: &mut Vec<u64>)
    requires can { CanOpen level block held.old.items child.old }
    requires room { vec_len gone.old + vec_len held.old ≤ vec_capacity gone.old }
    ensures opened { (at : CanOpen level block held.old.items child.old) → IsOpened at.order level block at.high child.old child.new }
    ensures gives { (pages : List (List ℕ)) (at : CanOpen level block held.old.items child.old)
        → HeldFor (IsReadAs pages at.order) at.order block level at.high child.old held.old.items
        → GivesChild pages at.order (Fitting pages (want_of at.order) (HasWay block)) level at.high child.old child.new gone.old.items gone.new.items }
    ensures room { vec_len gone.new + vec_len held.new ≤ vec_capacity gone.new }
    ensures spare { vec_len gone.new + vec_len held.new ≤ vec_len gone.old + vec_len held.old }
    ensures capacity { vec_capacity gone.new ≡ vec_capacity gone.old }
    ensures below { (most : Bound) (at : CanOpen level block held.old.items child.old) → AreBelow most (stubs level at.high child.old) → AreBelow most (stubs level at.high child.new) }
    ensures helps { (at : CanOpen level block held.old.items child.old) (source : Source) (width : ℕ) (beside : List (Option Twig)) (loses : ℕ) → HelpsWide (ReadOver source at.order) at.order block (level - 1) at.high width child.old held.old.items beside loses
        → HelpsWide (ReadOver source at.order) at.order block (level - 1) at.high width child.new held.new.items beside loses }
    ensures nodes { (at : CanOpen level block held.old.items child.old) → nodes level child.new ≤ nodes level child.old + level }
{
    if level == 0 {
        return;
    }
    take_held(child, held, gone);
    match child {
        Child::Kept { .. } => unreachable!(),
        Child::Grown { twig, .. } => open_below(twig, level - 1, block, held, gone),
    }
}

/// Opens the way below a node, over children of a level.
#[cycle(open)]
pub(crate) fn open_below(
    twig: &mut Twig,
    level: u8,
    block: u64,
    held: &mut Vec<Twig>,
    gone: &mut Vec<u64>,
)
    requires can { CanOpenBelow level block held.old.items twig.old }
    requires room { vec_len gone.old + vec_len held.old ≤ vec_capacity gone.old }
    ensures opened { (at : CanOpenBelow level block held.old.items twig.old) → IsOpenedBelow at.order level at.least at.low at.high block twig.old twig.new }
    ensures gives { (pages : List (List ℕ)) (at : CanOpenBelow level block held.old.items twig.old)
        → OnWay block (λ high c. HeldFor (IsReadAs pages at.order) at.order block level high c held.old.items) at.high twig.old
        → GivesBelow pages at.order (Fitting pages (want_of at.order) (HasWay block)) level at.high twig.old twig.new gone.old.items gone.new.items }
    ensures room { vec_len gone.new + vec_len held.new ≤ vec_capacity gone.new }
    ensures spare { vec_len gone.new + vec_len held.new ≤ vec_len gone.old + vec_len held.old }
    ensures capacity { vec_capacity gone.new ≡ vec_capacity gone.old }
    ensures below { (most : Bound) (at : CanOpenBelow level block held.old.items twig.old) → AreBelow most (stubs_below level at.high twig.old) → AreBelow most (stubs_below level at.high twig.new) }
    ensures helps { (at : CanOpenBelow level block held.old.items twig.old) (source : Source) (beside : List (Option Twig)) (loses : ℕ) → HelpsBelow (ReadOver source at.order) at.order block level at.high twig.old held.old.items beside loses
        → HelpsBelow (ReadOver source at.order) at.order block level at.high twig.new held.new.items beside loses }
    ensures wide { length (children_of twig.new) ≡ length (children_of twig.old) }
    ensures nodes { (at : CanOpenBelow level block held.old.items twig.old) → nodes_below level twig.new ≤ nodes_below level twig.old + level }
{
    let at = place(&twig.children, block);
    if at == 0 {
        return;
    }
    open_way(&mut twig.children[at - 1], level, block, held, gone);
}

/// Takes the root and the nodes on the way to a block into the tree, from those that are held for it.
pub(crate) fn open_root(
    top: &mut Child,
    level: u8,
    block: u64,
    held: &mut Vec<Twig>,
    gone: &mut Vec<u64>,
)
    requires can { CanOpenRoot level block held.old.items top.old }
    requires room { vec_len gone.old + vec_len held.old ≤ vec_capacity gone.old }
    ensures opened { (at : CanOpenRoot level block held.old.items top.old) → IsRootOpened at.order at.below block at.high top.new }
    ensures gives { (pages : List (List ℕ)) (at : CanOpenRoot level block held.old.items top.old)
        → HeldRoot (IsReadAs pages at.order) at.order block at.below at.high top.old held.old.items
        → GivesChild pages at.order (Fitting pages (want_in at.order level) (HasWay block)) level at.high top.old top.new gone.old.items gone.new.items }
    ensures maps { (pages : List (List ℕ)) (at : CanOpenRoot level block held.old.items top.old)
        → HeldRoot (IsReadAs pages at.order) at.order block at.below at.high top.old held.old.items
        → (mapped : List Mapped) → RootMaps pages at.order at.below at.high top.old mapped → Maps pages at.order (stubs level at.high top.new) mapped }
    ensures room { vec_len gone.new + vec_len held.new ≤ vec_capacity gone.new }
    ensures spare { vec_len gone.new + vec_len held.new ≤ vec_len gone.old + vec_len held.old }
    ensures capacity { vec_capacity gone.new ≡ vec_capacity gone.old }
    ensures below { (most : Bound) (at : CanOpenRoot level block held.old.items top.old) → AreBelow most (stubs level at.high top.old) → AreBelow most (stubs level at.high top.new) }
    ensures helps { (at : CanOpenRoot level block held.old.items top.old) (source : Source) (beside : List (Option Twig)) (loses : ℕ) → HelpsFrom (ReadOver source at.order) at.order block at.below at.high top.old held.old.items beside loses
        → HelpsFrom (ReadOver source at.order) at.order block at.below at.high top.new held.new.items beside loses }
    ensures nodes { (at : CanOpenRoot level block held.old.items top.old) → nodes level top.new ≤ nodes level top.old + level }
{
    take_held(top, held, gone);
    match top {
        Child::Kept { .. } => unreachable!(),
        Child::Grown { twig, .. } => open_below(twig, level - 1, block, held, gone),
    }
}

/// Takes the node that is held last for a child that isn't in memory.
pub(crate) fn take_held(child: &mut Child, held: &mut Vec<Twig>, gone: &mut Vec<u64>)
    requires at_hand { IsAtHand (out-Child child.old) held.old.items }
    requires room { vec_len gone.old + vec_len held.old ≤ vec_capacity gone.old }
    ensures taken { IsTakenUp (out-Child child.old) child.new held.old.items held.new.items }
    ensures noted { IsNoted (out-Child child.old) gone.old.items gone.new.items }
    ensures room { vec_len gone.new + vec_len held.new ≤ vec_capacity gone.new }
    ensures spare { vec_len gone.new + vec_len held.new ≤ vec_len gone.old + vec_len held.old }
    ensures capacity { vec_capacity gone.new ≡ vec_capacity gone.old }
{
    let low = low_of(child);
    if let Some(addr) = addr_of(child) {
        take_up(child, low, held);
        note(gone, addr);
    }
}

/// Puts the node that is held last in the place of a child.
fn take_up(child: &mut Child, low: u64, held: &mut Vec<Twig>)
    requires { 0 < vec_len held.old }
    ensures taken { (twig : Twig) × (held.old.items ≡ held.new.items ++ twig ∷ []) × (out-Child child.new ≡ Grown low twig) }
    ensures room { vec_len held.new + 1 ≡ vec_len held.old }
{
    match held.pop() {
        Some(twig) => *child = Child::Grown { low, twig },
        None => unreachable!(),
    }
}

/// Notes an address where there is room.
pub(crate) fn note(gone: &mut Vec<u64>, addr: u64)
    requires { vec_len gone.old < vec_capacity gone.old }
    ensures items { gone.new.items ≡ gone.old.items ++ addr ∷ [] }
    ensures capacity { vec_capacity gone.new ≡ vec_capacity gone.old }
{
    gone.push_reserved(addr);
}

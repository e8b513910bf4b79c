ghost use Rattle.std.specs.Prelude.{List, map, ◌⊎◌, IsTrue, IsSome, IfSome, ◌↔◌, ◌-◌, suc, ◌∷◌, [], ◌++◌, ◌≡◌, ℕ, ◌<◌, ◌≤◌, ◌+◌, ◌/◌, length, take, vec_capacity, vec_len};
ghost use Rattle.btree_twigs.specs.Stubs.{Stub, children_of, low_of as low_in, nodes, level_of as level_in};
ghost use Rattle.btree_twigs.specs.Levels.{Node, IsMedium, Drops, Changes, IsEvenedBy, IsRowTaken, IsRowTakenBy, rows_at, ReshapeDown};
ghost use Rattle.btree_twigs.specs.Updates.{IsNode, OneShort, HasRoom, room_of, child_room, width_of, CanMend, IsMended};
ghost use Rattle.std.specs.Option.{option_to_list};
ghost use Rattle.btree_twigs.specs.Removal.{below_in, IsTaken, MendsAt, AreMended, CanTake, CanTakeBelow, IsTwigTaken, IsChildTaken, CanMendBeside};
ghost use Rattle.btree_twigs.specs.Top.{child_level, CanTakeTop, IsTopTaken, HasOnly};
ghost use Rattle.btree_twigs.specs.declared.twigs.Child.{out-Child};
ghost use Rattle.btree_twigs.specs.declared.twigs.Twig.{out-Twig};
ghost use Rattle.btree_twigs.specs.Wiped.{IsBlankRoom};
ghost use Rattle.std.specs.Bool.{OnTrue, OnFalse};

use crate::lists::{append, insert, lend_last, push};
use crate::twigs::{Child, Twig, low_of, place};
use crate::wiping::{cover, wipe_room};

/// Takes the data record of a block out of a leaf.
fn take_datum(children: &mut Vec<Child>, block: u64)
    ensures take { (order least low high : ℕ) → IsNode order 0 least order low high children.old.items → low ≤ block → block < high
        → IsTaken order 0 least low high block children.old.items children.new.items }
    ensures wide { length children.old.items ≤ length children.new.items + 1 }
    ensures capacity { vec_capacity children.new ≡ vec_capacity children.old }
    ensures lows { Changes (Drops block) (map low_in children.old.items) (map low_in children.new.items) }
{
    let at = place(children, block);
    if at == 0 {
        return;
    }
    if low_of(&children[at - 1]) != block {
        return;
    }
    let _child = children.remove(at - 1);
    cover(children);
}

/// Evens out two neighbours of which one has a child fewer than it must have: its neighbour lends it
/// one, or where that has none to spare the left one takes all. Answers whether there are two still.
fn even_out(left: &mut Vec<Child>, right: &mut Vec<Child>, order: usize) -> bool
    requires four { 4 ≤ order }
    requires room { (order < vec_capacity left.old) × (order < vec_capacity right.old) }
    requires short { OneShort order (length left.old.items) (length right.old.items) }
    ensures all { left.new.items ++ right.new.items ≡ left.old.items ++ right.old.items }
    ensures two { OnTrue result ((order / 2 ≤ length left.new.items) × (length left.new.items ≤ order) × (order / 2 ≤ length right.new.items) × (length right.new.items ≤ order)) }
    ensures one { OnFalse result ((length right.new.items ≡ 0) × (order / 2 ≤ length left.new.items) × (length left.new.items ≤ order) × (length left.old.items ≤ order / 2) × (length right.old.items ≤ order / 2)) }
    ensures room { (vec_capacity left.new ≡ vec_capacity left.old) × (vec_capacity right.new ≡ vec_capacity right.old) }
    ensures lent { OnTrue result ((order / 2 < length right.old.items → length left.new.items ≡ length left.old.items + 1)
        × (length right.old.items ≤ order / 2 → length right.new.items ≡ length right.old.items + 1)) }
    ensures lends { IsTrue result ↔ ((order / 2 < length right.old.items) ⊎ (order / 2 < length left.old.items)) }
{
    let half = order / 2;
    if right.len() > half {
        push(left, right.remove(0));
        cover(right);
        return true;
    }
    if left.len() > half {
        lend_last(left, right);
        return true;
    }
    append(left, right);
    false
}

/// Evens out two nodes. Answers whether there are two still.
fn even_twigs(left: &mut Twig, right: &mut Twig, order: usize) -> bool
    requires four { 4 ≤ order }
    requires room { HasRoom order left.old × HasRoom order right.old }
    requires short { OneShort order (length (children_of left.old)) (length (children_of right.old)) }
    ensures all { children_of left.new ++ children_of right.new ≡ children_of left.old ++ children_of right.old }
    ensures two { OnTrue result ((order / 2 ≤ length (children_of left.new)) × (length (children_of left.new) ≤ order) × (order / 2 ≤ length (children_of right.new)) × (length (children_of right.new) ≤ order)) }
    ensures one { OnFalse result ((length (children_of right.new) ≡ 0) × (order / 2 ≤ length (children_of left.new)) × (length (children_of left.new) ≤ order) × (length (children_of left.old) ≤ order / 2) × (length (children_of right.old) ≤ order / 2)) }
    ensures room { (room_of left.new ≡ room_of left.old) × (room_of right.new ≡ room_of right.old) }
    ensures levels { (level_in left.new ≡ level_in left.old) × (level_in right.new ≡ level_in right.old) }
    ensures lends { ((order / 2 < length (children_of left.old)) ⊎ (order / 2 < length (children_of right.old))) → IsTrue result }
    ensures lent { OnTrue result ((order / 2 < length (children_of right.old) → length (children_of left.new) ≡ length (children_of left.old) + 1)
        × (length (children_of right.old) ≤ order / 2 → length (children_of right.new) ≡ length (children_of right.old) + 1)) }
{
    even_out(&mut left.children, &mut right.children, order)
}

/// Mends two neighbours in memory of which one has a child fewer than it must have. Answers what is
/// left of the right one.
fn mend_pair(left: &mut Child, right: Child, order: usize) -> Option<Child>
    requires four { 4 ≤ order }
    requires can { CanMend order left.old right }
    ensures mended { (at : CanMend order left.old right) → IsMended order (suc at.level) at.high left.old right (left.new ∷ option_to_list result) }
    ensures lends { ((order / 2 < width_of left.old) ⊎ (order / 2 < width_of right)) → IsSome result }
    ensures evened { IsEvenedBy order (out-Child left.old) (out-Child right) (left.new ∷ option_to_list result) }
    ensures room { (child_room left.new ≡ child_room left.old) × IfSome result (λ part. child_room part ≡ child_room right) }
{
    let Child::Grown {
        twig: mut right,
        ..
    } = right
    else {
        unreachable!()
    };
    let Child::Grown { twig: left, .. } = left else {
        unreachable!()
    };
    if !even_twigs(left, &mut right, order) {
        wipe_room(&mut right.children);
        return None;
    }
    Some(Child::Grown {
        low: low_of(&right.children[0]),
        twig: right,
    })
}

/// Mends the neighbours at a place.
fn mend_at(children: &mut Vec<Child>, left: usize, order: usize)
    requires four { 4 ≤ order }
    requires room { vec_len children.old ≤ vec_capacity children.old }
    requires can { MendsAt order children.old.items left }
    ensures mended { (m : MendsAt order children.old.items left) → AreMended order children.old.items left m children.new.items }
    ensures capacity { vec_capacity children.new ≡ vec_capacity children.old }
{
    let right = children.remove(left + 1);
    match mend_pair(&mut children[left], right, order) {
        None => cover(children),
        Some(part) => insert(children, left + 1, part),
    }
}

/// Mends the child at a place, which has a child fewer than it must have: with the neighbour that
/// follows, or where it is the last with the one before.
fn mend(children: &mut Vec<Child>, at: usize, order: usize)
    requires four { 4 ≤ order }
    requires room { vec_len children.old ≤ vec_capacity children.old }
    requires can { CanMendBeside order children.old.items at }
    ensures next { suc at < length children.old.items → (m : MendsAt order children.old.items at) → AreMended order children.old.items at m children.new.items }
    ensures last { suc at ≡ length children.old.items → (m : MendsAt order children.old.items (at - 1)) → AreMended order children.old.items (at - 1) m children.new.items }
    ensures capacity { vec_capacity children.new ≡ vec_capacity children.old }
{
    if at + 1 < children.len() {
        mend_at(children, at, order);
    } else {
        mend_at(children, at - 1, order);
    }
}

/// Takes the data record of a block out of a node, which may then have one child fewer than it must.
#[cycle(take)]
pub fn take(twig: &mut Twig, order: usize, block: u64)
    requires four { 4 ≤ order }
    requires can { CanTake order block twig.old }
    ensures taken { (at : CanTake order block twig.old) → IsTwigTaken order at.level at.least at.low at.high block at.loses twig.old twig.new }
    ensures levels { (medium : Stub → ℕ → List Node) → IsMedium medium → (at : CanTake order block twig.old) → IsRowTaken medium order block at.level at.high twig.old twig.new }
    ensures room { room_of twig.new ≡ room_of twig.old }
{
    if twig.level == 1 {
        take_datum(&mut twig.children, block);
        return;
    }
    let at = place(&twig.children, block);
    if take_below(&mut twig.children[at - 1], order, block) {
        mend(&mut twig.children, at - 1, order);
    }
}

/// Takes the data record of a block out below a child. Answers whether that has a child fewer than it
/// must have then.
#[cycle(take)]
fn take_below(child: &mut Child, order: usize, block: u64) -> bool
    requires four { 4 ≤ order }
    requires can { CanTakeBelow order block child.old }
    ensures taken { (at : CanTakeBelow order block child.old) → IsChildTaken order at.level at.high block at.loses child.old child.new }
    ensures short { IsTrue result ↔ (width_of child.new < order / 2) }
    ensures levels { (medium : Stub → ℕ → List Node) → IsMedium medium → (at : CanTakeBelow order block child.old)
        → IsRowTakenBy medium order block at.level at.high (out-Child child.old) (out-Child child.new) }
    ensures room { child_room child.new ≡ child_room child.old }
{
    match child {
        Child::Kept { .. } => unreachable!(),
        Child::Grown { twig, .. } => {
            take(twig, order, block);
            twig.children.len() < order / 2
        }
    }
}

/// Takes the data record of a block out of a tree whose root node is in memory. An inner root that is left with one child
/// gives way to it.
pub fn take_top(top: &mut Child, order: usize, block: u64)
    requires four { 4 ≤ order }
    requires can { CanTakeTop order block top.old }
    ensures taken { (at : CanTakeTop order block top.old) → IsTopTaken order at.level at.high block top.old top.new }
    ensures levels { (medium : Stub → ℕ → List Node) → IsMedium medium → (at : CanTakeTop order block top.old)
        → ReshapeDown order block (suc at.level) (child_level top.new) (rows_at medium (suc at.level) at.high top.old) (rows_at medium (child_level top.new) at.high top.new) }
    ensures room { child_level top.new ≡ child_level top.old → child_room top.new ≡ child_room top.old }
{
    if let Child::Grown { twig, .. } = top {
        take(twig, order, block);
        if twig.level == 1 {
            return;
        }
        let is_single = twig.children.len() < 2;
        if is_single {
            give_way(top);
        }
    }
}

/// Puts the only child of a node in its place.
fn give_way(top: &mut Child)
    requires { HasOnly top.old }
    ensures { below_in (out-Child top.old) ≡ top.new ∷ [] }
{
    let child = match top {
        Child::Grown { twig, .. } => only(twig),
        Child::Kept { .. } => unreachable!(),
    };
    *top = child;
}

/// Takes the only child of a node. Nothing of its keys is left in the room that it had.
fn only(twig: &mut Twig) -> Child
    requires { length (children_of twig.old) ≡ 1 }
    ensures only { children_of twig.old ≡ result ∷ [] }
    ensures wiped { IsBlankRoom (room_of twig.old) (out-Twig twig.new).children }
{
    let child = match twig.children.pop() {
        Some(child) => child,
        None => unreachable!(),
    };
    wipe_room(&mut twig.children);
    child
}

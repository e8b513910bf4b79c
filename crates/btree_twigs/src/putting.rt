ghost use Rattle.std.specs.Prelude.{◌-◌, suc, ◌≡◌, ℕ, ◌<◌, ◌≤◌, ◌+◌, ◌/◌, List, length, map, vec_capacity, vec_len};
ghost use Rattle.btree_twigs.specs.Stubs.{Stub, Puts, datum, children_of, low_of as low_in, stubs, stubs_below, nodes, nodes_below, sum_by};
ghost use Rattle.btree_twigs.specs.Search.{HasDatum};
ghost use Rattle.btree_twigs.specs.Levels.{Node, IsMedium, TakesLow, IsCut, IsRowPut, IsRowPutBelow, rows_at, Reshape};
ghost use Rattle.btree_twigs.specs.Shape.{IsTwig};
ghost use Rattle.btree_twigs.specs.Updates.{IsNode, IsPut, stubs_under, HasSpares, IsSplit, IsTwigPut, IsChildPut, CanPut, CanPutBelow, room_of, child_room, rooms, rooms_below, list_rooms, TakesLists, TakesRoom};
ghost use Rattle.std.specs.Option.{option_to_list};
ghost use Rattle.btree_twigs.specs.Top.{child_level, CanPutTop, IsTopPut, CanRaise, IsRaised};

use crate::lists::{insert, move_tail, push, take_spare};
use crate::twigs::{Child, Twig, level_of, low_of, place};
use sdbt_base::Key;
use std::mem;

/// Puts the data record of a block into a leaf, in the place of the one that was there.
fn put_datum(children: &mut Vec<Child>, block: u64, addr: u64, key: Key)
    requires { vec_len children.old < vec_capacity children.old }
    ensures put { (order least most low high : ℕ) → IsNode order 0 least most low high children.old.items → low ≤ block → block < high
        → IsPut order 0 least (most + 1) low high (datum block addr key) children.old.items children.new.items }
    ensures lows { TakesLow block (map low_in children.old.items) (map low_in children.new.items) }
    ensures stays { (order least most low high : ℕ) → IsNode order 0 least most low high children.old.items → block < high → HasDatum block (stubs_under 0 high children.old.items)
        → length children.new.items ≡ length children.old.items }
    ensures capacity { vec_capacity children.new ≡ vec_capacity children.old }
{
    let child = Child::Kept {
        low: block,
        addr,
        key,
    };
    let at = place(children, block);
    if at == 0 {
        insert(children, 0, child);
        return;
    }
    if low_of(&children[at - 1]) < block {
        insert(children, at, child);
        return;
    }
    children[at - 1] = child;
}

/// Cuts a node in two, and answers the part on the right.
fn split(twig: &mut Twig, order: usize, spares: &mut Vec<Vec<Child>>) -> Child
    requires four { 4 ≤ order }
    requires long { length (children_of twig.old) ≡ order + 1 }
    requires spare { HasSpares order 1 spares.old.items }
    ensures split { (level low high : ℕ) → IsTwig order level (order / 2) (order + 1) low high twig.old
        → IsSplit order level low high twig.old twig.new result }
    ensures spares { (count : ℕ) → HasSpares order (count + 1) spares.old.items → HasSpares order count spares.new.items }
    ensures exact { length (children_of twig.new) ≡ order / 2 }
    ensures cut { IsCut order twig.old twig.new result }
    ensures nodes { (level : ℕ) → nodes_below level twig.new + nodes (suc level) result ≡ nodes_below level twig.old + 1 }
    ensures room { room_of twig.new ≡ room_of twig.old }
    ensures part { TakesRoom spares.old spares.new result }
{
    let mut right = take_spare(spares);
    move_tail(&mut twig.children, order / 2, &mut right);
    let low = low_of(&right[0]);
    Child::Grown {
        low,
        twig: Twig {
            level: twig.level,
            children: right,
        },
    }
}

/// Puts the data record of a block into a node, which may then have one child more than it may.
#[cycle(put)]
pub fn put(
    twig: &mut Twig,
    order: usize,
    block: u64,
    addr: u64,
    key: Key,
    spares: &mut Vec<Vec<Child>>,
)
    requires four { 4 ≤ order }
    requires can { CanPut order block spares.old.items twig.old }
    ensures put { (at : CanPut order block spares.old.items twig.old)
        → IsTwigPut order at.level at.least at.low at.high (datum block addr key) twig.old twig.new }
    ensures spares { (at : CanPut order block spares.old.items twig.old) (count : ℕ)
        → HasSpares order (count + at.level) spares.old.items → HasSpares order count spares.new.items }
    ensures nodes { (at : CanPut order block spares.old.items twig.old) → nodes_below at.level twig.new ≤ nodes_below at.level twig.old + at.level }
    ensures levels { (medium : Stub → ℕ → List Node) → IsMedium medium → (at : CanPut order block spares.old.items twig.old)
        → IsRowPut medium order block at.level at.high twig.old twig.new }
    ensures stays { (at : CanPut order block spares.old.items twig.old) → HasDatum block (stubs_below at.level at.high twig.old)
        → length (children_of twig.new) ≡ length (children_of twig.old) }
    ensures room { room_of twig.new ≡ room_of twig.old }
    ensures lists { TakesLists spares.old spares.new }
    // No memory is taken: what has more room has that of a spare list.
    ensures rooms { (at : CanPut order block spares.old.items twig.old)
        → rooms_below at.level twig.new + list_rooms spares.new.items ≡ rooms_below at.level twig.old + list_rooms spares.old.items }
{
    if twig.level == 1 {
        put_datum(&mut twig.children, block, addr, key);
        return;
    }
    let at = place(&twig.children, block);
    let child = &mut twig.children[at - 1];
    match put_below(child, order, block, addr, key, spares) {
        None => {}
        Some(part) => insert(&mut twig.children, at, part),
    }
}

/// Puts the data record of a block below a child, and answers what was cut off it.
#[cycle(put)]
fn put_below(
    child: &mut Child,
    order: usize,
    block: u64,
    addr: u64,
    key: Key,
    spares: &mut Vec<Vec<Child>>,
) -> Option<Child>
    requires four { 4 ≤ order }
    requires can { CanPutBelow order block spares.old.items child.old }
    ensures put { (at : CanPutBelow order block spares.old.items child.old)
        → IsChildPut order (suc at.level) at.high (datum block addr key) child.old child.new result }
    ensures spares { (at : CanPutBelow order block spares.old.items child.old) (count : ℕ)
        → HasSpares order (count + suc at.level) spares.old.items → HasSpares order count spares.new.items }
    ensures nodes { (at : CanPutBelow order block spares.old.items child.old)
        → nodes (suc at.level) child.new + sum_by (nodes (suc at.level)) (option_to_list result) ≤ nodes (suc at.level) child.old + suc at.level }
    ensures levels { (medium : Stub → ℕ → List Node) → IsMedium medium → (at : CanPutBelow order block spares.old.items child.old)
        → IsRowPutBelow medium order block (suc at.level) at.high child.old child.new result }
    ensures stays { (at : CanPutBelow order block spares.old.items child.old) → HasDatum block (stubs (suc at.level) at.high child.old) → result ≡ None }
    ensures room { child_room child.new ≡ child_room child.old }
    ensures lists { TakesLists spares.old spares.new }
    ensures rooms { (at : CanPutBelow order block spares.old.items child.old)
        → rooms (suc at.level) child.new + (sum_by (rooms (suc at.level)) (option_to_list result) + list_rooms spares.new.items) ≡ rooms (suc at.level) child.old + list_rooms spares.old.items }
{
    match child {
        Child::Kept { .. } => unreachable!(),
        Child::Grown { twig, .. } => {
            put(twig, order, block, addr, key, spares);
            if twig.children.len() <= order {
                return None;
            }
            Some(split(twig, order, spares))
        }
    }
}

/// Puts the data record of a block into a tree whose root node is in memory. A root that is cut in two
/// gets a new one above it.
pub fn put_top(
    top: &mut Child,
    order: usize,
    block: u64,
    addr: u64,
    key: Key,
    spares: &mut Vec<Vec<Child>>,
)
    requires four { 4 ≤ order }
    requires can { CanPutTop order block spares.old.items top.old }
    ensures put { (at : CanPutTop order block spares.old.items top.old)
        → IsTopPut order at.level at.high (datum block addr key) top.old top.new }
    ensures spares { HasSpares order 0 spares.new.items }
    ensures levels { (medium : Stub → ℕ → List Node) → IsMedium medium → (at : CanPutTop order block spares.old.items top.old)
        → Reshape order block (suc at.level) (child_level top.new) (rows_at medium (suc at.level) at.high top.old) (rows_at medium (child_level top.new) at.high top.new) }
    // In the place of the record that the block has there is always room.
    ensures stays { (at : CanPutTop order block spares.old.items top.old) → HasDatum block (stubs (suc at.level) at.high top.old) → child_level top.new ≡ child_level top.old }
    ensures room { child_level top.new ≡ child_level top.old → child_room top.new ≡ child_room top.old }
    ensures lists { TakesLists spares.old spares.new }
    ensures rooms { (at : CanPutTop order block spares.old.items top.old)
        → rooms (child_level top.new) top.new + list_rooms spares.new.items ≡ rooms (suc at.level) top.old + list_rooms spares.old.items }
{
    if let Child::Grown { twig, .. } = top {
        put(twig, order, block, addr, key, spares);
        if twig.children.len() > order {
            let part = split(twig, order, spares);
            raise(top, part, spares);
        }
    }
}

/// Puts a new root node above the root and what was cut off it.
fn raise(top: &mut Child, part: Child, spares: &mut Vec<Vec<Child>>)
    requires can { CanRaise top.old part spares.old.items }
    ensures raised { (at : CanRaise top.old part spares.old.items) (order : ℕ) → HasSpares order 1 spares.old.items
        → IsRaised order at.level top.old part top.new }
    ensures spares { (order count : ℕ) → HasSpares order (count + 1) spares.old.items → HasSpares order count spares.new.items }
    ensures room { TakesRoom spares.old spares.new top.new }
{
    let mut children = take_spare(spares);
    let blank = Child::Kept {
        low: 0,
        addr: 0,
        key: Key::from_bytes([0; 32]),
    };
    let old = mem::replace(top, blank);
    let level = level_of(&old) + 1;
    push(&mut children, old);
    push(&mut children, part);
    *top = Child::Grown {
        low: 0,
        twig: Twig { level, children },
    };
}

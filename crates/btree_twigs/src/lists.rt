ghost use Rattle.std.specs.Prelude.{◌-◌, ◌∷◌, [], ◌++◌, ◌≡◌, ℕ, ◌<◌, ◌≤◌, ◌+◌, ◌/◌, length, take, drop, vec_capacity, vec_len};
ghost use Rattle.std.specs.List.{insert as insert_at};
ghost use Rattle.btree_twigs.specs.Updates.{HasSpares};

use crate::twigs::Child;
use crate::wiping::cover;

/// Inserts a child where there is room.
pub(crate) fn insert(children: &mut Vec<Child>, at: usize, child: Child)
    requires room { vec_len children.old < vec_capacity children.old }
    requires within { at ≤ vec_len children.old }
    ensures items { children.new.items ≡ insert_at children.old.items at child }
    ensures capacity { vec_capacity children.new ≡ vec_capacity children.old }
{
    let _room = children.insert(at, child);
}

/// Appends a child where there is room.
pub(crate) fn push(children: &mut Vec<Child>, child: Child)
    requires { vec_len children.old < vec_capacity children.old }
    ensures items { children.new.items ≡ children.old.items ++ child ∷ [] }
    ensures capacity { vec_capacity children.new ≡ vec_capacity children.old }
{
    children.push_reserved(child);
}

/// Moves all children to the end of the left, where there is room.
pub(crate) fn append(left: &mut Vec<Child>, right: &mut Vec<Child>)
    requires { vec_len left.old + vec_len right.old ≤ vec_capacity left.old }
    ensures all { left.new.items ≡ left.old.items ++ right.old.items }
    ensures none { right.new.items ≡ [] }
    ensures capacity { (vec_capacity left.new ≡ vec_capacity left.old) × (vec_capacity right.new ≡ vec_capacity right.old) }
{
    right.reverse();
    while let Some(child) = right.pop() {
        push(left, child);
    }
}

/// Moves the last child of the left to the front of the right.
pub(crate) fn lend_last(left: &mut Vec<Child>, right: &mut Vec<Child>)
    requires some { 0 < vec_len left.old }
    requires room { vec_len right.old < vec_capacity right.old }
    ensures all { left.new.items ++ right.new.items ≡ left.old.items ++ right.old.items }
    ensures fewer { length left.new.items + 1 ≡ length left.old.items }
    ensures capacity { (vec_capacity left.new ≡ vec_capacity left.old) × (vec_capacity right.new ≡ vec_capacity right.old) }
{
    match left.pop() {
        Some(child) => insert(right, 0, child),
        None => unreachable!(),
    }
    cover(left);
}

/// Moves the children from a place on into an empty list that has room for them.
pub(crate) fn move_tail(from: &mut Vec<Child>, at: usize, to: &mut Vec<Child>)
    requires empty { to.old.items ≡ [] }
    requires room { vec_len from.old ≤ vec_capacity to.old }
    requires within { at ≤ vec_len from.old }
    ensures kept { from.new.items ≡ take at from.old.items }
    ensures moved { to.new.items ≡ drop at from.old.items }
    ensures capacity { (vec_capacity from.new ≡ vec_capacity from.old) × (vec_capacity to.new ≡ vec_capacity to.old) }
{
    while from.len() > at {
        if let Some(child) = from.pop() {
            push(to, child);
        }
        cover(from);
    }
    to.reverse();
}

/// Takes an empty list.
pub(crate) fn take_spare(spares: &mut Vec<Vec<Child>>) -> Vec<Child>
    requires { 0 < vec_len spares.old }
    ensures spare { (order count : ℕ) → HasSpares order (count + 1) spares.old.items
        → HasSpares order count spares.new.items × (result.items ≡ []) × (order < vec_capacity result) }
    ensures last { spares.old.items ≡ spares.new.items ++ result ∷ [] }
    ensures room { vec_capacity spares.new ≡ vec_capacity spares.old }
{
    match spares.pop() {
        Some(spare) => spare,
        None => unreachable!(),
    }
}

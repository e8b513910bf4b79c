//! Nodes in memory that go: nothing of their keys is left in the rooms that they had.
ghost use Rattle.std.specs.Prelude.{◌≡◌, length, vec_capacity};
ghost use Rattle.btree_twigs.specs.Stubs.{children_of};
ghost use Rattle.btree_twigs.specs.Updates.{room_of};
ghost use Rattle.btree_twigs.specs.Wiped.{AreBlank, IsBlankRoom, blank as zeros};

use crate::lists::{insert, push};
use crate::twigs::{Child, Twig};
use sdbt_base::Key;

/// Writes zeros over the children of a node, and over those of the nodes in memory below it, which go with it.
pub fn wipe(twig: &mut Twig)
    ensures blank { AreBlank (children_of twig.new) }
    ensures many { length (children_of twig.new) ≡ length (children_of twig.old) }
    ensures room { room_of twig.new ≡ room_of twig.old }
{
    let level = twig.level;
    wipe_all(&mut twig.children, level);
}

/// The same of the children of a node of this level, down to the leaves.
#[cycle(wipe)]
fn wipe_all(children: &mut [Child], level: u8)
    ensures { AreBlank children.new }
{
    for child in children.iter_mut() {
        wipe_child(child, level);
    }
}

/// The same of a child of a node of this level. Most are on the medium: zeros are written over these in their place, with no look at
/// what would have to be let go.
#[cycle(wipe)]
fn wipe_child(child: &mut Child, level: u8)
    ensures { child.new ≡ zeros }
{
    match child {
        Child::Kept { low, addr, key } => {
            *low = 0;
            *addr = 0;
            *key = Key::from_bytes([0; 32]);
        }
        Child::Grown { twig, .. } => {
            if level > 1 {
                wipe_all(&mut twig.children, level - 1);
            }
            *child = blank();
        }
    }
}

/// Writes zeros over a room from which all children were moved away.
pub(crate) fn wipe_room(children: &mut Vec<Child>)
    ensures { IsBlankRoom (vec_capacity children.old) children.new }
{
    children.clear();
    let room = children.capacity();
    'places: while children.len() < room {
        push(children, blank());
    }
}

/// Writes zeros over the place behind the last child, where there is one: what was moved away is not left there.
pub(crate) fn cover(children: &mut Vec<Child>)
    ensures items { children.new.items ≡ children.old.items }
    ensures capacity { vec_capacity children.new ≡ vec_capacity children.old }
{
    let end = children.len();
    if end < children.capacity() {
        insert(children, end, blank());
        let _blank = children.pop();
    }
}

/// A child of zeros.
pub fn blank() -> Child
    ensures { result ≡ zeros }
{
    Child::Kept {
        low: 0,
        addr: 0,
        key: Key::from_bytes([0; 32]),
    }
}

ghost use Rattle.std.specs.Prelude.{◌≡◌, ◌<◌, ◌≤◌, ◌+◌, ◌-◌, List, [], ◌∷◌, ◌++◌, Option, length, vec_len, vec_capacity};
ghost use Rattle.btree_twigs.specs.declared.twigs.Child.{out-Child};
ghost use Rattle.btree_twigs.specs.declared.twigs.Twig.{Twig};
ghost use Rattle.btree_twigs.specs.Stubs.{children_of};
ghost use Rattle.btree_update.specs.Helping.{CanHelp, CanHelpWay, CanHelpRoot, HelpedOut, HelpedWay, HelpedRoot, IsHelpTaken, IsPutBy};

use crate::opening::note;
use crate::siblings::beside_of;
use btree_twigs::{Child, Twig, addr_of, low_of, place};

/// Takes into the tree what is held for neighbours below a node, over children of a level. The addresses of their pages are
/// gone then.
#[cycle(help)]
pub(crate) fn help_below(
    twig: &mut Twig,
    level: u8,
    block: u64,
    beside: &mut Vec<Option<Twig>>,
    gone: &mut Vec<u64>,
)
    requires can { CanHelp level block beside.old.items twig.old }
    requires room { vec_len gone.old + vec_len beside.old ≤ vec_capacity gone.old }
    ensures helped { (at : CanHelp level block beside.old.items twig.old)
        → HelpedOut at.order level at.least at.low at.high block at.loses twig.old twig.new beside.old.items gone.old.items gone.new.items }
    ensures room { vec_len gone.new + vec_len beside.new ≤ vec_capacity gone.new }
    ensures spare { vec_len gone.new + vec_len beside.new ≤ vec_len gone.old + vec_len beside.old }
    ensures capacity { vec_capacity gone.new ≡ vec_capacity gone.old }
{
    if level == 0 {
        return;
    }
    let at = place(&twig.children, block);
    if at == 0 {
        return;
    }
    take_help(twig, at, beside, gone);
    help_way(&mut twig.children[at - 1], level, block, beside, gone);
}

/// The same below a child.
#[cycle(help)]
pub(crate) fn help_way(
    child: &mut Child,
    level: u8,
    block: u64,
    beside: &mut Vec<Option<Twig>>,
    gone: &mut Vec<u64>,
)
    requires can { CanHelpWay level block beside.old.items child.old }
    requires room { vec_len gone.old + vec_len beside.old ≤ vec_capacity gone.old }
    ensures helped { (at : CanHelpWay level block beside.old.items child.old)
        → HelpedWay at.order at.below at.high block at.loses child.old child.new beside.old.items gone.old.items gone.new.items }
    ensures room { vec_len gone.new + vec_len beside.new ≤ vec_capacity gone.new }
    ensures spare { vec_len gone.new + vec_len beside.new ≤ vec_len gone.old + vec_len beside.old }
    ensures capacity { vec_capacity gone.new ≡ vec_capacity gone.old }
{
    match child {
        Child::Kept { .. } => {}
        Child::Grown { twig, .. } => help_below(twig, level - 1, block, beside, gone),
    }
}

/// The same below a root.
pub(crate) fn help_root(
    top: &mut Child,
    level: u8,
    block: u64,
    beside: &mut Vec<Option<Twig>>,
    gone: &mut Vec<u64>,
)
    requires can { CanHelpRoot level block beside.old.items top.old }
    requires room { vec_len gone.old + vec_len beside.old ≤ vec_capacity gone.old }
    ensures helped { (at : CanHelpRoot level block beside.old.items top.old)
        → HelpedRoot at.order at.below at.high block at.loses top.old top.new beside.old.items gone.old.items gone.new.items }
    ensures spare { vec_len gone.new + vec_len beside.new ≤ vec_len gone.old + vec_len beside.old }
    ensures capacity { vec_capacity gone.new ≡ vec_capacity gone.old }
{
    match top {
        Child::Kept { .. } => {}
        Child::Grown { twig, .. } => help_below(twig, level - 1, block, beside, gone),
    }
}

/// Takes what is held last for the neighbour of the child before a place, if it is anything.
fn take_help(twig: &mut Twig, at: usize, beside: &mut Vec<Option<Twig>>, gone: &mut Vec<u64>)
    requires within { (1 ≤ at) × (at ≤ length (children_of twig.old)) × (2 ≤ length (children_of twig.old)) }
    requires room { vec_len gone.old + vec_len beside.old ≤ vec_capacity gone.old }
    ensures taken { (rest : List (Option Twig)) (one : Option Twig) → beside.old.items ≡ rest ++ one ∷ []
        → (beside.new.items ≡ rest) × IsHelpTaken at one twig.old twig.new gone.old.items gone.new.items }
    ensures wide { length (children_of twig.new) ≡ length (children_of twig.old) }
    ensures room { vec_len gone.new + vec_len beside.new ≤ vec_capacity gone.new }
    ensures spare { vec_len gone.new + vec_len beside.new ≤ vec_len gone.old + vec_len beside.old }
    ensures capacity { vec_capacity gone.new ≡ vec_capacity gone.old }
{
    match beside.pop() {
        None => {}
        Some(None) => {}
        Some(Some(node)) => {
            let other = beside_of(at, twig.children.len());
            put_help(&mut twig.children[other], node, gone);
        }
    }
}

/// Puts a node in the place of a child on the medium.
fn put_help(child: &mut Child, node: Twig, gone: &mut Vec<u64>)
    requires { vec_len gone.old < vec_capacity gone.old }
    ensures put { IsPutBy (out-Child child.old) child.new node gone.old.items gone.new.items }
    ensures room { vec_len gone.new ≤ vec_len gone.old + 1 }
    ensures capacity { vec_capacity gone.new ≡ vec_capacity gone.old }
{
    let low = low_of(child);
    if let Some(addr) = addr_of(child) {
        *child = Child::Grown { low, twig: node };
        note(gone, addr);
    }
}

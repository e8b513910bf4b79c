//! Rules 6, 7 and 8: what the added nodes take over, each child once, and that they hang together.
ghost use Rattle.std.specs.Prelude.{◌≡◌, ◌↔◌, ℕ, [], Option, true, false, IsTrue, IfNone, IfOk, length, slice_index, take};
ghost use Rattle.std.specs.Ordering.{nat_cmp};
ghost use Rattle.std.specs.BTreeSet.{contains};
ghost use Rattle.cert_maker.specs.Cert.{Cert};
ghost use Rattle.cert_checker.specs.Changes.{IsOf};
ghost use Rattle.cert_checker.specs.First.{BreaksOnce, BreaksTakeover, BreaksTogether};
ghost use Rattle.cert_checker.specs.Held.{children_held, live_of, traced_all};
ghost use Rattle.cert_checker.specs.Looks.{Ascends, FirstAgain, FirstAmong, FirstOf, FirstUnfit, HasTaken, IsFit, IsLeft, is_taken};
ghost use Rattle.cert_checker.specs.Rules.{GoesFromTheTop, HangsTogether, IsFresh, TakesOnce, TakesOver, WasLive};
ghost use Rattle.cert_checker.specs.Settles.{Stands, Tells};

use crate::change::Change;
use crate::held::{Held, Placed};
use crate::live::Live;
use crate::numbers::Last;
use crate::search::{is_among, is_orphan};
use cert_maker::Cert;
use sdbt_base::Memory;
use std::collections::{BTreeMap, BTreeSet};

/// Whether an address is live, stays, and has a parent that goes.
pub(crate) fn is_left(
    live: &BTreeMap<u64, Held>,
    parents: &BTreeMap<u64, u64>,
    gone: &[u64],
    addr: u64,
) -> bool
    requires { Ascends gone.now }
    ensures { IsTrue result ↔ IsLeft live.now parents.now gone.now addr }
{
    if !live.contains_key(&addr) {
        return false;
    }
    if is_among(gone, addr) {
        return false;
    }
    is_orphan(parents, gone, addr)
}

/// Whether a child of an added node is below it, and is added or left by a gone parent.
pub(crate) fn is_fit(
    live: &BTreeMap<u64, Held>,
    parents: &BTreeMap<u64, u64>,
    added: &[u64],
    gone: &[u64],
    node: u64,
    child: u64,
) -> bool
    requires added { Ascends added.now }
    requires gone { Ascends gone.now }
    ensures { IsTrue result ↔ IsFit live.now parents.now added.now gone.now node child }
{
    if node <= child {
        return false;
    }
    if is_among(added, child) {
        return true;
    }
    is_left(live, parents, gone, child)
}

/// The first of an added node's children that doesn't fit.
pub(crate) fn first_unfit(
    live: &BTreeMap<u64, Held>,
    parents: &BTreeMap<u64, u64>,
    added: &[u64],
    gone: &[u64],
    node: u64,
    children: &[u64],
) -> Option<u64>
    requires added { Ascends added.now }
    requires gone { Ascends gone.now }
    ensures { FirstOf (λ k. IsFit live.now parents.now added.now gone.now node (slice_index children.now k) → ⊥) (length children.now) (slice_index children.now) result }
{
    for i in 0..children.len() {
        let child = children[i];
        if !is_fit(live, parents, added, gone, node, child) {
            return Some(child);
        }
    }
    None
}

/// The first child of an added item that doesn't fit. A data record has none.
pub(crate) fn first_unfit_of(
    live: &BTreeMap<u64, Held>,
    parents: &BTreeMap<u64, u64>,
    addrs: &[u64],
    gone: &[u64],
    item: &Placed,
) -> Option<u64>
    requires addrs { Ascends addrs.now }
    requires gone { Ascends gone.now }
    ensures { (i : ℕ) → FirstUnfit live.now parents.now addrs.now gone.now i item.now result }
{
    match &item.held {
        Held::Data(_) => None,
        Held::Node(children) => first_unfit(live, parents, addrs, gone, item.addr, children),
    }
}

/// The first child of an added node that doesn't fit, in the order of the nodes and of their children.
pub(crate) fn first_unfit_of_all(
    live: &BTreeMap<u64, Held>,
    parents: &BTreeMap<u64, u64>,
    addrs: &[u64],
    gone: &[u64],
    added: &[Placed],
) -> Option<u64>
    requires addrs { Ascends addrs.now }
    requires gone { Ascends gone.now }
    ensures { FirstAmong (FirstUnfit live.now parents.now addrs.now gone.now) added.now result }
{
    for i in 0..added.len() {
        let answer = first_unfit_of(live, parents, addrs, gone, &added[i]);
        if answer.is_some() {
            return answer;
        }
    }
    None
}

/// Takes the children, up to the first that was taken before.
pub(crate) fn take_all(taken: &mut BTreeSet<u64>, children: &[u64]) -> Result<Option<u64>, Memory>
    ensures first { IfOk result (λ answer. FirstOf
        (λ k. is_taken taken.old (take k children.now) (slice_index children.now k) ≡ true)
        (length children.now) (slice_index children.now) answer) }
    ensures taken { IfOk result (λ answer. IfNone answer ((addr : ℕ) →
        contains nat_cmp taken.new addr ≡ is_taken taken.old children.now addr)) }
{
    for i in 0..children.len() {
        let child = children[i];
        if !taken.insert(child)? {
            return Ok(Some(child));
        }
    }
    Ok(None)
}

/// The first added address other than the root that wasn't taken.
pub(crate) fn first_loose(addrs: &[u64], root: u64, taken: &BTreeSet<u64>) -> Option<u64>
    ensures { FirstOf
        (λ k. ((slice_index addrs.now k ≡ root) → ⊥) × (contains nat_cmp taken.now (slice_index addrs.now k) ≡ false))
        (length addrs.now) (slice_index addrs.now) result }
{
    for i in 0..addrs.len() {
        let addr = addrs[i];
        if addr != root && !taken.contains(&addr) {
            return Some(addr);
        }
    }
    None
}

/// Takes the children of an added item, up to the first that was taken before. A data record has none.
pub(crate) fn take_of(taken: &mut BTreeSet<u64>, item: &Placed) -> Result<Option<u64>, Memory>
    ensures first { IfOk result (λ answer. FirstOf
        (λ k. is_taken taken.old (take k (children_held item.now.held)) (slice_index (children_held item.now.held) k) ≡ true)
        (length (children_held item.now.held)) (slice_index (children_held item.now.held)) answer) }
    ensures taken { IfOk result (λ answer. IfNone answer ((addr : ℕ) →
        contains nat_cmp taken.new addr ≡ is_taken taken.old (children_held item.now.held) addr)) }
{
    match &item.held {
        Held::Data(_) => Ok(None),
        Held::Node(children) => take_all(taken, children),
    }
}

/// Takes the children of all added items, up to the first that was taken before.
pub(crate) fn take_all_of(
    taken: &mut BTreeSet<u64>,
    added: &[Placed],
) -> Result<Option<u64>, Memory>
    requires { HasTaken [] taken.old }
    ensures first { IfOk result (λ answer. FirstAmong (FirstAgain added.now) added.now answer) }
    ensures taken { IfOk result (λ answer. IfNone answer (HasTaken (traced_all added.now) taken.new)) }
{
    for i in 0..added.len() {
        let again = take_of(taken, &added[i])?;
        if again.is_some() {
            return Ok(again);
        }
    }
    Ok(None)
}

/// Rule 6: each child of an added node is below it, and is added, or is live and stays and has a parent that goes.
pub(crate) fn breaks_children(
    live: &Live,
    last: Option<Last>,
    cert: &Cert,
    change: &Change,
) -> Option<u64>
    requires of { IsOf change.now cert.now }
    requires fresh { IsFresh cert.now }
    requires was_live { WasLive (live_of live.now.entries) cert.now }
    ensures { (former : Option Cert) → Stands live.now last former → GoesFromTheTop (live_of live.now.entries) former cert.now →
        Tells (TakesOver (live_of live.now.entries) cert.now) (BreaksTakeover (live_of live.now.entries) cert.now) result }
{
    first_unfit_of_all(
        &live.entries,
        &live.parents,
        &change.addrs,
        &change.gone,
        &change.added,
    )
}

/// Rule 7: no address is a child twice among the added nodes. Takes their children.
pub(crate) fn breaks_once(
    taken: &mut BTreeSet<u64>,
    cert: &Cert,
    change: &Change,
) -> Result<Option<u64>, Memory>
    requires of { IsOf change.now cert.now }
    requires fresh { IsFresh cert.now }
    requires empty { HasTaken [] taken.old }
    ensures once { IfOk result (Tells (TakesOnce cert.now) (BreaksOnce cert.now)) }
    ensures taken { IfOk result (λ answer. IfNone answer (HasTaken cert.now.added taken.new)) }
{
    take_all_of(taken, &change.added)
}

/// Rule 8: the root is added, and every other added address is taken.
pub(crate) fn breaks_root(cert: &Cert, change: &Change, taken: &BTreeSet<u64>) -> Option<u64>
    requires of { IsOf change.now cert.now }
    requires fresh { IsFresh cert.now }
    requires taken { HasTaken cert.now.added taken.now }
    ensures { Tells (HangsTogether cert.now) (BreaksTogether cert.now) result }
{
    let root = cert.root();
    if !is_among(&change.addrs, root) {
        return Some(root);
    }
    first_loose(&change.addrs, root, taken)
}

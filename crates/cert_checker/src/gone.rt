//! Rules 4, 5 and 9: what goes was live, goes from the top, and leaves nothing behind.
ghost use Rattle.std.specs.Prelude.{◌≡◌, ◌↔◌, IsTrue, Option, length, slice_index};
ghost use Rattle.cert_maker.specs.Cert.{Cert};
ghost use Rattle.cert_checker.specs.Changes.{IsOf};
ghost use Rattle.cert_checker.specs.First.{BreaksLive, BreaksTop, IsDropped, IsLeast};
ghost use Rattle.cert_checker.specs.Held.{children_at, live_of};
ghost use Rattle.cert_checker.specs.Looks.{Ascends, FirstOf, HasTaken, IsBadGone, IsFoundOr, IsLed, IsUntaken, IsUntakenBefore, IsUntakenChild, LeastOf};
ghost use Rattle.cert_checker.specs.Rules.{GoesFromTheTop, IsFresh, LeavesNone, WasLive};
ghost use Rattle.cert_checker.specs.Settles.{Stands, Tells};

use crate::change::Change;
use crate::held::Held;
use crate::live::Live;
use crate::numbers::Last;
use crate::search::{is_among, is_orphan};
use cert_maker::Cert;
use std::collections::{BTreeMap, BTreeSet};

/// The first of the addresses that isn't above the one before it, or isn't live.
pub(crate) fn first_not_live(live: &BTreeMap<u64, Held>, gone: &[u64]) -> Option<u64>
    ensures { FirstOf (IsBadGone (live_of live.now) gone.now) (length gone.now) (slice_index gone.now) result }
{
    for i in 0..gone.len() {
        let addr = gone[i];
        if i > 0 && addr <= gone[i - 1] {
            return Some(addr);
        }
        if !live.contains_key(&addr) {
            return Some(addr);
        }
    }
    None
}

/// Whether a gone address is the root, or its parent is gone.
pub(crate) fn is_led(parents: &BTreeMap<u64, u64>, gone: &[u64], root: u64, addr: u64) -> bool
    requires { Ascends gone.now }
    ensures { IsTrue result ↔ IsLed parents.now gone.now root addr }
{
    if addr == root {
        return true;
    }
    is_orphan(parents, gone, addr)
}

/// The first gone address that isn't the root and whose parent isn't gone.
pub(crate) fn first_not_led(parents: &BTreeMap<u64, u64>, gone: &[u64], root: u64) -> Option<u64>
    requires { Ascends gone.now }
    ensures { FirstOf (λ k. IsLed parents.now gone.now root (slice_index gone.now k) → ⊥) (length gone.now) (slice_index gone.now) result }
{
    for i in 0..gone.len() {
        let addr = gone[i];
        if !is_led(parents, gone, root, addr) {
            return Some(addr);
        }
    }
    None
}

/// Whether an address is neither gone nor taken.
pub(crate) fn is_dropped(gone: &[u64], taken: &BTreeSet<u64>, addr: u64) -> bool
    requires { Ascends gone.now }
    ensures { IsTrue result ↔ IsUntaken gone.now taken.now addr }
{
    if is_among(gone, addr) {
        return false;
    }
    !taken.contains(&addr)
}

/// The least of what was found and of the children that are neither gone nor taken.
pub(crate) fn least_dropped(
    found: Option<u64>,
    gone: &[u64],
    taken: &BTreeSet<u64>,
    children: &[u64],
) -> Option<u64>
    requires { Ascends gone.now }
    ensures { LeastOf (IsFoundOr found (IsUntakenChild gone.now taken.now children.now)) result }
{
    let mut least = found;
    for i in 0..children.len() {
        if is_dropped(gone, taken, children[i]) {
            least = lesser(least, children[i]);
        }
    }
    least
}

/// The lesser of a number and of what was found.
pub(crate) fn lesser(found: Option<u64>, number: u64) -> Option<u64>
    ensures { LeastOf (IsFoundOr found (λ n. n ≡ number)) result }
{
    match found {
        Some(least) => Some(if least < number { least } else { number }),
        None => Some(number),
    }
}

/// The least of what was found and of a live node's children that are neither gone nor taken.
pub(crate) fn least_dropped_at(
    found: Option<u64>,
    live: &BTreeMap<u64, Held>,
    gone: &[u64],
    taken: &BTreeSet<u64>,
    addr: u64,
) -> Option<u64>
    requires { Ascends gone.now }
    ensures { LeastOf (IsFoundOr found (IsUntakenChild gone.now taken.now (children_at live.now addr))) result }
{
    match live.get(&addr) {
        Some(Held::Node(children)) => least_dropped(found, gone, taken, children),
        _ => found,
    }
}

/// The least child of the gone nodes that is neither gone nor taken.
pub(crate) fn least_dropped_of_all(
    live: &BTreeMap<u64, Held>,
    gone: &[u64],
    taken: &BTreeSet<u64>,
) -> Option<u64>
    requires { Ascends gone.now }
    ensures { LeastOf (IsUntakenBefore live.now gone.now taken.now (length gone.now)) result }
{
    let mut least = None;
    for i in 0..gone.len() {
        least = least_dropped_at(least, live, gone, taken, gone[i]);
    }
    least
}

/// Rule 4: the gone addresses ascend, and each of them is live.
pub(crate) fn breaks_live(live: &Live, cert: &Cert, change: &Change) -> Option<u64>
    requires { IsOf change.now cert.now }
    ensures { Tells (WasLive (live_of live.now.entries) cert.now) (BreaksLive (live_of live.now.entries) cert.now) result }
{
    first_not_live(&live.entries, &change.gone)
}

/// Rule 5: the former root is gone, and so is the parent of every other gone address.
pub(crate) fn breaks_top(
    live: &Live,
    last: Option<Last>,
    cert: &Cert,
    change: &Change,
) -> Option<u64>
    requires of { IsOf change.now cert.now }
    requires was_live { WasLive (live_of live.now.entries) cert.now }
    ensures { (former : Option Cert) → Stands live.now last former →
        Tells (GoesFromTheTop (live_of live.now.entries) former cert.now) (BreaksTop (live_of live.now.entries) former cert.now) result }
{
    let Some(last) = last else {
        return None;
    };
    if !is_among(&change.gone, last.root) {
        return Some(last.root);
    }
    first_not_led(&live.parents, &change.gone, last.root)
}

/// Rule 9: each child of a gone node is gone or taken.
pub(crate) fn breaks_left(
    live: &Live,
    cert: &Cert,
    change: &Change,
    taken: &BTreeSet<u64>,
) -> Option<u64>
    requires of { IsOf change.now cert.now }
    requires fresh { IsFresh cert.now }
    requires was_live { WasLive (live_of live.now.entries) cert.now }
    requires taken { HasTaken cert.now.added taken.now }
    ensures { Tells (LeavesNone (live_of live.now.entries) cert.now) (IsLeast (IsDropped (live_of live.now.entries) cert.now)) result }
{
    least_dropped_of_all(&live.entries, &change.gone, taken)
}

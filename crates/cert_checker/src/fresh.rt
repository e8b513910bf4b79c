//! Rule 3: the added addresses and those that were never kept are new and in order.
ghost use Rattle.std.specs.Prelude.{◌<◌, ◌↔◌, IsTrue, length, slice_index};
ghost use Rattle.cert_checker.specs.Changes.{IsOf};
ghost use Rattle.cert_checker.specs.First.{BreaksFresh};
ghost use Rattle.cert_checker.specs.Looks.{Ascends, FirstOf, IsApart, IsInPlace};
ghost use Rattle.cert_checker.specs.Rules.{IsFresh};
ghost use Rattle.cert_checker.specs.Settles.{Tells};

use crate::change::Change;
use crate::search::is_among;
use cert_maker::Cert;

/// Whether an address is above the one before it, and from base to below head.
pub(crate) fn is_in_place(addrs: &[u64], base: u64, head: u64, i: usize) -> bool
    requires { i < length addrs.now }
    ensures { IsTrue result ↔ IsInPlace addrs.now base head i }
{
    let addr = addrs[i];
    if addr < base {
        return false;
    }
    if head <= addr {
        return false;
    }
    if i == 0 {
        return true;
    }
    addrs[i - 1] < addr
}

/// The first address that isn't above the one before it, or isn't from base to below head.
pub(crate) fn first_misplaced(addrs: &[u64], base: u64, head: u64) -> Option<u64>
    ensures { FirstOf (λ k. IsInPlace addrs.now base head k → ⊥) (length addrs.now) (slice_index addrs.now) result }
{
    for i in 0..addrs.len() {
        if !is_in_place(addrs, base, head, i) {
            return Some(addrs[i]);
        }
    }
    None
}

/// Whether an address is in place, and not among others.
pub(crate) fn is_apart(addrs: &[u64], others: &[u64], base: u64, head: u64, i: usize) -> bool
    requires place { i < length addrs.now }
    requires others { Ascends others.now }
    ensures { IsTrue result ↔ IsApart addrs.now others.now base head i }
{
    if !is_in_place(addrs, base, head, i) {
        return false;
    }
    !is_among(others, addrs[i])
}

/// The first address that isn't in place, or is among the others.
pub(crate) fn first_not_apart(addrs: &[u64], others: &[u64], base: u64, head: u64) -> Option<u64>
    requires { Ascends others.now }
    ensures { FirstOf (λ k. IsApart addrs.now others.now base head k → ⊥) (length addrs.now) (slice_index addrs.now) result }
{
    for i in 0..addrs.len() {
        if !is_apart(addrs, others, base, head, i) {
            return Some(addrs[i]);
        }
    }
    None
}

/// Rule 3: the added addresses and those that were never kept ascend, lie from base to below head, and none is in both lists.
pub(crate) fn breaks_fresh(cert: &Cert, change: &Change) -> Option<u64>
    requires { IsOf change.now cert.now }
    ensures { Tells (IsFresh cert.now) (BreaksFresh cert.now) result }
{
    let base = cert.base();
    let head = cert.head();
    let misplaced = first_misplaced(&change.addrs, base, head);
    if misplaced.is_some() {
        return misplaced;
    }
    first_not_apart(&change.never, &change.addrs, base, head)
}

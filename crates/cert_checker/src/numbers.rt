//! Rules 1 and 2: the numbers of a certificate go on from those of the one before it.
ghost use Rattle.std.specs.Prelude.{◌≡◌, ◌≤◌, ◌↔◌, IsTrue, IfSome, Option, option_map};
ghost use Rattle.cert_maker.specs.Cert.{Cert};
ghost use Rattle.cert_checker.specs.Rules.{Continues, Counts};
ghost use Rattle.cert_checker.specs.Settles.{CountsOn, EndsOn, Tells, last_of};

use cert_maker::Cert;
use root_codec::Root;

/// The numbers of the certificate before, from which the next one goes on.
#[derive(Clone, Copy)]
pub(crate) struct Last {
    /// The number of its commit.
    pub(crate) commit: u64,
    /// The head after it.
    pub(crate) head: u64,
    /// Its root node.
    pub(crate) root: u64,
}

/// Whether a number is 0 at first, and one higher than the last one from then on.
pub(crate) fn counts_on(last: Option<Last>, commit: u64) -> bool
    ensures { IsTrue result ↔ CountsOn last commit }
{
    match last {
        Some(last) => last.commit < commit && commit - 1 == last.commit,
        None => commit == 0,
    }
}

/// Whether the base is the last head, if there is one, and the head is not below it.
pub(crate) fn goes_on(last: Option<Last>, base: u64, head: u64) -> bool
    ensures { IsTrue result ↔ (IfSome last (λ l. base ≡ l.head) × (base ≤ head)) }
{
    if head < base {
        return false;
    }
    match last {
        Some(last) => last.head == base,
        None => true,
    }
}

/// Rule 1: the first number is 0, and each next is one higher.
pub(crate) fn breaks_count(last: Option<Last>, cert: &Cert) -> Option<u64>
    ensures { (former : Option Cert) → last ≡ option_map last_of former →
        Tells (Counts former cert.now) (λ value. (value ≡ cert.now.commit) × ¬ (Counts former cert.now)) result }
{
    let commit = cert.commit();
    if counts_on(last, commit) {
        None
    } else {
        Some(commit)
    }
}

/// Rule 2: the base is the former head, and the head is not below the base.
pub(crate) fn breaks_base(last: Option<Last>, cert: &Cert) -> Option<u64>
    ensures { (former : Option Cert) → last ≡ option_map last_of former →
        Tells (Continues former cert.now) (λ value. (value ≡ cert.now.base) × ¬ (Continues former cert.now)) result }
{
    let base = cert.base();
    if goes_on(last, base, cert.head()) {
        None
    } else {
        Some(base)
    }
}

/// Whether the last numbers are the root record's.
pub(crate) fn ends_at(last: Option<Last>, root: &Root) -> bool
    ensures { IsTrue result ↔ EndsOn last root.now }
{
    match last {
        Some(last) => {
            last.commit == root.commit && last.root == root.addr && last.head == root.head
        }
        None => false,
    }
}

//! The nine rules of one certificate, in their order.
ghost use Rattle.std.specs.Prelude.{◌≡◌, OnOk, Option, option_map};
ghost use Rattle.cert_maker.specs.Cert.{Cert};
ghost use Rattle.cert_checker.specs.Changes.{IsOf};
ghost use Rattle.cert_checker.specs.First.{Breaks, BreaksTree};
ghost use Rattle.cert_checker.specs.Held.{live_of};
ghost use Rattle.cert_checker.specs.Rules.{IsFresh, Keeps, WasLive};
ghost use Rattle.cert_checker.specs.Settles.{KeepsLists, KeepsTree, Settles, Stands, last_of};

use crate::change::Change;
use crate::fresh::breaks_fresh;
use crate::gone::{breaks_left, breaks_live, breaks_top};
use crate::live::Live;
use crate::nodes::{breaks_children, breaks_once, breaks_root};
use crate::numbers::{Last, breaks_base, breaks_count};
use crate::verdict::{CheckRefusal, refuse};
use cert_maker::Cert;
use std::alloc::Global;
use std::collections::BTreeSet;

/// Rules 1 to 4: the numbers go on, and the lists are in order.
pub(crate) fn check_lists(
    live: &Live,
    last: Option<Last>,
    cert: &Cert,
    change: &Change,
) -> Result<(), CheckRefusal>
    requires { IsOf change.now cert.now }
    ensures fresh { OnOk result (IsFresh cert.now) }
    ensures was_live { OnOk result (WasLive (live_of live.now.entries) cert.now) }
    ensures settles { (former : Option Cert) → last ≡ option_map last_of former →
        Settles (KeepsLists (live_of live.now.entries) former cert.now) (Breaks (live_of live.now.entries) former cert.now) result }
{
    refuse(1, breaks_count(last, cert))?;
    refuse(2, breaks_base(last, cert))?;
    refuse(3, breaks_fresh(cert, change))?;
    refuse(4, breaks_live(live, cert, change))
}

/// Rules 5 to 9: what is live is a tree again.
pub(crate) fn check_tree(
    alloc: Global,
    live: &Live,
    last: Option<Last>,
    cert: &Cert,
    change: &Change,
) -> Result<(), CheckRefusal>
    requires of { IsOf change.now cert.now }
    requires fresh { IsFresh cert.now }
    requires was_live { WasLive (live_of live.now.entries) cert.now }
    ensures { (former : Option Cert) → Stands live.now last former →
        Settles (KeepsTree (live_of live.now.entries) former cert.now) (BreaksTree (live_of live.now.entries) former cert.now) result }
{
    let mut taken = BTreeSet::new(alloc);
    refuse(5, breaks_top(live, last, cert, change))?;
    refuse(6, breaks_children(live, last, cert, change))?;
    let again = breaks_once(&mut taken, cert, change)?;
    refuse(7, again)?;
    refuse(8, breaks_root(cert, change, &taken))?;
    refuse(9, breaks_left(live, cert, change, &taken))
}

/// Whether a certificate keeps the rules, over what is live before it; else the first that it breaks.
pub(crate) fn check(
    alloc: Global,
    live: &Live,
    last: Option<Last>,
    cert: &Cert,
    change: &Change,
) -> Result<(), CheckRefusal>
    requires { IsOf change.now cert.now }
    ensures { (former : Option Cert) → Stands live.now last former →
        Settles (Keeps (live_of live.now.entries) former cert.now) (Breaks (live_of live.now.entries) former cert.now) result }
{
    check_lists(live, last, cert, change)?;
    check_tree(alloc, live, last, cert, change)
}

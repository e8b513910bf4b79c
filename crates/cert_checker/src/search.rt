//! Looks into ascending lists.
ghost use Rattle.std.specs.Prelude.{◌↔◌, IsTrue, Contains};
ghost use Rattle.cert_checker.specs.Looks.{Ascends, IsOrphan};

use std::collections::BTreeMap;

/// Whether an address is among ascending ones.
pub(crate) fn is_among(addrs: &[u64], addr: u64) -> bool
    requires { Ascends addrs.now }
    ensures { IsTrue result ↔ Contains addrs.now addr }
{
    addrs.binary_search(&addr).is_ok()
}

/// Whether the parent of an address is gone.
pub(crate) fn is_orphan(parents: &BTreeMap<u64, u64>, gone: &[u64], addr: u64) -> bool
    requires gone { Ascends gone.now }
    ensures { IsTrue result ↔ IsOrphan parents.now gone.now addr }
{
    match parents.get(&addr) {
        Some(parent) => is_among(gone, *parent),
        None => false,
    }
}

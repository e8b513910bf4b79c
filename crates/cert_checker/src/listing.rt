//! The live addresses as a list.
ghost use Rattle.std.specs.Prelude.{◌≡◌, ◌↔◌, ℕ, true, IfOk, Contains, is_some};
ghost use Rattle.std.specs.Ordering.{nat_cmp};
ghost use Rattle.std.specs.BTreeMap.{get};
ghost use Rattle.cert_checker.specs.Looks.{Ascends};

use crate::held::Held;
use sdbt_base::{Addrs, Memory};
use std::alloc::Global;
use std::collections::BTreeMap;

/// The addresses of a map, ascending.
pub(crate) fn listed(alloc: Global, entries: &BTreeMap<u64, Held>) -> Result<Addrs, Memory>
    ensures ascends { IfOk result Ascends }
    ensures has { IfOk result (λ addrs. (addr : ℕ) → Contains addrs addr ↔ (is_some (get nat_cmp entries.now addr) ≡ true)) }
{
    let mut addrs = Addrs::new(alloc);
    for addr in entries.keys() {
        addrs.push(*addr)?;
    }
    Ok(addrs)
}

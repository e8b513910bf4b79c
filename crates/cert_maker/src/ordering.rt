//! Lists in the order of their addresses.
ghost use Rattle.std.specs.Prelude.{IfOk};
ghost use Rattle.cert_maker.specs.Ordered.{AreOneEach, IsOrderOf};

use sdbt_base::{Addrs, Memory, Unkept, UnkeptList};
use std::alloc::Global;

/// The addresses in ascending order, each once.
pub(crate) fn ascending_addrs(alloc: Global, addrs: &[u64]) -> Result<Addrs, Memory>
    ensures { IfOk result (IsOrderOf (λ addr. addr) addrs.now) }
{
    let mut items = Vec::from_slice(alloc, addrs)?;
    items.sort_unstable();
    items.dedup();
    Ok(Addrs::from_vec(items))
}

/// The pages in the order of their addresses, each once where no address has two.
pub(crate) fn ascending_pages(alloc: Global, pages: &[Unkept]) -> Result<UnkeptList, Memory>
    ensures { AreOneEach (λ page. page.addr) pages.now → IfOk result (IsOrderOf (λ page. page.addr) pages.now) }
{
    let mut items = Vec::from_slice(alloc, pages)?;
    items.sort_unstable_by_key(|page| page.addr);
    items.dedup_by_key(|page| page.addr);
    Ok(UnkeptList::from_vec(items))
}

//! The lists of a certificate, to be searched and kept.
ghost use Rattle.std.specs.Prelude.{◌≡◌, IfOk, map};
ghost use Rattle.cert_maker.specs.Added.{traced};
ghost use Rattle.cert_checker.specs.Held.{traced_of, traced_all};

use crate::held::{Held, Placed};
use cert_maker::{Added, AddedList, Cert};
use sdbt_base::{Addrs, Memory, UnkeptList};
use std::alloc::Global;

/// What a certificate adds and lets go, in lists that can be searched.
#[derive(Drop)]
pub(crate) struct Change {
    /// The added addresses, with what each of them is.
    pub(crate) added: Vec<Placed>,
    /// The added addresses alone.
    pub(crate) addrs: Vec<u64>,
    /// The gone addresses.
    pub(crate) gone: Vec<u64>,
    /// The addresses of the pages that were never kept.
    pub(crate) never: Vec<u64>,
}

impl Change {
    ghost use Rattle.cert_checker.specs.Changes.{IsOf};

    /// The lists of a certificate.
    pub(crate) fn of(alloc: Global, cert: &Cert) -> Result<Change, Memory>
        ensures { IfOk result (λ change. IsOf change cert.now) }
    {
        let added = placed_all(alloc, cert.added())?;
        let addrs = addrs_of(alloc, cert.added())?;
        let gone = copy_of(alloc, cert.gone())?;
        let never = pages_of(alloc, cert.never())?;
        Ok(Change {
            added,
            addrs,
            gone,
            never,
        })
    }
}

/// The addresses of a list.
pub(crate) fn copy_of(alloc: Global, addrs: &Addrs) -> Result<Vec<u64>, Memory>
    ensures { IfOk result (λ copy. copy.items ≡ addrs.now) }
{
    let mut copy = Vec::with_capacity(alloc, addrs.len())?;
    for i in 0..addrs.len() {
        copy.push(*addrs.at(i))?;
    }
    Ok(copy)
}

/// The addresses of added items.
pub(crate) fn addrs_of(alloc: Global, added: &AddedList) -> Result<Vec<u64>, Memory>
    ensures { IfOk result (λ addrs. addrs.items ≡ map (λ item. item.addr) added.now) }
{
    let mut addrs = Vec::with_capacity(alloc, added.len())?;
    for i in 0..added.len() {
        addrs.push(added.at(i).addr)?;
    }
    Ok(addrs)
}

/// The addresses of pages.
pub(crate) fn pages_of(alloc: Global, pages: &UnkeptList) -> Result<Vec<u64>, Memory>
    ensures { IfOk result (λ addrs. addrs.items ≡ map (λ page. page.addr) pages.now) }
{
    let mut addrs = Vec::with_capacity(alloc, pages.len())?;
    for i in 0..pages.len() {
        addrs.push(pages.at(i).addr)?;
    }
    Ok(addrs)
}

/// What is kept of an added item.
pub(crate) fn placed_of(alloc: Global, item: &Added) -> Result<Placed, Memory>
    ensures { IfOk result (λ placed. traced_of placed ≡ traced item.now) }
{
    let held = match item.block {
        Some(block) => Held::Data(block),
        None => Held::Node(copy_of(alloc, &item.children)?),
    };
    Ok(Placed {
        addr: item.addr,
        held,
    })
}

/// What is kept of added items.
pub(crate) fn placed_all(alloc: Global, added: &AddedList) -> Result<Vec<Placed>, Memory>
    ensures { IfOk result (λ items. traced_all items.items ≡ added.now) }
{
    let mut items = Vec::with_capacity(alloc, added.len())?;
    for i in 0..added.len() {
        items.push(placed_of(alloc, added.at(i))?)?;
    }
    Ok(items)
}

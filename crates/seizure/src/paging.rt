//! A seizure of pages in memory.
ghost use Rattle.std.specs.Prelude.{◌≡◌, ◌≢◌, ◌<◌, ◌∷◌, [], ℕ, List, All, Contains, IfOk, OnOk, OnErr, length, map};
ghost use Rattle.sdbt_base.specs.Keys.{bare};
ghost use Rattle.seizure.specs.Index.{AreMarks, AreBelow, AreRising};
ghost use Rattle.seizure.specs.Report.{IsSeizure};
ghost use Rattle.seizure.specs.Work.{KnowsItsKeys, Gains, Tried, IsAllReached};

use crate::index::Index;
use crate::report::Report;
use crate::work::Work;
use key_graph::KeyList;
use medium_trace::Pages;
use sdbt_base::{Addrs, Key, Memory, RECORD};
use seal_record::unseal;
use std::alloc::Global;

/// What chains of opening from a key come to, over these pages.
///
/// It is [`seize_pages_all`] of that key alone.
pub fn seize_pages(alloc: Global, pages: &Pages, key: &Key) -> Result<Report, Memory>
    ensures { IfOk result (IsSeizure (bare key.now ∷ []) pages.now) }
{
    let mut keys = KeyList::new(alloc);
    keys.push(*key)?;
    seize_pages_all(alloc, pages, &keys)
}

/// What chains of opening from any of these keys come to, over these pages.
///
/// The report has exactly the addresses, kinds and block fields of the bodies at which a chain ends: its first key is one of
/// these, each key opens the page at its address, and each next one stands in an entry there. Every key that a chain
/// yields is tried on every page. The pages may be any: nothing of them is believed. With no key no page is looked at, and no
/// memory lacks.
pub fn seize_pages_all(alloc: Global, pages: &Pages, keys: &KeyList) -> Result<Report, Memory>
    ensures report { IfOk result (IsSeizure (map bare keys.now) pages.now) }
    ensures memory { OnErr result (keys.now ≢ []) }
{
    let mut work = Work::new(alloc);
    work.want_all(keys)?;
    if !work.keys.is_empty() {
        search(alloc, pages, &mut work)?;
    }
    Ok(work.into_report(pages.len() as u64))
}

/// Tries each key that is wanted, and each that one of them leads to, on every page.
fn search(alloc: Global, pages: &Pages, work: &mut Work) -> Result<(), Memory>
    requires known { KnowsItsKeys work.old }
    requires fresh { work.old.opened ≡ [] }
    ensures { OnOk result ((roots : List (List ℕ)) → Gains [] work.old.keys (Contains roots) →
        IsAllReached roots pages.now work.new.opened) }
{
    let index = index_of(alloc, pages)?;
    let mut next = 0;
    while next < work.keys.len() {
        let key = *work.keys.at(next);
        let addrs = index.opened(alloc, &key)?;
        open_each(pages, &addrs, &key, work)?;
        next += 1;
    }
    Ok(())
}

/// Reads each page once.
fn index_of(alloc: Global, pages: &Pages) -> Result<Index, Memory>
    ensures marks { IfOk result (λ index. AreMarks pages.now (length pages.now) index.marks.items) }
    ensures below { IfOk result (λ index. AreBelow (length pages.now) index.marks.items) }
    ensures rising { IfOk result (λ index. AreRising index.marks.items) }
{
    let mut index = Index::new(alloc);
    for i in 0..pages.len() {
        index.add(i as u64, pages.at(i))?;
    }
    index.sort();
    Ok(index)
}

/// Unseals the pages that a key opens, and notes what they say.
fn open_each(pages: &Pages, addrs: &Addrs, key: &Key, work: &mut Work) -> Result<(), Memory>
    requires known { KnowsItsKeys work.old }
    requires within { All (λ addr. addr < length pages.now) addrs.now }
    ensures { OnOk result (Tried pages.now key.now addrs.now work.old work.new) }
{
    let mut body = [0; RECORD];
    for i in 0..addrs.len() {
        let addr = *addrs.at(i);
        unseal(key, pages.at(addr as usize), &mut body);
        work.note(addr, &body)?;
    }
    Ok(())
}

//! A seizure of a platform.
ghost use Rattle.std.specs.Prelude.{◌≡◌, ◌≢◌, ◌<◌, ◌≤◌, ◌⊎◌, ◌+◌, [], ℕ, List, None, All, Contains, IfOk, IsOk, OnOk, OnErr, IsErrOf, length};
ghost use Rattle.sdbt_base.specs.Faults.{TellsOf};
ghost use Rattle.sdbt_base.specs.Rises.{MayRiseByOne};
ghost use Rattle.page_store.specs.Roots.{IsBadCell};
ghost use Rattle.seizure.specs.Index.{AreMarks, AreBelow, AreApart, AreRising};
ghost use Rattle.seizure.specs.Looks.{Looks, Stops};
ghost use Rattle.seizure.specs.Reads.{ReadsEach, ReadsFew};
ghost use Rattle.seizure.specs.Report.{IsSeizure, Begins, BeginsSome, roots_of};
ghost use Rattle.seizure.specs.Work.{KnowsItsKeys, Gains, Tried, IsAllReached};

use crate::index::Index;
use crate::refusals::SeizeRefusal;
use crate::report::Report;
use crate::work::Work;
use key_graph::KeyList;
use page_store::{CurrentRefusal, current};
use platform::Platform;
use root_codec::Root;
use sdbt_base::{Addrs, Key, Memory, RECORD};
use seal_record::unseal;
use std::alloc::Global;

/// What the root record in the cell opens now, and all that it leads to. With an empty cell it opens nothing.
///
/// It is [`seize_all`] with no other key.
pub fn seize<P: Platform>(alloc: Global, platform: &mut P) -> Result<Report, SeizeRefusal>
    ensures report { P.tells → IfOk result (λ report. (roots : List (List ℕ)) ×
        Begins (P.head platform.old) (P.history platform.old).present.cell [] roots ×
        IsSeizure roots (P.history platform.old).present.readable report) }
    ensures pages { IfOk result (λ report. report.pages ≡ P.head platform.old) }
    ensures bad { P.tells → IsErrOf result SeizeRefusal.BadRoot →
        IsBadCell (P.head platform.old) (P.history platform.old).present.cell }
    ensures memory { P.tells → IsErrOf result SeizeRefusal.Memory →
        BeginsSome (P.head platform.old) (P.history platform.old).present.cell [] }
    ensures looked { P.tells → (IsErrOf result SeizeRefusal.PlatformFault → ⊥) → P.reads platform.old + 1 ≤ P.reads platform.new }
    ensures unread { P.tells → IsErrOf result SeizeRefusal.BadRoot ⊎ ((P.history platform.old).present.cell ≡ None) →
        MayRiseByOne (P.reads platform.old) (P.reads platform.new) }
    ensures reads { P.tells → ReadsFew (P.head platform.old) (P.history platform.old).present.cell [] (P.history platform.old).present.readable
        (P.reads platform.old) (P.reads platform.new) }
    ensures looks { Looks P.Platform platform.old platform.new }
    ensures cause { TellsOf SeizeRefusal.PlatformFault result (P.faults platform.old) (P.faults platform.new) }
{
    seize_all(alloc, platform, &KeyList::new(alloc))
}

/// What the root record in the cell and these keys open now, and all that they lead to: the keys of root records that were
/// seized before, say.
///
/// The report has exactly the addresses, kinds and block fields of the bodies at which a chain of opening ends, over what a
/// read gives of each page. Every key that a chain yields is tried on every page. Each page is read once, and once more
/// for each key that opens it; where there is no key, no page is read. Before that the cell is looked at, once.
///
/// `BadRoot` comes exactly where [`current`] answers it. A `PlatformFault` comes only where their count rose. Memory lacks only
/// where there is a key to try, and never in place of `BadRoot`.
pub fn seize_all<P: Platform>(
    alloc: Global,
    platform: &mut P,
    keys: &KeyList,
) -> Result<Report, SeizeRefusal>
    ensures report { P.tells → IfOk result (λ report. (roots : List (List ℕ)) ×
        Begins (P.head platform.old) (P.history platform.old).present.cell keys.now roots ×
        IsSeizure roots (P.history platform.old).present.readable report) }
    ensures pages { IfOk result (λ report. report.pages ≡ P.head platform.old) }
    ensures bad { P.tells → IsErrOf result SeizeRefusal.BadRoot →
        IsBadCell (P.head platform.old) (P.history platform.old).present.cell }
    ensures memory { P.tells → IsErrOf result SeizeRefusal.Memory →
        BeginsSome (P.head platform.old) (P.history platform.old).present.cell keys.now }
    ensures looked { P.tells → (IsErrOf result SeizeRefusal.PlatformFault → ⊥) → P.reads platform.old + 1 ≤ P.reads platform.new }
    ensures unread { P.tells → IsErrOf result SeizeRefusal.BadRoot ⊎ ((keys.now ≡ []) × ((P.history platform.old).present.cell ≡ None)) →
        MayRiseByOne (P.reads platform.old) (P.reads platform.new) }
    ensures reads { P.tells → ReadsFew (P.head platform.old) (P.history platform.old).present.cell keys.now (P.history platform.old).present.readable
        (P.reads platform.old) (P.reads platform.new) }
    ensures looks { Looks P.Platform platform.old platform.new }
    ensures cause { TellsOf SeizeRefusal.PlatformFault result (P.faults platform.old) (P.faults platform.new) }
{
    let root = match current(platform) {
        Ok(root) => root,
        Err(CurrentRefusal::BadRoot) => return Err(SeizeRefusal::BadRoot),
        Err(CurrentRefusal::PlatformFault) => return Err(SeizeRefusal::PlatformFault),
    };
    let work = wanted(alloc, keys, &root)?;
    seize_from(alloc, platform, work)
}

/// These keys, and that of the root record, are to be tried.
fn wanted(alloc: Global, keys: &KeyList, root: &Option<Root>) -> Result<Work, Memory>
    ensures known { IfOk result KnowsItsKeys }
    ensures fresh { IfOk result (λ work. work.opened ≡ []) }
    ensures keys { IfOk result (λ work. Gains [] work.keys (Contains (roots_of keys.now root.now))) }
    ensures memory { OnErr result (roots_of keys.now root.now ≢ []) }
{
    let mut work = Work::new(alloc);
    work.want_all(keys)?;
    if let Some(root) = root {
        work.want(&root.key)?;
    }
    Ok(work)
}

/// What the keys that are wanted open, and all that they lead to.
fn seize_from<P: Platform>(
    alloc: Global,
    platform: &mut P,
    mut work: Work,
) -> Result<Report, SeizeRefusal>
    requires known { KnowsItsKeys work }
    requires fresh { work.opened ≡ [] }
    ensures report { P.tells → IfOk result (λ report. (roots : List (List ℕ)) → Gains [] work.keys (Contains roots) →
        IsSeizure roots (P.history platform.old).present.readable report) }
    ensures pages { IfOk result (λ report. report.pages ≡ P.head platform.old) }
    ensures unread { work.keys ≡ [] → IsOk result × (platform.new ≡ platform.old) }
    ensures reads { P.tells → (roots : List (List ℕ)) → Gains [] work.keys (Contains roots) →
        ReadsEach roots (P.history platform.old).present.readable (P.reads platform.old) (P.reads platform.new) }
    ensures looks { Looks P.Platform platform.old platform.new }
    ensures stops { Stops (P.faults platform.old) (P.faults platform.new) result }
{
    if !work.keys.is_empty() {
        search(alloc, platform, &mut work)?;
    }
    Ok(work.into_report(platform.head()))
}

/// Tries each key that is wanted, and each that one of them leads to, on every page.
fn search<P: Platform>(alloc: Global, platform: &mut P, work: &mut Work) -> Result<(), SeizeRefusal>
    requires known { KnowsItsKeys work.old }
    requires fresh { work.old.opened ≡ [] }
    ensures reached { P.tells → OnOk result ((roots : List (List ℕ)) → Gains [] work.old.keys (Contains roots) →
        IsAllReached roots (P.history platform.old).present.readable work.new.opened) }
    ensures reads { P.tells → (roots : List (List ℕ)) → Gains [] work.old.keys (Contains roots) →
        ReadsEach roots (P.history platform.old).present.readable (P.reads platform.old) (P.reads platform.new) }
    ensures looks { Looks P.Platform platform.old platform.new }
    ensures stops { Stops (P.faults platform.old) (P.faults platform.new) result }
{
    let index = index_of(alloc, platform)?;
    let mut next = 0;
    while next < work.keys.len() {
        let key = *work.keys.at(next);
        let addrs = index.opened(alloc, &key)?;
        open_each(platform, &addrs, &key, work)?;
        next += 1;
    }
    Ok(())
}

/// Reads each page once.
fn index_of<P: Platform>(alloc: Global, platform: &mut P) -> Result<Index, SeizeRefusal>
    ensures marks { P.tells → IfOk result (λ index.
        AreMarks (P.history platform.old).present.readable (P.head platform.old) index.marks.items) }
    ensures below { IfOk result (λ index. AreBelow (P.head platform.old) index.marks.items) }
    ensures apart { IfOk result (λ index. AreApart index.marks.items) }
    ensures rising { IfOk result (λ index. AreRising index.marks.items) }
    ensures reads { P.tells → P.reads platform.new ≤ P.reads platform.old + P.head platform.old }
    ensures looks { Looks P.Platform platform.old platform.new }
    ensures stops { Stops (P.faults platform.old) (P.faults platform.new) result }
{
    let mut index = Index::new(alloc);
    let mut page = [0; RECORD];
    for addr in 0..platform.head() {
        platform.read(addr, &mut page)?;
        index.add(addr, &page)?;
    }
    index.sort();
    Ok(index)
}

/// Reads and unseals the pages that a key opens, and notes what they say.
fn open_each<P: Platform>(
    platform: &mut P,
    addrs: &Addrs,
    key: &Key,
    work: &mut Work,
) -> Result<(), SeizeRefusal>
    requires known { KnowsItsKeys work.old }
    requires within { All (λ addr. addr < P.head platform.old) addrs.now }
    ensures tried { P.tells → OnOk result
        (Tried (P.history platform.old).present.readable key.now addrs.now work.old work.new) }
    ensures known { OnOk result (KnowsItsKeys work.new) }
    ensures reads { P.tells → P.reads platform.new ≤ P.reads platform.old + length addrs.now }
    ensures looks { Looks P.Platform platform.old platform.new }
    ensures stops { Stops (P.faults platform.old) (P.faults platform.new) result }
{
    let mut page = [0; RECORD];
    let mut body = [0; RECORD];
    for i in 0..addrs.len() {
        let addr = *addrs.at(i);
        platform.read(addr, &mut page)?;
        unseal(key, &page, &mut body);
        work.note(addr, &body)?;
    }
    Ok(())
}

//! A platform in memory.
ghost use Rattle.std.specs.Prelude.{◌≡◌, ◌↔◌, ◌⊎◌, ◌<◌, ◌≤◌, ◌+◌, ◌-◌, ◌^◌, [], Some, None, Ok, false, IsTrue, IsSome, IsErr, IfOk, OnOk, OnErr, All, length, slice_get};
ghost use Rattle.medium_trace.specs.Trace.{Tears};
ghost use Rattle.sdbt_base.specs.Faults.{Tells, next_count};
ghost use Rattle.platform.specs.Image.{blank, with_page, with_cell, all_synced, MayLeave};
ghost use Rattle.platform.specs.History.{Steps};
ghost use Rattle.platform.specs.Failures.{no_calls};
ghost use Rattle.platform.specs.Kept.{store_history};

use crate::failures::Plan;
use crate::store::Store;
use crate::{CallKind, Failure, Platform};
use medium_trace::Pages;
use sdbt_base::{MAX_PAGES, Memory, PlatformFault, RECORD, ROOT};
use std::alloc::Global;

/// A medium and a root cell in memory. It tells everything, and keeps a log of its moments for that.
///
/// It fails where it was told to fail, and where a growth was refused, which counts as a fault without effect.
#[derive(Drop)]
pub struct MemPlatform {
    alloc: Global,
    store: Store,
    capacity: u64,
    plan: Plan,
    reads: u64,
    looks: u64,
    faults: u64,
    starved: u64,
    ghost room: { length (store_history store).present.recorded ≤ capacity },
    ghost limit: { capacity ≤ 2 ^ 32 },
}

impl MemPlatform {
    ghost use Rattle.platform.specs.Mem.{mem_history, image_of_now, failures_of, calls_of, starved_of, reads_of, looks_of, changes_of, faults_of, capacity_of, IsSameRest};

    /// No page, an empty cell and no failures.
    pub fn blank(alloc: Global, capacity: u64) -> Self
        requires { capacity ≤ MAX_PAGES }
        ensures image { image_of_now result ≡ blank }
        ensures past { (mem_history result).past ≡ [] }
        ensures capacity { capacity_of result ≡ capacity }
        ensures failures { failures_of result ≡ [] }
        ensures calls { calls_of result ≡ no_calls }
        ensures reads { (reads_of result ≡ 0) × (looks_of result ≡ 0) }
        ensures changes { changes_of result ≡ 0 }
        ensures faults { faults_of result ≡ 0 }
        ensures starved { starved_of result ≡ 0 }
    {
        MemPlatform {
            alloc,
            store: Store::blank(alloc),
            capacity,
            plan: Plan::new(alloc),
            reads: 0,
            looks: 0,
            faults: 0,
            starved: 0,
        }
    }

    /// These pages, all of them synced, and this cell, with no failures.
    pub fn from_parts(alloc: Global, pages: Pages, cell: Option<[u8; ROOT]>, capacity: u64) -> Self
        requires pages { length pages ≤ capacity }
        requires capacity { capacity ≤ MAX_PAGES }
        ensures image { image_of_now result
            ≡ record { cell = cell; recorded = pages; readable = pages; synced = length pages } }
        ensures past { (mem_history result).past ≡ [] }
        ensures capacity { capacity_of result ≡ capacity }
        ensures failures { failures_of result ≡ [] }
        ensures calls { calls_of result ≡ no_calls }
        ensures reads { (reads_of result ≡ 0) × (looks_of result ≡ 0) }
        ensures changes { changes_of result ≡ 0 }
        ensures faults { faults_of result ≡ 0 }
        ensures starved { starved_of result ≡ 0 }
    {
        MemPlatform {
            alloc,
            store: Store::from_parts(alloc, pages, cell),
            capacity,
            plan: Plan::new(alloc),
            reads: 0,
            looks: 0,
            faults: 0,
            starved: 0,
        }
    }

    /// From now on these failures come, counted from the next call on; an earlier list is forgotten.
    /// Without memory the earlier list and its counting stay.
    pub fn set_failures(&mut self, list: &[Failure]) -> Result<(), Memory>
        ensures set { OnOk result (failures_of self.new ≡ list.now) }
        ensures counting { OnOk result (calls_of self.new ≡ no_calls) }
        ensures refused { OnErr result (failures_of self.new ≡ failures_of self.old) }
        ensures still_counting { OnErr result (calls_of self.new ≡ calls_of self.old) }
        ensures image { image_of_now self.new ≡ image_of_now self.old }
        ensures past { (mem_history self.new).past ≡ (mem_history self.old).past }
        ensures changes { changes_of self.new ≡ changes_of self.old }
        ensures rest { IsSameRest self.old self.new }
    {
        self.plan = Plan::of(self.alloc, list)?;
        Ok(())
    }

    /// The power is lost: these pages, none of them synced, read as zero bytes from now on. A new history
    /// begins with what is left; the moments from before are none of it.
    pub fn power_cut(&mut self, torn: &[u64])
        requires { All (λ addr. ((image_of_now self.old).synced ≤ addr) ×
            (addr < length (image_of_now self.old).recorded)) torn.now }
        ensures torn { Tears torn.now (image_of_now self.old).readable
            (image_of_now self.new).readable }
        ensures left { MayLeave (image_of_now self.old) (image_of_now self.new) }
        ensures past { ((mem_history self.new).past ≡ []) × (changes_of self.new ≡ 0) }
        ensures failures { failures_of self.new ≡ failures_of self.old }
        ensures calls { calls_of self.new ≡ calls_of self.old }
        ensures rest { IsSameRest self.old self.new }
    {
        self.store.cut(torn);
    }

    /// Each page that was ever handed over.
    pub fn recorded(&self) -> &Pages
        ensures { result.now ≡ (image_of_now self.now).recorded }
    {
        self.store.recorded()
    }

    /// What the root cell holds.
    pub fn cell(&self) -> Option<[u8; ROOT]>
        ensures { result ≡ (image_of_now self.now).cell }
    {
        self.store.held()
    }

    /// How many pages outlast a loss of power as they are.
    pub fn synced(&self) -> u64
        ensures { result ≡ (image_of_now self.now).synced }
    {
        self.store.synced()
    }

    /// How many reads of pages were answered, or failed with their effect; at its last value it stays.
    pub fn reads(&self) -> u64
        ensures { result ≡ reads_of self.now }
    {
        self.reads
    }

    /// How many looks at the cell were answered; at its last value it stays.
    pub fn looks(&self) -> u64
        ensures { result ≡ looks_of self.now }
    {
        self.looks
    }

    /// How often the pages were synced, or the cell was replaced or cleared, since the history began.
    pub fn changes(&self) -> u64
        ensures { result ≡ changes_of self.now }
    {
        self.store.changes()
    }

    /// How many calls failed because a growth was refused.
    pub fn starved(&self) -> u64
        ensures { result ≡ starved_of self.now }
    {
        self.starved
    }
}

impl Platform for MemPlatform {
    ghost use Rattle.std.specs.Prelude.{◌≡◌, ◌↔◌, ◌⊎◌, ◌<◌, ◌≤◌, ◌+◌, ◌-◌, ◌^◌, false, Some, None, IsTrue, IsSome, IsErr, IfOk, OnOk, OnErr, length, slice_get, refl};
    ghost use Rattle.sdbt_base.specs.Faults.{Rose, next_count};
    ghost use Rattle.sdbt_base.specs.Rises.{MayRiseByOne, CountsOnce};
    ghost use Rattle.platform.specs.Image.{with_page, with_cell, all_synced, IsEither, MayHavePage};
    ghost use Rattle.platform.specs.History.{Steps};
    ghost use Rattle.platform.specs.Mem.{mem_history, image_of_now, due, starved_of, reads_of, looks_of, answered_of, changes_of, faults_of, capacity_of, FailsAsListed, Starved, Counts, HasEffect, TellsFaults, StepsBeside, CountsLook, CountsRead};

    ghost tells = { Unit {0} };

    ghost history = { mem_history };

    ghost head = { λ platform. length (image_of_now platform).recorded };

    ghost capacity = { capacity_of };

    ghost reads = { answered_of };

    ghost page_reads = { reads_of };

    ghost changes = { changes_of };

    ghost faults = { faults_of };

    ghost counts_pages = { λ told platform. refl };

    ghost has_room = { λ platform. platform.room };

    ghost is_limited = { λ platform. platform.limit };

    fn head(&self) -> u64 {
        self.store.head()
    }

    fn capacity(&self) -> u64 {
        self.capacity
    }

    fn append(&mut self, page: &[u8]) -> Result<u64, PlatformFault>
        requires size { length page.now ≡ RECORD }
        requires room { length (image_of_now self.old).recorded < capacity_of self.old }

        ensures address { IfOk result (λ address.
            (address ≡ length (image_of_now self.old).recorded)
            × (length (image_of_now self.new).recorded ≡ length (image_of_now self.old).recorded + 1)) }
        ensures appended { OnOk result
            (image_of_now self.new ≡ with_page (image_of_now self.old) page.now page.now) }
        ensures either { MayHavePage (image_of_now self.old) page.now (image_of_now self.new) }
        ensures cell { (image_of_now self.new).cell ≡ (image_of_now self.old).cell }
        ensures beside { StepsBeside self.old self.new × (changes_of self.new ≡ changes_of self.old) }

        ensures head { MayRiseByOne (length (image_of_now self.old).recorded)
            (length (image_of_now self.new).recorded) }
        ensures faults { TellsFaults self.old self.new result }

        ensures fails { FailsAsListed CallKind.Append self.old self.new result }
        ensures effect { HasEffect CallKind.Append self.old self.new
            (with_page (image_of_now self.old) page.now page.now) }
        ensures counts { Counts CallKind.Append self.old self.new }
    {
        let due = self.plan.next(CallKind::Append);
        if fails_at_once(self.starved, due) {
            return fault(&mut self.faults);
        }
        let done = self.store.append(page);
        answer(&mut self.faults, &mut self.starved, due, done)
    }

    fn read(&mut self, addr: u64, into: &mut [u8]) -> Result<(), PlatformFault>
        requires size { length into.old ≡ RECORD }
        requires within { addr < length (image_of_now self.old).recorded }

        ensures page { OnOk result
            (slice_get (image_of_now self.old).readable addr ≡ Some into.new) }
        ensures image { image_of_now self.new ≡ image_of_now self.old }
        ensures time { Steps (mem_history self.old) (mem_history self.new) }

        ensures head { length (image_of_now self.new).recorded
            ≡ length (image_of_now self.old).recorded }
        ensures capacity { capacity_of self.new ≡ capacity_of self.old }
        ensures reads { CountsRead self.old self.new result }
        ensures faults { TellsFaults self.old self.new result }

        // A read fails too where its count has come to its end.
        ensures fails { IsErr result
            ↔ (IsSome (due self.old CallKind.Read)
            ⊎ (Starved self.old self.new ⊎ (reads_of self.old ≡ 2 ^ 64 - 1))) }
        ensures starved { starved_of self.new ≡ starved_of self.old }
        ensures counts { Counts CallKind.Read self.old self.new }
    {
        let due = self.plan.next(CallKind::Read);
        if self.reads == u64::MAX || fails_at_once(self.starved, due) {
            return fault(&mut self.faults);
        }
        self.store.read(addr, into);
        self.reads += 1;
        if due.is_some() {
            return fault(&mut self.faults);
        }
        Ok(())
    }

    fn sync(&mut self) -> Result<(), PlatformFault>
        ensures synced { OnOk result (image_of_now self.new ≡ all_synced (image_of_now self.old)) }
        ensures either { IsEither (image_of_now self.old) (all_synced (image_of_now self.old))
            (image_of_now self.new) }
        ensures cell { (image_of_now self.new).cell ≡ (image_of_now self.old).cell }
        ensures beside { StepsBeside self.old self.new }
        ensures changes { CountsOnce result (changes_of self.old) (changes_of self.new) }

        ensures head { length (image_of_now self.new).recorded
            ≡ length (image_of_now self.old).recorded }
        ensures faults { TellsFaults self.old self.new result }

        ensures fails { FailsAsListed CallKind.Sync self.old self.new result }
        ensures effect { HasEffect CallKind.Sync self.old self.new
            (all_synced (image_of_now self.old)) }
        ensures counts { Counts CallKind.Sync self.old self.new }
    {
        let due = self.plan.next(CallKind::Sync);
        if fails_at_once(self.starved, due) {
            return fault(&mut self.faults);
        }
        let done = self.store.sync();
        answer(&mut self.faults, &mut self.starved, due, done)
    }

    fn load_root(&mut self, into: &mut [u8]) -> Result<bool, PlatformFault>
        requires size { length into.old ≡ ROOT }

        ensures full { IfOk result (λ full. IsTrue full ↔ IsSome (image_of_now self.old).cell) }
        ensures bytes { IfOk result
            (λ full. IsTrue full → (image_of_now self.old).cell ≡ Some into.new) }
        ensures image { image_of_now self.new ≡ image_of_now self.old }
        ensures beside { CountsLook self.old self.new result }

        ensures head { length (image_of_now self.new).recorded
            ≡ length (image_of_now self.old).recorded }
        ensures faults { TellsFaults self.old self.new result }

        // A look fails too where its count has come to its end.
        ensures fails { IsErr result
            ↔ (IsSome (due self.old CallKind.Load)
            ⊎ (Starved self.old self.new ⊎ (looks_of self.old ≡ 2 ^ 64 - 1))) }
        ensures starved { starved_of self.new ≡ starved_of self.old }
        ensures counts { Counts CallKind.Load self.old self.new }
    {
        let due = self.plan.next(CallKind::Load);
        if self.starved == u64::MAX || self.looks == u64::MAX || due.is_some() {
            return fault(&mut self.faults);
        }
        self.looks += 1;
        Ok(self.store.load(into))
    }

    fn swap_root(&mut self, bytes: &[u8]) -> Result<(), PlatformFault>
        requires size { length bytes.now ≡ ROOT }

        ensures swapped { OnOk result
            (image_of_now self.new ≡ with_cell (image_of_now self.old) (Some bytes.now)) }
        ensures either { IsEither (image_of_now self.old)
            (with_cell (image_of_now self.old) (Some bytes.now)) (image_of_now self.new) }
        ensures beside { StepsBeside self.old self.new }
        ensures changes { CountsOnce result (changes_of self.old) (changes_of self.new) }

        ensures head { length (image_of_now self.new).recorded
            ≡ length (image_of_now self.old).recorded }
        ensures faults { TellsFaults self.old self.new result }

        ensures fails { FailsAsListed CallKind.Swap self.old self.new result }
        ensures effect { HasEffect CallKind.Swap self.old self.new
            (with_cell (image_of_now self.old) (Some bytes.now)) }
        ensures counts { Counts CallKind.Swap self.old self.new }
    {
        let due = self.plan.next(CallKind::Swap);
        if fails_at_once(self.starved, due) {
            return fault(&mut self.faults);
        }
        let mut record = [0; ROOT];
        record.copy_from_slice(bytes);
        let done = self.store.swap(&record);
        answer(&mut self.faults, &mut self.starved, due, done)
    }

    fn clear_root(&mut self) -> Result<(), PlatformFault>
        ensures cleared { OnOk result
            (image_of_now self.new ≡ with_cell (image_of_now self.old) None) }
        ensures either { IsEither (image_of_now self.old) (with_cell (image_of_now self.old) None)
            (image_of_now self.new) }
        ensures beside { StepsBeside self.old self.new }
        ensures changes { CountsOnce result (changes_of self.old) (changes_of self.new) }

        ensures head { length (image_of_now self.new).recorded
            ≡ length (image_of_now self.old).recorded }
        ensures faults { TellsFaults self.old self.new result }

        ensures fails { FailsAsListed CallKind.Clear self.old self.new result }
        ensures effect { HasEffect CallKind.Clear self.old self.new
            (with_cell (image_of_now self.old) None) }
        ensures counts { Counts CallKind.Clear self.old self.new }
    {
        let due = self.plan.next(CallKind::Clear);
        if fails_at_once(self.starved, due) {
            return fault(&mut self.faults);
        }
        let done = self.store.clear();
        answer(&mut self.faults, &mut self.starved, due, done)
    }
}

// Whether a call fails without effect: memory has been wanting too often, or the list says so.
fn fails_at_once(starved: u64, due: Option<bool>) -> bool
    ensures { IsTrue result ↔ (starved ≡ 2 ^ 64 - 1) ⊎ (due ≡ Some false) }
{
    starved == u64::MAX || matches!(due, Some(false))
}

// What a call answers that didn't fail at once: it fails where a growth was refused, which is counted,
// and where the list says so.
fn answer<T>(
    faults: &mut u64,
    starved: &mut u64,
    due: Option<bool>,
    done: Result<T, medium_trace::Memory>,
) -> Result<T, PlatformFault>
where
    T: Copy,
    requires { starved.old < 2 ^ 64 - 1 }
    ensures value { IfOk result (λ value. done ≡ Ok value) }
    ensures fails { IsErr result ↔ IsSome due ⊎ IsErr done }
    ensures ample { OnOk done (starved.new ≡ starved.old) }
    ensures starved { OnErr done (starved.new ≡ starved.old + 1) }
    ensures rises { faults.old ≤ faults.new }
    ensures cause { Tells result faults.old faults.new }
    ensures one { OnErr result (faults.new ≡ next_count faults.old) }
{
    let Ok(value) = done else {
        *starved += 1;
        return fault(faults);
    };
    if due.is_some() {
        return fault(faults);
    }
    Ok(value)
}

// A call that failed is counted.
fn fault<T>(faults: &mut u64) -> Result<T, PlatformFault>
    ensures rises { faults.old ≤ faults.new }
    ensures cause { Tells result faults.old faults.new }
    ensures one { faults.new ≡ next_count faults.old }
    ensures failed { IsErr result }
{
    *faults = faults.saturating_add(1);
    Err(PlatformFault)
}

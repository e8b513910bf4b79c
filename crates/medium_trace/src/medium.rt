ghost use Rattle.std.specs.Prelude.{◌≡◌, ◌≤◌, ◌<◌, ◌++◌, ◌∷◌, [], All, Some, IfOk, length, slice_get, slice_set, is_ok, if◌then◌else◌};
ghost use Rattle.medium_trace.specs.Page.{zero_page};
ghost use Rattle.medium_trace.specs.Trace.{Trace, IsWhole, Tears};

use crate::{Memory, PAGE, Pages};
use std::alloc::Global;
use std::marker::Model;

static ZERO_PAGE: [u8; PAGE] = [0; PAGE];

/// The medium: its recorded pages, what they read as, and how many of them are synced.
#[derive(Drop)]
pub struct MediumTrace {
    recorded: Pages,
    // the first pages, which were synced from the start and have no mark
    unmarked: usize,
    // for each later page, whether it was torn
    torn: Vec<bool>,
    synced: usize,
}

impl Model for MediumTrace {
    ghost use Rattle.medium_trace.specs.Trace.{Trace, IsMarked, shown_pages};

    ghost Value = { Trace };

    ghost view = { λ medium. record {
      recorded = medium.recorded;
      readable = shown_pages medium.unmarked medium.recorded medium.torn.items;
      synced = medium.synced;
    } };

    ghost invariant = { λ medium. IsMarked medium.recorded medium.unmarked medium.torn.items
        medium.synced };
}

impl MediumTrace {
    /// A medium without pages.
    pub fn new(alloc: Global) -> Self
        ensures blank { result ≡ record { recorded = []; readable = []; synced = 0 } }
        ensures whole { IsWhole result }
    {
        MediumTrace {
            recorded: Pages::new(alloc),
            unmarked: 0,
            torn: Vec::new(alloc),
            synced: 0,
        }
    }

    /// A medium with these pages, all of them synced.
    pub fn from_pages(alloc: Global, pages: Pages) -> Self
        ensures pages { result ≡ record { recorded = pages; readable = pages; synced = length pages } }
        ensures whole { IsWhole result }
    {
        let unmarked = pages.len();
        MediumTrace {
            recorded: pages,
            unmarked,
            torn: Vec::new(alloc),
            synced: unmarked,
        }
    }

    /// Records a page of `PAGE` bytes, which reads as it is, and answers its address.
    /// Without memory the medium stays as it was.
    pub fn push(&mut self, page: &[u8]) -> Result<u64, Memory>
        requires { length page.now ≡ PAGE }
        ensures address { IfOk result (λ addr. addr ≡ length self.old.recorded) }
        ensures recorded { self.new.recorded
            ≡ (if is_ok result then self.old.recorded ++ page.now ∷ [] else self.old.recorded) }
        ensures readable { self.new.readable
            ≡ (if is_ok result then self.old.readable ++ page.now ∷ [] else self.old.readable) }
        ensures synced { self.new.synced ≡ self.old.synced }
        ensures whole { IsWhole self.new }
    {
        let addr = self.recorded.len() as u64;
        self.torn.push(false)?;
        if self.recorded.push(whole(page)).is_err() {
            let _ = self.torn.pop();
            return Err(Memory);
        }
        Ok(addr)
    }

    /// What the page at an address reads as.
    pub fn page(&self, addr: u64) -> &[u8]
        requires { addr < length self.now.recorded }
        ensures page { slice_get self.now.readable addr ≡ Some result.now }
        ensures size { length result.now ≡ PAGE }
    {
        let place = addr as usize;
        if place >= self.unmarked && self.torn[place - self.unmarked] {
            zeros()
        } else {
            self.recorded.at(place)
        }
    }

    /// Each page ever pushed, as it was pushed.
    pub fn recorded(&self) -> &Pages
        ensures { result.now ≡ self.now.recorded }
    {
        &self.recorded
    }

    /// How many pages are recorded.
    pub fn len(&self) -> u64
        ensures length { result ≡ length self.now.recorded }
        ensures whole { IsWhole self.now }
    {
        self.recorded.len() as u64
    }

    /// How many of the recorded pages no cut changes.
    pub fn synced(&self) -> u64
        ensures { result ≡ self.now.synced }
    {
        self.synced as u64
    }

    /// From now on no cut changes a page that is recorded.
    pub fn mark_synced(&mut self)
        ensures changed { self.new ≡ record self.old { synced = length self.old.recorded } }
        ensures whole { IsWhole self.new }
    {
        self.synced = self.recorded.len();
    }

    /// From now on these pages, none of them synced, read as zero bytes.
    pub fn cut(&mut self, torn: &[u64])
        requires { All (λ addr. (self.old.synced ≤ addr) ×
            (addr < length self.old.recorded)) torn.now }
        ensures recorded { self.new.recorded ≡ self.old.recorded }
        ensures readable { Tears torn.now self.old.readable self.new.readable }
        ensures synced { self.new.synced ≡ self.old.synced }
        ensures whole { IsWhole self.new }
    {
        for addr in torn {
            self.tear(*addr);
        }
        let _ = self.len();
    }

    // Makes one page read as zero bytes.
    fn tear(&mut self, addr: u64)
        requires unsynced { self.old.synced ≤ addr }
        requires within { addr < length self.old.recorded }
        ensures changed { self.new
            ≡ record self.old { readable = slice_set self.old.readable addr zero_page } }
        ensures torn { slice_get self.new.readable addr ≡ Some zero_page }
    {
        self.torn[addr as usize - self.unmarked] = true;
    }
}

// A page of zero bytes.
#[tactic(auto, unfolding(crate::specs::Page::zero_page))]
fn zeros() -> &'static [u8]
    ensures bytes { result.now ≡ zero_page }
    ensures size { length result.now ≡ PAGE }
{
    &ZERO_PAGE
}

// A page of `PAGE` bytes as an array.
fn whole(page: &[u8]) -> &[u8; PAGE]
    requires { length page.now ≡ PAGE }
    ensures { result.now ≡ page.now }
{
    match page.first_chunk() {
        Some(bytes) => bytes,
        None => unreachable!(),
    }
}

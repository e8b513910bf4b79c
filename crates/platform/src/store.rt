// Medium and cell with a log of their moments. Each change is logged before it is made, and nothing else is.
ghost use Rattle.std.specs.Prelude.{◌≡◌, ◌↔◌, ◌≤◌, ◌<◌, ◌+◌, ◌++◌, ◌∷◌, [], Some, None, IsTrue, IsSome, IfOk, All, length, slice_get, is_ok, if◌then◌else◌};
ghost use Rattle.medium_trace.specs.Trace.{Tears};
ghost use Rattle.platform.specs.Image.{blank, with_page, with_cell, all_synced, MayLeave};
ghost use Rattle.platform.specs.History.{Steps};
ghost use Rattle.platform.specs.Log.{IsLog, IsNow};

use erasable_root::RootCell;
use medium_trace::{MediumTrace, Memory, Pages};
use sdbt_base::{RECORD, ROOT};
use std::alloc::Global;

/// What a moment that has passed had: its cell, how many pages were recorded and how many of them synced.
#[derive(Clone, Copy)]
pub struct Moment {
    cell: Option<[u8; ROOT]>,
    pages: u64,
    synced: u64,
}

/// A medium and a cell, each moment that they had, and how many of these a change of another kind than a page ended.
#[derive(Drop)]
pub struct Store {
    medium: MediumTrace,
    cell: RootCell,
    log: Vec<Moment>,
    changes: u64,
    ghost logged: { IsLog medium cell log.items },
    ghost counted: { changes ≤ length log.items },
}

impl Store {
    ghost use Rattle.platform.specs.Kept.{store_history};

    /// No page, an empty cell, and no moment before this one.
    pub fn blank(alloc: Global) -> Self
        ensures present { (store_history result).present ≡ blank }
        ensures past { (store_history result).past ≡ [] }
        ensures changes { result.changes ≡ 0 }
    {
        Store {
            medium: MediumTrace::new(alloc),
            cell: RootCell::empty(),
            log: Vec::new(alloc),
            changes: 0,
        }
    }

    /// These pages, all of them synced, and this cell, and no moment before this one.
    pub fn from_parts(alloc: Global, pages: Pages, held: Option<[u8; ROOT]>) -> Self
        ensures present { (store_history result).present
            ≡ record { cell = held; recorded = pages; readable = pages; synced = length pages } }
        ensures past { (store_history result).past ≡ [] }
        ensures changes { result.changes ≡ 0 }
    {
        let mut cell = RootCell::empty();
        if let Some(bytes) = &held {
            cell.replace(bytes);
        }
        let _ = cell.get();
        Store {
            medium: MediumTrace::from_pages(alloc, pages),
            cell,
            log: Vec::new(alloc),
            changes: 0,
        }
    }

    /// The power is lost: these pages, none of them synced, read as zero bytes, and the log begins anew.
    pub fn cut(&mut self, torn: &[u64])
        requires { All (λ addr. ((store_history self.old).present.synced ≤ addr) ×
            (addr < length (store_history self.old).present.recorded)) torn.now }
        ensures torn { Tears torn.now (store_history self.old).present.readable
            (store_history self.new).present.readable }
        ensures left { MayLeave (store_history self.old).present (store_history self.new).present }
        ensures past { (store_history self.new).past ≡ [] }
        ensures changes { self.new.changes ≡ 0 }
    {
        self.changes = 0;
        self.log.clear();
        self.medium.cut(torn);
    }

    /// How many pages are recorded.
    pub fn head(&self) -> u64
        ensures { result ≡ length (store_history self.now).present.recorded }
    {
        self.medium.len()
    }

    /// How many of them are synced.
    pub fn synced(&self) -> u64
        ensures { result ≡ (store_history self.now).present.synced }
    {
        self.medium.synced()
    }

    /// Each page that was ever appended.
    pub fn recorded(&self) -> &Pages
        ensures { result.now ≡ (store_history self.now).present.recorded }
    {
        self.medium.recorded()
    }

    /// How often the pages were synced, or the cell was replaced or cleared, since the log began.
    pub fn changes(&self) -> u64
        ensures { result ≡ self.now.changes }
    {
        self.changes
    }

    /// What the cell holds.
    pub fn held(&self) -> Option<[u8; ROOT]>
        ensures { result ≡ (store_history self.now).present.cell }
    {
        self.cell.get()
    }

    // The present moment.
    fn now(&self) -> Moment
        ensures { IsNow self.now.medium self.now.cell result }
    {
        Moment {
            cell: self.cell.get(),
            pages: self.medium.len(),
            synced: self.medium.synced(),
        }
    }

    /// Adds a page, and answers its address.
    pub fn append(&mut self, page: &[u8]) -> Result<u64, Memory>
        requires { length page.now ≡ RECORD }
        ensures address { IfOk result
            (λ addr. addr ≡ length (store_history self.old).present.recorded) }
        ensures present { (store_history self.new).present ≡ (if is_ok result
            then with_page (store_history self.old).present page.now page.now
            else (store_history self.old).present) }
        ensures past { (store_history self.new).past ≡ (if is_ok result
            then (store_history self.old).past ++ (store_history self.old).present ∷ []
            else (store_history self.old).past) }
        ensures time { Steps (store_history self.old) (store_history self.new) }
        ensures changes { self.new.changes ≡ self.old.changes }
    {
        let now = self.now();
        self.log.push(now)?;
        match self.medium.push(page) {
            Ok(addr) => Ok(addr),
            Err(refusal) => {
                let _ = self.log.pop();
                Err(refusal)
            }
        }
    }

    /// Syncs all pages.
    pub fn sync(&mut self) -> Result<(), Memory>
        ensures present { (store_history self.new).present ≡ (if is_ok result
            then all_synced (store_history self.old).present
            else (store_history self.old).present) }
        ensures past { (store_history self.new).past ≡ (if is_ok result
            then (store_history self.old).past ++ (store_history self.old).present ∷ []
            else (store_history self.old).past) }
        ensures time { Steps (store_history self.old) (store_history self.new) }
        ensures changes { self.new.changes ≡ (if is_ok result then self.old.changes + 1 else self.old.changes) }
    {
        let now = self.now();
        self.log.push(now)?;
        self.changes += 1;
        self.medium.mark_synced();
        Ok(())
    }

    /// Puts a record into the cell.
    pub fn swap(&mut self, bytes: &[u8; ROOT]) -> Result<(), Memory>
        ensures present { (store_history self.new).present ≡ (if is_ok result
            then with_cell (store_history self.old).present (Some bytes.now)
            else (store_history self.old).present) }
        ensures past { (store_history self.new).past ≡ (if is_ok result
            then (store_history self.old).past ++ (store_history self.old).present ∷ []
            else (store_history self.old).past) }
        ensures time { Steps (store_history self.old) (store_history self.new) }
        ensures changes { self.new.changes ≡ (if is_ok result then self.old.changes + 1 else self.old.changes) }
    {
        let now = self.now();
        self.log.push(now)?;
        self.changes += 1;
        self.cell.replace(bytes);
        Ok(())
    }

    /// Empties the cell.
    pub fn clear(&mut self) -> Result<(), Memory>
        ensures present { (store_history self.new).present ≡ (if is_ok result
            then with_cell (store_history self.old).present None
            else (store_history self.old).present) }
        ensures past { (store_history self.new).past ≡ (if is_ok result
            then (store_history self.old).past ++ (store_history self.old).present ∷ []
            else (store_history self.old).past) }
        ensures time { Steps (store_history self.old) (store_history self.new) }
        ensures changes { self.new.changes ≡ (if is_ok result then self.old.changes + 1 else self.old.changes) }
    {
        let now = self.now();
        self.log.push(now)?;
        self.changes += 1;
        self.cell.clear();
        Ok(())
    }

    /// Puts a page into the buffer.
    pub fn read(&self, addr: u64, into: &mut [u8])
        requires size { length into.old ≡ RECORD }
        requires within { addr < length (store_history self.now).present.recorded }
        ensures { slice_get (store_history self.now).present.readable addr ≡ Some into.new }
    {
        into.copy_from_slice(self.medium.page(addr));
    }

    /// Whether the cell holds a record, which is put into the buffer.
    pub fn load(&self, into: &mut [u8]) -> bool
        requires { length into.old ≡ ROOT }
        ensures full { IsTrue result ↔ IsSome (store_history self.now).present.cell }
        ensures bytes { IsTrue result → (store_history self.now).present.cell ≡ Some into.new }
    {
        match self.cell.get() {
            Some(bytes) => {
                into.copy_from_slice(&bytes);
                true
            }
            None => false,
        }
    }
}

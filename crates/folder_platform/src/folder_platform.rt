//! The platform over the pages of a folder and the cell of a root record.
ghost use Rattle.std.specs.Prelude.{◌≡◌, ◌<◌, ◌≤◌, ◌+◌, ◌^◌, ◌∷◌, [], length, false, true, not, is_ok, IsTrue, IsErr, IfOk, IfErr, OnOk};
ghost use Rattle.sdbt_base.specs.Faults.{Tells};
ghost use Rattle.folder_platform.specs.Files.{Files};
ghost use Rattle.folder_platform.specs.Events.{all_done, page_read, page_written, media_synced};
ghost use Rattle.folder_platform.specs.Model.{replay};
ghost use Rattle.folder_platform.specs.Loss.{Settled, MayHold, AreLeft, AllSafe, opened};
ghost use Rattle.folder_platform.specs.Refusals.{ShowsCause, TellsLast};
ghost use Rattle.folder_platform.specs.Sequences.{IsOpening, Makes, Replaces, Clears, Asks, NotesCell, opening, counted};
ghost use Rattle.folder_platform.specs.Told.{IsTold, now_of};

use crate::refusals::pages_told;
use crate::{CellCalls, FolderFile, OpenRefusal, told};
use platform::Platform;
use sdbt_base::{MAX_PAGES, PlatformFault, RECORD, ROOT};

/// A medium in a folder and a root cell, by the calls on both.
///
/// Once a call that changes something has failed, and not before, no more is asked of them: each further call is a fault.
/// It tells its history where the records of this type of calls are honest.
#[derive(Drop)]
pub struct FolderPlatform<C: CellCalls + Drop> {
    calls: C,
    head: u64,
    is_stuck: bool,
    faults: u64,
    ghost told: { IsTold (C.PageCalls.start calls) (C.PageCalls.events calls) },
    ghost readable: { length (replay (C.PageCalls.start calls) (C.PageCalls.events calls)).readable ≡ head },
    ghost recorded: { length (replay (C.PageCalls.start calls) (C.PageCalls.events calls)).recorded ≡ head },
    ghost room: { head ≤ 2 ^ 32 },
    ghost sound: { is_stuck ≡ false → all_done (C.PageCalls.events calls) ≡ true },
    ghost stuck: { is_stuck ≡ true → all_done (C.PageCalls.events calls) ≡ false },
    ghost settled: { is_stuck ≡ false → Settled (replay (C.PageCalls.start calls) (C.PageCalls.events calls)) },
    ghost safe: { AllSafe (C.PageCalls.start calls) (C.PageCalls.events calls) },
    ghost once: { counted (C.PageCalls.events calls) ≡ 1 },
}

impl<C: CellCalls + Drop> FolderPlatform<C> {
    /// The platform over a medium and a cell, to which no call was made yet. A root record that was left behind on its way
    /// to the cell goes: a key that nothing needs must not stay. All that is found outlasts a loss of power from then on,
    /// since nobody knows who put it there.
    pub fn open(mut calls: C) -> Result<FolderPlatform<C>, OpenRefusal>
        requires { C.PageCalls.events calls ≡ [] }
        ensures past { IfOk result (λ platform. IsOpening (C.PageCalls.start calls) (C.PageCalls.start platform.calls) (C.PageCalls.events platform.calls)) }
        ensures image { IfOk result (λ platform. ⟦<FolderPlatform<C> as Platform>⟧.tells → (⟦<FolderPlatform<C> as Platform>⟧.history platform).present ≡ opened (C.PageCalls.start calls)) }
        ensures faults { IfOk result (λ platform. platform.faults ≡ 0) }
        ensures sound { IfOk result (λ platform. platform.is_stuck ≡ false) }
        ensures cause { IfErr result (ShowsCause ⊥) }
    {
        let pages = settle_all(&mut calls)?;
        Ok(FolderPlatform {
            calls,
            head: pages,
            is_stuck: false,
            faults: 0,
        })
    }

    /// The medium and the cell, of which this platform asks nothing more.
    pub fn into_files(self) -> C
        ensures { result ≡ self.calls }
    {
        self.calls
    }

    /// Whether each call that changes something was done: a read that failed leaves the platform usable. So long, what a loss of power leaves is what the last image
    /// says: its cell, and its pages but for some of the last ones that were not synced.
    pub fn is_sound(&self) -> bool
        ensures value { result ≡ not self.now.is_stuck }
        ensures done { result ≡ all_done (C.PageCalls.events self.now.calls) }
        ensures left { IsTrue result → (left : Files) → MayHold (replay (C.PageCalls.start self.now.calls) (C.PageCalls.events self.now.calls)) left
            → AreLeft (now_of (C.PageCalls.start self.now.calls) (C.PageCalls.events self.now.calls)) left }
        ensures ever { AllSafe (C.PageCalls.start self.now.calls) (C.PageCalls.events self.now.calls) }
    {
        !self.is_stuck
    }
}

impl<C: CellCalls + Drop> Platform for FolderPlatform<C> {
    ghost use Rattle.std.specs.Prelude.{◌≡◌, ◌≤◌, ◌^◌, ℕ, List};
    ghost use Rattle.std.proofs.Common.{rules};
    ghost use Rattle.folder_platform.specs.Files.{Files};
    ghost use Rattle.folder_platform.specs.Events.{Event};
    ghost use Rattle.folder_platform.specs.Honest.{IsHonest};
    ghost use Rattle.folder_platform.specs.Told.{told_by, reads_of, page_reads_of, changes_of};

    ghost tells = { (files : Files) (events : List Event) → C.PageCalls.occurs files events → IsHonest files events };

    ghost history = { λ platform. told_by (C.PageCalls.start platform.calls) (C.PageCalls.events platform.calls) platform.told };

    ghost head = { λ platform. platform.head };

    ghost capacity = { λ platform. 2 ^ 32 };

    ghost reads = { λ platform. reads_of (C.PageCalls.events platform.calls) };

    ghost page_reads = { λ platform. page_reads_of (C.PageCalls.events platform.calls) };

    ghost changes = { λ platform. changes_of (C.PageCalls.events platform.calls) };

    ghost faults = { λ platform. platform.faults };

    ghost counts_pages = { λ told platform. platform.recorded };

    ghost has_room = { λ platform. platform.room };

    ghost is_limited = { λ platform. Prim.search rules };

    fn head(&self) -> u64 {
        self.head
    }

    fn capacity(&self) -> u64 {
        MAX_PAGES
    }

    fn append(&mut self, page: &[u8]) -> Result<u64, PlatformFault>
        requires size { length page.now ≡ RECORD }
        requires room { self.old.head < 2 ^ 32 }
        ensures files { C.PageCalls.start self.new.calls ≡ C.PageCalls.start self.old.calls }
        ensures asks { Asks (Makes (λ done. page_written self.old.head done page.now)) result (C.PageCalls.events self.old.calls) (C.PageCalls.events self.new.calls) }
        ensures address { IfOk result (λ address. address ≡ self.old.head) }
        ensures faults { self.old.faults ≤ self.new.faults }
        ensures cause { Tells result self.old.faults self.new.faults }
    {
        if self.is_stuck {
            return fault(&mut self.faults);
        }
        let addr = self.head;
        let outcome = self.calls.write_page(addr, page);
        self.head = addr + 1;
        if outcome.is_err() {
            self.is_stuck = true;
            return fault(&mut self.faults);
        }
        Ok(addr)
    }

    fn read(&mut self, addr: u64, into: &mut [u8]) -> Result<(), PlatformFault>
        requires size { length into.old ≡ RECORD }
        requires within { addr < self.old.head }
        ensures files { C.PageCalls.start self.new.calls ≡ C.PageCalls.start self.old.calls }
        ensures asks { Asks (Makes (λ done. page_read addr done into.new)) result (C.PageCalls.events self.old.calls) (C.PageCalls.events self.new.calls) }
        ensures faults { self.old.faults ≤ self.new.faults }
        ensures cause { Tells result self.old.faults self.new.faults }
    {
        // A read that fails ends nothing.
        if self.is_stuck {
            return fault(&mut self.faults);
        }
        if self.calls.read_page(addr, into).is_err() {
            return fault(&mut self.faults);
        }
        Ok(())
    }

    fn sync(&mut self) -> Result<(), PlatformFault>
        ensures files { C.PageCalls.start self.new.calls ≡ C.PageCalls.start self.old.calls }
        ensures asks { Asks (Makes media_synced) result (C.PageCalls.events self.old.calls) (C.PageCalls.events self.new.calls) }
        ensures faults { self.old.faults ≤ self.new.faults }
        ensures cause { Tells result self.old.faults self.new.faults }
    {
        if self.is_stuck {
            return fault(&mut self.faults);
        }
        if self.calls.sync_pages().is_err() {
            self.is_stuck = true;
            return fault(&mut self.faults);
        }
        Ok(())
    }

    fn load_root(&mut self, into: &mut [u8]) -> Result<bool, PlatformFault>
        requires size { length into.old ≡ ROOT }
        ensures files { C.PageCalls.start self.new.calls ≡ C.PageCalls.start self.old.calls }
        ensures asks { Asks (λ done. NotesCell result into.new) result (C.PageCalls.events self.old.calls) (C.PageCalls.events self.new.calls) }
        ensures faults { self.old.faults ≤ self.new.faults }
        ensures cause { Tells result self.old.faults self.new.faults }
    {
        if self.is_stuck {
            return fault(&mut self.faults);
        }
        let Ok(full) = self.calls.load(into) else {
            return fault(&mut self.faults);
        };
        Ok(full)
    }

    fn swap_root(&mut self, bytes: &[u8]) -> Result<(), PlatformFault>
        requires size { length bytes.now ≡ ROOT }
        ensures files { C.PageCalls.start self.new.calls ≡ C.PageCalls.start self.old.calls }
        ensures asks { Asks (Replaces bytes.now) result (C.PageCalls.events self.old.calls) (C.PageCalls.events self.new.calls) }
        ensures faults { self.old.faults ≤ self.new.faults }
        ensures cause { Tells result self.old.faults self.new.faults }
    {
        if self.is_stuck {
            return fault(&mut self.faults);
        }
        if self.calls.replace(bytes).is_err() {
            self.is_stuck = true;
            return fault(&mut self.faults);
        }
        Ok(())
    }

    fn clear_root(&mut self) -> Result<(), PlatformFault>
        ensures files { C.PageCalls.start self.new.calls ≡ C.PageCalls.start self.old.calls }
        ensures asks { Asks Clears result (C.PageCalls.events self.old.calls) (C.PageCalls.events self.new.calls) }
        ensures faults { self.old.faults ≤ self.new.faults }
        ensures cause { Tells result self.old.faults self.new.faults }
    {
        if self.is_stuck {
            return fault(&mut self.faults);
        }
        if self.calls.clear().is_err() {
            self.is_stuck = true;
            return fault(&mut self.faults);
        }
        Ok(())
    }
}

// How many pages are found, and all that is found outlasts a loss of power.
fn settle_all<C: CellCalls>(calls: &mut C) -> Result<u64, OpenRefusal>
    requires { C.PageCalls.events calls.old ≡ [] }
    ensures start { C.PageCalls.start calls.new ≡ C.PageCalls.start calls.old }
    ensures noted { IfOk result (λ pages. C.PageCalls.events calls.new ≡ opening pages) }
    ensures within { IfOk result (λ pages. pages ≤ MAX_PAGES) }
    ensures told { IfErr result (TellsLast (C.PageCalls.events calls.new)) }
    ensures cause { IfErr result (ShowsCause ⊥) }
{
    calls.tidy()?;
    let pages = pages_told(calls.count_pages())?;
    told(FolderFile::Media, calls.sync_media())?;
    told(FolderFile::Folder, calls.sync_folder())?;
    calls.settle()?;
    Ok(pages)
}

/// A call that failed is counted.
pub(crate) fn fault<T>(faults: &mut u64) -> Result<T, PlatformFault>
    ensures rises { faults.old ≤ faults.new }
    ensures cause { Tells result faults.old faults.new }
    ensures failed { IsErr result }
{
    *faults = faults.saturating_add(1);
    Err(PlatformFault)
}

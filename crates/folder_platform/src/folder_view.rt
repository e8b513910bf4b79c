//! The platform of a device that is only looked at.
ghost use Rattle.std.specs.Prelude.{◌≡◌, ◌≤◌, ◌^◌, ◌∷◌, [], ℕ, length, true, IsErr, IfOk, IfErr};
ghost use Rattle.sdbt_base.specs.Faults.{Tells};
ghost use Rattle.folder_platform.specs.Events.{pages_counted, all_done};
ghost use Rattle.folder_platform.specs.Model.{replay};
ghost use Rattle.folder_platform.specs.Looks.{are_looks, looked_at};
ghost use Rattle.folder_platform.specs.Refusals.{ShowsCause, Names};
ghost use Rattle.folder_platform.specs.declared.refusals.FolderFile.TheVariants.{Media};
ghost use Rattle.folder_platform.specs.Told.{IsTold};

use crate::folder_platform::fault;
use crate::refusals::pages_told;
use crate::{LookCalls, OpenRefusal};
use platform::Platform;
use sdbt_base::{MAX_PAGES, PlatformFault};

/// A medium in a folder and a root cell, by calls that change neither: each call of the platform that would is a fault.
///
/// It tells its history where the records of this type of calls are honest. Nothing is made to outlast a loss of power, so
/// none of its pages counts as synced.
#[derive(Drop)]
pub struct FolderView<C: LookCalls + Drop> {
    calls: C,
    head: u64,
    faults: u64,
    ghost told: { IsTold (C.LookCalls.start calls) (C.LookCalls.events calls) },
    ghost readable: { length (replay (C.LookCalls.start calls) (C.LookCalls.events calls)).readable ≡ head },
    ghost recorded: { length (replay (C.LookCalls.start calls) (C.LookCalls.events calls)).recorded ≡ head },
    ghost room: { head ≤ 2 ^ 32 },
    ghost looks: { are_looks (C.LookCalls.events calls) ≡ true },
    ghost done: { all_done (C.LookCalls.events calls) ≡ true },
}

impl<C: LookCalls + Drop> FolderView<C> {
    /// The platform over a medium and a cell, to which no call was made yet. A root record on its way to the cell stays.
    pub fn open(mut calls: C) -> Result<FolderView<C>, OpenRefusal>
        requires { C.LookCalls.events calls ≡ [] }
        ensures files { IfOk result (λ view. C.LookCalls.start view.calls ≡ C.LookCalls.start calls) }
        ensures past { IfOk result (λ view. (n : ℕ) × (C.LookCalls.events view.calls ≡ pages_counted n ∷ [])) }
        ensures image { IfOk result (λ view. ⟦<FolderView<C> as Platform>⟧.tells → (⟦<FolderView<C> as Platform>⟧.history view).present ≡ looked_at (C.LookCalls.start calls)) }
        ensures faults { IfOk result (λ view. view.faults ≡ 0) }
        ensures names { IfErr result (Names Media) }
        ensures cause { IfErr result (ShowsCause ⊥) }
    {
        let pages = pages_told(calls.look_for_pages())?;
        Ok(FolderView {
            calls,
            head: pages,
            faults: 0,
        })
    }

    /// The medium and the cell. Whatever was asked of the platform, no call changed anything of them.
    pub fn into_files(self) -> C
        ensures files { result ≡ self.calls }
        ensures looks { are_looks (C.LookCalls.events result) ≡ true }
    {
        self.calls
    }
}

impl<C: LookCalls + Drop> Platform for FolderView<C> {
    ghost use Rattle.std.specs.Prelude.{◌≡◌, ◌≤◌, ◌^◌, ℕ, List};
    ghost use Rattle.std.proofs.Common.{rules};
    ghost use Rattle.folder_platform.specs.Files.{Files};
    ghost use Rattle.folder_platform.specs.Events.{Event};
    ghost use Rattle.folder_platform.specs.Honest.{IsHonest};
    ghost use Rattle.folder_platform.specs.Told.{told_by, reads_of, page_reads_of};

    ghost tells = { (files : Files) (events : List Event) → C.LookCalls.occurs files events → IsHonest files events };

    ghost history = { λ view. told_by (C.LookCalls.start view.calls) (C.LookCalls.events view.calls) view.told };

    ghost head = { λ view. view.head };

    ghost capacity = { λ view. 2 ^ 32 };

    ghost reads = { λ view. reads_of (C.LookCalls.events view.calls) };

    ghost page_reads = { λ view. page_reads_of (C.LookCalls.events view.calls) };

    ghost changes = { λ view. 0 };

    ghost faults = { λ view. view.faults };

    ghost counts_pages = { λ told view. view.recorded };

    ghost has_room = { λ view. view.room };

    ghost is_limited = { λ view. Prim.search rules };

    fn head(&self) -> u64 {
        self.head
    }

    fn capacity(&self) -> u64 {
        MAX_PAGES
    }

    fn append(&mut self, _page: &[u8]) -> Result<u64, PlatformFault> {
        fault(&mut self.faults)
    }

    fn read(&mut self, addr: u64, into: &mut [u8]) -> Result<(), PlatformFault> {
        if self.calls.look_at_page(addr, into).is_err() {
            return fault(&mut self.faults);
        }
        Ok(())
    }

    fn sync(&mut self) -> Result<(), PlatformFault> {
        fault(&mut self.faults)
    }

    fn load_root(&mut self, into: &mut [u8]) -> Result<bool, PlatformFault> {
        let Ok(full) = self.calls.look_at_cell(into) else {
            return fault(&mut self.faults);
        };
        Ok(full)
    }

    fn swap_root(&mut self, _bytes: &[u8]) -> Result<(), PlatformFault> {
        fault(&mut self.faults)
    }

    fn clear_root(&mut self) -> Result<(), PlatformFault> {
        fault(&mut self.faults)
    }
}

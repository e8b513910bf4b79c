//! A device whose root record is in a TPM.
ghost use Rattle.std.specs.Prelude.{◌≡◌, ◌∷◌, ℕ, List, Option, Some, None, true, if◌then◌else◌, length, is_ok, IfErr, IfOk, IsErr, IsSomeAnd, OnErr, OnOk};
ghost use Rattle.folder_platform.specs.Events.{page_read, page_written, media_synced, folder_synced, root_synced, new_removed, cell_synced};
ghost use Rattle.folder_platform.specs.Refusals.{ShowsCause, TellsLast};
ghost use Rattle.folder_platform.specs.Sequences.{NotesCount, NotesCell, Replaces, Clears};
ghost use Rattle.tpm_nv.specs.Messages.{read_bytes};
ghost use Rattle.tpm_nv.specs.Replies.{IsContent};
ghost use Rattle.tpm_cell.specs.Asking.{no_root, FailsAs, IsApart, IsInCell, Reads, Stores, StoresNot};

use crate::{TpmCalls, TpmCell, TpmFault};
use folder_files::StdPages;
use folder_platform::{CellCalls, FileCall, OpenRefusal, PageCalls};
use sdbt_base::{RECORD, ROOT};
use std::io::{self, ErrorKind};
use std::rt::Files;

/// The pages of a folder, and a cell in place: an index of a TPM.
///
/// Each call on the cell is noted as one with its answer: done only where the TPM's replies say so.
#[derive(Drop)]
pub struct InTpm<R: Files, T: TpmCalls + Drop> {
    pages: StdPages<R>,
    cell: TpmCell<T>,
    failure: Option<TpmFault>,
}

impl<R: Files, T: TpmCalls + Drop> InTpm<R, T> {
    /// These pages, with this cell.
    pub fn new(pages: StdPages<R>, cell: TpmCell<T>) -> InTpm<R, T>
        ensures pages { result.pages ≡ pages }
        ensures cell { result.cell ≡ cell }
        ensures unfailed { result.failure ≡ None }
    {
        InTpm {
            pages,
            cell,
            failure: None,
        }
    }

    /// Why the last call on the cell failed that did.
    pub fn failure(&self) -> Option<TpmFault>
        ensures { result ≡ self.now.failure }
    {
        self.failure
    }
}

impl<R: Files, T: TpmCalls + Drop> PageCalls for InTpm<R, T> {
    ghost use Rattle.folder_files.specs.Found.{nothing, nothing-files};

    ghost start = { λ _. nothing };

    ghost events = { λ it. it.pages.calls.events };

    ghost occurs = { λ _ _. Unit {0} };

    ghost are_files = { λ _. nothing-files };

    ghost occurred = { λ _. tt };

    fn count_pages(&mut self) -> io::Result<u64>
        ensures noted { NotesCount result self.old.pages.calls.events self.new.pages.calls.events }
        // A call that is not on the cell leaves it, and asks nothing of the TPM.
        ensures apart { IsApart self.old.cell self.new.cell self.old.failure self.new.failure }
    {
        self.pages.count_pages()
    }

    fn read_page(&mut self, addr: u64, into: &mut [u8]) -> io::Result<()>
        requires { length into.old ≡ RECORD }
        ensures noted { self.new.pages.calls.events ≡ page_read addr (is_ok result) into.new ∷ self.old.pages.calls.events }
        ensures apart { IsApart self.old.cell self.new.cell self.old.failure self.new.failure }
    {
        self.pages.read_page(addr, into)
    }

    fn write_page(&mut self, addr: u64, page: &[u8]) -> io::Result<()>
        requires { length page.now ≡ RECORD }
        ensures noted { self.new.pages.calls.events ≡ page_written addr (is_ok result) page.now ∷ self.old.pages.calls.events }
        ensures apart { IsApart self.old.cell self.new.cell self.old.failure self.new.failure }
    {
        self.pages.write_page(addr, page)
    }

    fn sync_media(&mut self) -> io::Result<()>
        ensures noted { self.new.pages.calls.events ≡ media_synced (is_ok result) ∷ self.old.pages.calls.events }
        ensures apart { IsApart self.old.cell self.new.cell self.old.failure self.new.failure }
    {
        self.pages.sync_media()
    }

    fn sync_pages(&mut self) -> io::Result<()>
        ensures noted { self.new.pages.calls.events ≡ media_synced (is_ok result) ∷ self.old.pages.calls.events }
        ensures apart { IsApart self.old.cell self.new.cell self.old.failure self.new.failure }
    {
        self.pages.sync_pages()
    }

    fn sync_folder(&mut self) -> io::Result<()>
        ensures noted { self.new.pages.calls.events ≡ folder_synced (is_ok result) ∷ self.old.pages.calls.events }
        ensures apart { IsApart self.old.cell self.new.cell self.old.failure self.new.failure }
    {
        self.pages.sync_folder()
    }
}

impl<R: Files, T: TpmCalls + Drop> CellCalls for InTpm<R, T> {
    // Nothing stands beside a cell in place.
    fn tidy(&mut self) -> Result<(), OpenRefusal>
        ensures noted { IfOk result (λ _. self.new.pages.calls.events ≡ new_removed true ∷ self.old.pages.calls.events) }
        ensures told { IfErr result (TellsLast self.new.pages.calls.events) }
        ensures cause { IfErr result (ShowsCause ⊥) }
        ensures apart { IsApart self.old.cell self.new.cell self.old.failure self.new.failure }
    {
        self.pages.note(FileCall::RemoveNew, 0, true, &[]);
        Ok(())
    }

    // What is in a cell in place is stored.
    fn settle(&mut self) -> Result<(), OpenRefusal>
        ensures noted { IfOk result (λ _. self.new.pages.calls.events ≡ cell_synced true ∷ root_synced true ∷ self.old.pages.calls.events) }
        ensures told { IfErr result (TellsLast self.new.pages.calls.events) }
        ensures cause { IfErr result (ShowsCause ⊥) }
        ensures apart { IsApart self.old.cell self.new.cell self.old.failure self.new.failure }
    {
        self.pages.note(FileCall::SyncRoot, 0, true, &[]);
        self.pages.note(FileCall::SyncCell, 0, true, &[]);
        Ok(())
    }

    fn load(&mut self, into: &mut [u8]) -> io::Result<bool>
        requires { length into.old ≡ ROOT }
        ensures noted { NotesCell result into.new (self.old.pages.calls.events) (self.new.pages.calls.events) }
        // What is noted is what the index holds.
        ensures loaded { IfOk result (λ full. (held : Option (List ℕ)) × Reads T.TpmCalls.asks self.old.cell.index held self.old.cell.tpm self.new.cell.tpm
            × IsInCell held (if full then Some into.new else None)) }
        // Where it failed, no more was asked than to read the index.
        ensures failed { OnErr result (IsSomeAnd self.new.failure (FailsAs T.TpmCalls.asks (read_bytes self.old.cell.index) IsContent self.old.cell.tpm self.new.cell.tpm)) }
        // Why an earlier call failed stays known behind one that was done.
        ensures kept { OnOk result (self.new.failure ≡ self.old.failure) }
    {
        match self.cell.load(into) {
            Ok(true) => {
                self.pages.note(FileCall::ReadRoot, 1, true, into);
                Ok(true)
            }
            Ok(false) => {
                self.pages.note(FileCall::ReadRoot, 0, true, &[]);
                Ok(false)
            }
            Err(fault) => {
                self.pages.note(FileCall::ReadRoot, 0, false, &[]);
                failed(&mut self.failure, fault)
            }
        }
    }

    fn replace(&mut self, bytes: &[u8]) -> io::Result<()>
        requires { length bytes.now ≡ ROOT }
        ensures noted { Replaces bytes.now (is_ok result) (self.old.pages.calls.events) (self.new.pages.calls.events) }
        // It is noted as done only where the TPM stored the bytes.
        ensures stored { OnOk result (Stores T.TpmCalls.asks self.old.cell.index bytes.now self.old.cell.tpm self.new.cell.tpm) }
        // Where it failed, no more was asked than to write these bytes, and to read them back.
        ensures failed { OnErr result (IsSomeAnd self.new.failure (StoresNot T.TpmCalls.asks self.old.cell.index bytes.now self.old.cell.tpm self.new.cell.tpm)) }
        ensures kept { OnOk result (self.new.failure ≡ self.old.failure) }
    {
        match self.cell.replace(bytes) {
            Ok(()) => {
                self.pages.note(FileCall::ReplaceInPlace, 0, true, bytes);
                Ok(())
            }
            Err(fault) => {
                self.pages.note(FileCall::ReplaceInPlace, 0, false, bytes);
                failed(&mut self.failure, fault)
            }
        }
    }

    fn clear(&mut self) -> io::Result<()>
        ensures noted { Clears (is_ok result) (self.old.pages.calls.events) (self.new.pages.calls.events) }
        ensures stored { OnOk result (Stores T.TpmCalls.asks self.old.cell.index no_root self.old.cell.tpm self.new.cell.tpm) }
        ensures failed { OnErr result (IsSomeAnd self.new.failure (StoresNot T.TpmCalls.asks self.old.cell.index no_root self.old.cell.tpm self.new.cell.tpm)) }
        ensures kept { OnOk result (self.new.failure ≡ self.old.failure) }
    {
        match self.cell.clear() {
            Ok(()) => {
                self.pages.note(FileCall::ClearInPlace, 0, true, &[]);
                Ok(())
            }
            Err(fault) => {
                self.pages.note(FileCall::ClearInPlace, 0, false, &[]);
                failed(&mut self.failure, fault)
            }
        }
    }
}

/// A call on the cell failed, and why is kept.
pub(crate) fn failed<V>(failure: &mut Option<TpmFault>, fault: TpmFault) -> io::Result<V>
    ensures refused { IsErr result }
    ensures kept { failure.new ≡ Some fault }
{
    *failure = Some(fault);
    Err(ErrorKind::Other.into())
}

//! A device whose root record is in a TPM, and that is only looked at.
ghost use Rattle.std.specs.Prelude.{◌≡◌, ◌∷◌, ℕ, List, Option, Some, None, if◌then◌else◌, is_ok, length, IfOk, IsSomeAnd, OnErr, OnOk};
ghost use Rattle.folder_platform.specs.Events.{page_read};
ghost use Rattle.folder_platform.specs.Sequences.{NotesCount, NotesCell};
ghost use Rattle.tpm_nv.specs.Messages.{read_bytes};
ghost use Rattle.tpm_nv.specs.Replies.{IsContent};
ghost use Rattle.tpm_cell.specs.Asking.{FailsAs, IsApart, IsInCell, Reads};

use crate::in_tpm::failed;
use crate::{TpmCalls, TpmCell, TpmFault};
use folder_files::LookPages;
use folder_platform::{FileCall, LookCalls};
use sdbt_base::{RECORD, ROOT};
use std::io;
use std::rt::Files;

/// The pages of a folder, and a cell in place: an index of a TPM. Both are only read.
#[derive(Drop)]
pub struct LookInTpm<R: Files, T: TpmCalls + Drop> {
    pages: LookPages<R>,
    cell: TpmCell<T>,
    failure: Option<TpmFault>,
}

impl<R: Files, T: TpmCalls + Drop> LookInTpm<R, T> {
    /// These pages, with this cell.
    pub fn new(pages: LookPages<R>, cell: TpmCell<T>) -> LookInTpm<R, T>
        ensures pages { result.pages ≡ pages }
        ensures cell { result.cell ≡ cell }
        ensures unfailed { result.failure ≡ None }
    {
        LookInTpm {
            pages,
            cell,
            failure: None,
        }
    }

    /// Why the last call on the cell failed that did.
    pub fn failure(&self) -> Option<TpmFault>
        ensures { result ≡ self.now.failure }
    {
        self.failure
    }
}

impl<R: Files, T: TpmCalls + Drop> LookCalls for LookInTpm<R, T> {
    ghost use Rattle.folder_files.specs.Found.{nothing, nothing-files};

    ghost start = { λ _. nothing };

    ghost events = { λ it. it.pages.calls.events };

    ghost occurs = { λ _ _. Unit {0} };

    ghost are_files = { λ _. nothing-files };

    ghost occurred = { λ _. tt };

    fn look_for_pages(&mut self) -> io::Result<u64>
        ensures noted { NotesCount result self.old.pages.calls.events self.new.pages.calls.events }
        // A look that is not at the cell leaves it, and asks nothing of the TPM.
        ensures apart { IsApart self.old.cell self.new.cell self.old.failure self.new.failure }
    {
        self.pages.look_for_pages()
    }

    fn look_at_page(&mut self, addr: u64, into: &mut [u8]) -> io::Result<()>
        requires { length into.old ≡ RECORD }
        ensures noted { self.new.pages.calls.events ≡ page_read addr (is_ok result) into.new ∷ self.old.pages.calls.events }
        ensures apart { IsApart self.old.cell self.new.cell self.old.failure self.new.failure }
    {
        self.pages.look_at_page(addr, into)
    }

    fn look_at_cell(&mut self, into: &mut [u8]) -> io::Result<bool>
        requires { length into.old ≡ ROOT }
        ensures noted { NotesCell result into.new (self.old.pages.calls.events) (self.new.pages.calls.events) }
        // What is noted is what the index holds.
        ensures loaded { IfOk result (λ full. (held : Option (List ℕ)) × Reads T.TpmCalls.asks self.old.cell.index held self.old.cell.tpm self.new.cell.tpm
            × IsInCell held (if full then Some into.new else None)) }
        // Where it failed, no more was asked than to read the index.
        ensures failed { OnErr result (IsSomeAnd self.new.failure (FailsAs T.TpmCalls.asks (read_bytes self.old.cell.index) IsContent self.old.cell.tpm self.new.cell.tpm)) }
        // Why an earlier call failed stays known behind one that was done.
        ensures kept { OnOk result (self.new.failure ≡ self.old.failure) }
    {
        match self.cell.load(into) {
            Ok(true) => {
                self.pages.note(FileCall::ReadRoot, 1, true, into);
                Ok(true)
            }
            Ok(false) => {
                self.pages.note(FileCall::ReadRoot, 0, true, &[]);
                Ok(false)
            }
            Err(fault) => {
                self.pages.note(FileCall::ReadRoot, 0, false, &[]);
                failed(&mut self.failure, fault)
            }
        }
    }
}

//! Why a run over folders could not begin.

ghost use Rattle.std.specs.Prelude.{◌≡◌, ◌↔◌, IsTrue};
ghost use Rattle.folder_objects.specs.Causes.{IsMemory, not_ready_of};
ghost use Rattle.folder_objects.specs.declared.not_ready.NotReady.TheVariants.{Platform};
ghost use Rattle.folder_platform.specs.declared.refusals.OpenRefusal.TheVariants as folders;

use crate::RANDOM;
use folder_platform::{FolderFile, OpenRefusal};
use sdbt_base::Memory;
use std::alloc::AllocError;
use std::io;
use tpm_cell::{CellRefusal, TpmNotReady};

/// Why a run over folders could not begin.
#[derive(Drop)]
pub enum NotReady {
    /// The folders can't be a platform.
    Platform(OpenRefusal),
    /// The folder of a medium can't be one's, whose root record is elsewhere.
    Medium(OpenRefusal),
    /// The index of a TPM can't be a platform's cell.
    Index(CellRefusal),
    /// The source of keys could not be opened.
    Keys(io::Error),
}

/// The exit status where a folder, a file in it or the random source could not be made ready.
const NOT_READY: u8 = 1;

/// The exit status where memory was refused.
const NO_MEMORY: u8 = 11;

impl NotReady {
    /// The exit status of a run that could not begin. What is not ready, the file and the system's reason, is said on standard error for
    /// the program of this name, but for want of memory.
    pub fn status_told(&self, rt: &impl Eprint, program: &str, cell: &str, folder: &str) -> u8
        ensures memory { IsMemory self.now → result ≡ 11 }
        ensures other { (IsMemory self.now → ⊥) → result ≡ 1 }
    {
        if self.is_memory() {
            return NO_MEMORY;
        }
        let _ = self.tell(rt, program, cell, folder);
        NOT_READY
    }

    fn is_memory(&self) -> bool
        ensures { IsTrue result ↔ IsMemory self.now }
    {
        match self {
            NotReady::Platform(refusal) | NotReady::Medium(refusal) => {
                matches!(refusal, OpenRefusal::Memory)
            }
            NotReady::Index(CellRefusal::Io(error)) | NotReady::Keys(error) => {
                error.kind() == io::ErrorKind::OutOfMemory
            }
            NotReady::Index(_) => false,
        }
    }

    fn tell(&self, rt: &impl Eprint, program: &str, cell: &str, folder: &str) -> io::Result<()> {
        eprintln!(rt; "folder not ready")?;
        match self {
            NotReady::Platform(refusal) => tell_refusal(refusal, rt, program, cell, folder),
            NotReady::Medium(refusal) => tell_refusal(refusal, rt, program, folder, folder),
            NotReady::Index(refusal) => eprintln!(rt; "{program}: {cell}: {refusal}"),
            NotReady::Keys(error) => eprintln!(rt; "{program}: {RANDOM}: {error}"),
        }
    }
}

// Says which file or folder of a platform is refused, and why.
fn tell_refusal(
    refusal: &OpenRefusal,
    rt: &impl Eprint,
    program: &str,
    cell: &str,
    folder: &str,
) -> io::Result<()> {
    match refusal {
        OpenRefusal::TooLong { .. } => eprintln!(rt; "{program}: {folder}/media: {refusal}"),
        OpenRefusal::InUse if cell == folder => eprintln!(rt; "{program}: {folder}: {refusal}"),
        OpenRefusal::InUse => eprintln!(rt; "{program}: {cell} or {folder}: {refusal}"),
        OpenRefusal::Io { file, .. }
        | OpenRefusal::NotOwn { file, .. }
        | OpenRefusal::Exchanged { file, .. } => match file {
            FolderFile::Cell => eprintln!(rt; "{program}: {cell}: {refusal}"),
            FolderFile::Folder => eprintln!(rt; "{program}: {folder}: {refusal}"),
            FolderFile::Media => eprintln!(rt; "{program}: {folder}/media: {refusal}"),
            FolderFile::Root => eprintln!(rt; "{program}: {cell}/root: {refusal}"),
            FolderFile::NewRoot => eprintln!(rt; "{program}: {cell}/root.new: {refusal}"),
            FolderFile::Ledger => eprintln!(rt; "{program}: {folder}/ledger: {refusal}"),
        },
        OpenRefusal::Memory => eprintln!(rt; "{program}: {refusal}"),
    }
}

impl From<OpenRefusal> for NotReady {
    ghost from_gives = { λ refusal told. told ≡ Platform refusal };

    fn from(refusal: OpenRefusal) -> NotReady {
        NotReady::Platform(refusal)
    }
}

impl From<TpmNotReady> for NotReady {
    ghost from_gives = { λ refusal told. told ≡ not_ready_of refusal };

    fn from(not_ready: TpmNotReady) -> NotReady {
        match not_ready {
            TpmNotReady::Cell(refusal) => NotReady::Index(refusal),
            TpmNotReady::Folder(refusal) => NotReady::Medium(refusal),
        }
    }
}

impl From<AllocError> for NotReady {
    ghost from_gives = { λ error told. told ≡ Platform folders.Memory };

    fn from(_error: AllocError) -> NotReady {
        NotReady::Platform(OpenRefusal::Memory)
    }
}

impl From<Memory> for NotReady {
    ghost from_gives = { λ error told. told ≡ Platform folders.Memory };

    fn from(_error: Memory) -> NotReady {
        NotReady::Platform(OpenRefusal::Memory)
    }
}

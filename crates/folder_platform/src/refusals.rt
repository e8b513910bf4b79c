//! Why folders can't be a platform.
ghost use Rattle.std.specs.Prelude.{◌≡◌, ◌≤◌, Ok, IfOk, IfErr};
ghost use Rattle.folder_platform.specs.Refusals.{IsRefusalOf, IsMemory, TellsFile, RefusesPages};

use crate::Found;
use sdbt_base::{MAX_PAGES, RECORD};
use std::alloc::AllocError;
use std::error::Error;
use std::{fmt, io};

/// What is opened of a platform in folders.
#[derive(Clone, Copy, Debug, PartialEq, Eq)]
pub enum FolderFile {
    /// The folder of the root record.
    Cell,
    /// The folder of the medium.
    Folder,
    /// The file `media` in the folder of the medium.
    Media,
    /// The file `root` in the folder of the root record.
    Root,
    /// The file `root.new` in the folder of the root record.
    NewRoot,
    /// The file `ledger` in the folder of the medium.
    Ledger,
}

/// Why folders can't be opened as a platform.
#[derive(Clone, Copy, Debug)]
pub enum OpenRefusal {
    /// `media` has this length, which is more than that of 2^32 pages.
    TooLong {
        len: u64,
    },
    /// Another platform has the lock on `media`, or on the folder of the root record.
    InUse,
    /// A call on this file failed, for another cause than want of memory.
    Io {
        file: FolderFile,
        error: io::Error,
    },
    /// What has the name of this file is no regular file, or has another name too.
    NotOwn {
        file: FolderFile,
        found: Found,
    },
    /// Something else came to have this name while it was opened.
    Exchanged {
        file: FolderFile,
        looked: Found,
        opened: Found,
    },
    /// No memory was given.
    Memory,
}

impl OpenRefusal {
    /// What an error of a file says.
    pub fn of(file: FolderFile, error: io::Error) -> OpenRefusal
        ensures { IsRefusalOf file error result }
    {
        if error.kind() == io::ErrorKind::OutOfMemory {
            OpenRefusal::Memory
        } else {
            OpenRefusal::Io { file, error }
        }
    }
}

/// What a call on a file answered: its error becomes a refusal that names the file.
pub fn told<T>(file: FolderFile, outcome: io::Result<T>) -> Result<T, OpenRefusal>
    ensures { TellsFile file outcome result }
{
    match outcome {
        Ok(value) => Ok(value),
        Err(error) => Err(OpenRefusal::of(file, error)),
    }
}

/// What a count of the pages of `media` answered: more than a medium can have are refused.
pub(crate) fn pages_told(outcome: io::Result<u64>) -> Result<u64, OpenRefusal>
    ensures counted { IfOk result (λ pages. outcome ≡ Ok pages) }
    ensures within { IfOk result (λ pages. pages ≤ MAX_PAGES) }
    ensures refused { IfErr result (RefusesPages outcome) }
{
    let pages = told(FolderFile::Media, outcome)?;
    if pages > MAX_PAGES {
        let len = pages.saturating_mul(RECORD as u64);
        return Err(OpenRefusal::TooLong { len });
    }
    Ok(pages)
}

impl fmt::Display for OpenRefusal {
    ghost use Rattle.folder_platform.specs.Texts.{open_text};

    ghost output = { open_text };

    fn fmt<W: fmt::Write>(&self, f: &mut fmt::Formatter<W>) -> fmt::Result {
        match self {
            OpenRefusal::TooLong { len } => write!(
                f,
                "a medium of {len} bytes has more than 2^32 pages"
            ),
            OpenRefusal::InUse => write!(f, "in use by another program"),
            OpenRefusal::Io { error, .. } => write!(f, "{error}"),
            OpenRefusal::NotOwn { found, .. } => { write!(f, "{found}, and not a file of its own") }
            OpenRefusal::Exchanged { .. } => write!(f, "exchanged while it was opened"),
            OpenRefusal::Memory => write!(f, "out of memory"),
        }
    }
}

impl Error for OpenRefusal {}

impl From<AllocError> for OpenRefusal {
    ghost from_gives = { λ _ refusal. IsMemory refusal };

    fn from(_error: AllocError) -> OpenRefusal {
        OpenRefusal::Memory
    }
}

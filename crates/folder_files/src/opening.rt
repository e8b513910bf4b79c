//! A platform in folders that exist: what is done before the first call on their files.
ghost use Rattle.std.specs.Prelude.{◌≡◌, ◌≤◌, ◌<◌, ◌*◌, ◌↔◌, [], false, IfOk, IfErr, IsOk};
ghost use Rattle.sdbt_base.specs.declared.limits.TheConstants.{RECORD};
ghost use Rattle.folder_platform.specs.Refusals.{ShowsCause, Names};
ghost use Rattle.folder_platform.specs.declared.refusals.FolderFile.TheVariants.{Folder, Media};
ghost use Rattle.folder_files.specs.Answers.{TellsHeld};

use crate::cell_folder::CellFolder;
use crate::media_file::PAGE_LEN;
use crate::own_file::{look, open_folder, open_or_make};
use crate::record::Record;
use crate::{LockFile, StdFiles, StdPages};
use folder_platform::{FolderFile, FolderPlatform, InFolder, OpenRefusal, told};
use platform::Platform;
use sdbt_base::MAX_PAGES;
use std::fs::{OpenFile, OpenOptions};
use std::io::{self, ErrorKind};
use std::rt::Files;

/// The platform in two folders that exist: the root record in `cell`, and the medium in `folder`. They may be one.
///
/// As long as it is there, it has the locks on `media` and on the folder of `root`. They are advisory: they keep out
/// other platforms, and no other program. Nothing is changed before both are taken, but that `media` is made where
/// there is none; and nothing at all where a file of the device, the ledger too, is none of its own.
pub fn open_in_folders<R: Files + Alloc + Clone + Drop>(
    rt: R,
    cell: &str,
    folder: &str,
) -> Result<FolderPlatform<InFolder<StdFiles<R>>>, OpenRefusal>
where
    R::File: LockFile,
    ensures faults { IfOk result (λ platform. ⟦<FolderPlatform<InFolder<StdFiles<R>>> as Platform>⟧.faults platform ≡ 0) }
    ensures sound { IfOk result (λ platform. platform.is_stuck ≡ false) }
    // That another has a lock is said only where a file says that it is held.
    ensures cause { IfErr result (ShowsCause ((held : R.File) × R.File.is_held held)) }
{
    let files = files_in_folders(rt, cell, folder)?;
    FolderPlatform::open(InFolder { files })
}

/// The files of two folders, with both locks, and no call on them yet: see [`open_in_folders`].
pub fn files_in_folders<R: Files + Alloc + Clone + Drop>(
    rt: R,
    cell: &str,
    folder: &str,
) -> Result<StdFiles<R>, OpenRefusal>
where
    R::File: LockFile,
    ensures new { IfOk result (λ files. files.pages.calls.events ≡ []) }
    ensures cause { IfErr result (ShowsCause ((held : R.File) × R.File.is_held held)) }
{
    let cell = CellFolder::open(rt.clone()?, cell)?;
    let folder = MediaFolder::open(&rt, folder)?;
    lock_cell(&cell)?;
    let pages = folder.into_pages(&rt)?;
    Ok(StdFiles {
        pages,
        cell,
        new_file: None,
    })
}

// Takes the lock on the folder of a root record, and refuses files in it that are none of their own.
fn lock_cell<R: Files + Alloc + Drop>(cell: &CellFolder<R>) -> Result<(), OpenRefusal>
where
    R::File: LockFile,
    ensures cause { IfErr result (ShowsCause ((held : R.File) × R.File.is_held held)) }
{
    lock(FolderFile::Cell, cell.folder())?;
    cell.look_at_root()?;
    cell.look_at_new()
}

/// The pages of a device in a folder that exists, with the lock on `media`, and no call on them yet. Nothing is changed
/// before it is taken, but that `media` is made where there is none.
pub fn pages_in_folder<R: Files + Alloc>(rt: &R, folder: &str) -> Result<StdPages<R>, OpenRefusal>
where
    R::File: LockFile,
    ensures new { IfOk result (λ pages. pages.calls.events ≡ []) }
    ensures cause { IfErr result (ShowsCause ((held : R.File) × R.File.is_held held)) }
{
    MediaFolder::open(rt, folder)?.into_pages(rt)
}

// An open folder of a medium, and the paths of the files `media` and `ledger` in it.
#[derive(Drop)]
struct MediaFolder<R: Files + Alloc> {
    media: String<R::A>,
    ledger: String<R::A>,
    folder: R::File,
}

impl<R: Files + Alloc> MediaFolder<R> {
    // The folder of this path. No file in it is looked at.
    fn open(rt: &R, path: &str) -> Result<MediaFolder<R>, OpenRefusal>
        ensures cause { IfErr result (ShowsCause ⊥) }
        ensures names { IfErr result (Names Folder) }
    {
        let media = format!(in rt.alloc(); "{path}/media")?;
        let ledger = format!(in rt.alloc(); "{path}/ledger")?;
        let folder = open_folder(rt, FolderFile::Folder, path)?;
        Ok(MediaFolder {
            media,
            ledger,
            folder,
        })
    }

    // Its pages, with the lock on `media`, once it was looked whether the ledger is a file of its own.
    fn into_pages(self, rt: &R) -> Result<StdPages<R>, OpenRefusal>
    where
        R::File: LockFile,
        ensures new { IfOk result (λ pages. pages.calls.events ≡ []) }
        ensures cause { IfErr result (ShowsCause ((held : R.File) × R.File.is_held held)) }
    {
        look(rt, FolderFile::Ledger, self.ledger.as_str())?;
        let MediaFolder { media, folder, .. } = self;
        lock_pages(rt, folder, media.as_str())
    }
}

// The pages of an open folder, and of the file of this name in it, with the lock on that.
fn lock_pages<R: Files>(rt: &R, folder: R::File, media: &str) -> Result<StdPages<R>, OpenRefusal>
where
    R::File: LockFile,
    ensures new { IfOk result (λ pages. pages.calls.events ≡ []) }
    ensures cause { IfErr result (ShowsCause ((held : R.File) × R.File.is_held held)) }
    ensures names { IfErr result (Names Media) }
{
    let how = &mut OpenOptions::new();
    let media = open_or_make(rt, FolderFile::Media, media, how.read(true).write(true))?;
    lock(FolderFile::Media, &media)?;
    let metadata = told(FolderFile::Media, media.metadata())?;
    not_too_long(metadata.len())?;
    Ok(StdPages {
        folder,
        media,
        calls: Record::new(),
    })
}

// Takes the lock on a file.
fn lock<F: LockFile>(name: FolderFile, file: &F) -> Result<(), OpenRefusal>
    ensures cause { IfErr result (ShowsCause ((held : F) × F.is_held held)) }
    ensures names { IfErr result (Names name) }
{
    locked(name, file.try_lock())
}

/// What a try for the lock on a file answered: that another has it is a refusal of its own.
pub(crate) fn locked(file: FolderFile, outcome: io::Result<()>) -> Result<(), OpenRefusal>
    ensures { TellsHeld file outcome result }
{
    match outcome {
        Err(error) if error.kind() == ErrorKind::WouldBlock => Err(OpenRefusal::InUse),
        other => told(file, other),
    }
}

/// Refuses a file of so many bytes where no medium has as many pages, of which the last may be there in part.
pub(crate) fn not_too_long(len: u64) -> Result<(), OpenRefusal>
    ensures limit { IsOk result ↔ (len ≤ MAX_PAGES * RECORD) }
    ensures refusal { IfErr result (λ refusal. refusal ≡ OpenRefusal.TooLong len) }
{
    if len > MAX_PAGES * PAGE_LEN {
        return Err(OpenRefusal::TooLong { len });
    }
    Ok(())
}

//! A platform in folders that exist, of which nothing is changed.
ghost use Rattle.std.specs.Prelude.{◌≡◌, [], IfOk, IfErr};
ghost use Rattle.folder_platform.specs.Refusals.{ShowsCause};

use crate::cell_folder::CellFolder;
use crate::opening::{locked, not_too_long};
use crate::own_file::{open_folder, open_own};
use crate::record::Record;
use crate::{LockFile, LookFiles, LookPages};
use folder_platform::{FolderFile, FolderView, OpenRefusal, told};
use platform::Platform;
use std::fs::{OpenFile, OpenOptions};
use std::rt::Files;

/// The platform in two folders that exist, which is only looked at: the root record in `cell`, and the medium in `folder`. They may
/// be one, and all may be there to be read alone.
///
/// As long as it is there, it has shared locks on `media`, if that is there, and on the folder of `root`: they keep out platforms that
/// may change something, and no other program. Nothing is made, filled up or removed.
pub fn view_in_folders<R: Files + Alloc + Clone + Drop>(
    rt: R,
    cell: &str,
    folder: &str,
) -> Result<FolderView<LookFiles<R>>, OpenRefusal>
where
    R::File: LockFile,
    ensures faults { IfOk result (λ view. ⟦<FolderView<LookFiles<R>> as Platform>⟧.faults view ≡ 0) }
    // That another has a lock is said only where a file says that it is held.
    ensures cause { IfErr result (ShowsCause ((held : R.File) × R.File.is_held held)) }
{
    let cell = CellFolder::open(rt.clone()?, cell)?;
    share_cell(&cell)?;
    let pages = look_at_pages(&rt, folder)?;
    Ok(FolderView::open(LookFiles { pages, cell })?)
}

// Takes the shared lock on the folder of a root record, and refuses a `root` that is no file of its own.
fn share_cell<R: Files + Alloc + Drop>(cell: &CellFolder<R>) -> Result<(), OpenRefusal>
where
    R::File: LockFile,
    ensures cause { IfErr result (ShowsCause ((held : R.File) × R.File.is_held held)) }
{
    lock_shared(FolderFile::Cell, cell.folder())?;
    cell.look_at_root()
}

/// The pages of a device in a folder that exists, which are only looked at, with the shared lock on `media`, if that is there.
pub fn look_at_pages<R: Files + Alloc>(rt: &R, folder: &str) -> Result<LookPages<R>, OpenRefusal>
where
    R::File: LockFile,
    ensures new { IfOk result (λ pages. pages.calls.events ≡ []) }
    ensures cause { IfErr result (ShowsCause ((held : R.File) × R.File.is_held held)) }
{
    let path = format!(in rt.alloc(); "{folder}/media")?;
    let _folder = open_folder(rt, FolderFile::Folder, folder)?;
    let how = &mut OpenOptions::new();
    let media = open_own(rt, FolderFile::Media, path.as_str(), how.read(true))?;
    share_media(&media)?;
    Ok(LookPages {
        media,
        len: 0,
        calls: Record::new(),
    })
}

// Takes the shared lock on `media`, if it is there, and refuses it where no medium is so long.
fn share_media<F: LockFile + OpenFile>(media: &Option<F>) -> Result<(), OpenRefusal>
    ensures cause { IfErr result (ShowsCause ((held : F) × F.is_held held)) }
{
    let Some(file) = media else {
        return Ok(());
    };
    lock_shared(FolderFile::Media, file)?;
    not_too_long(told(FolderFile::Media, file.metadata())?.len())
}

// Takes the shared lock on a file.
fn lock_shared<F: LockFile>(name: FolderFile, file: &F) -> Result<(), OpenRefusal>
    ensures cause { IfErr result (ShowsCause ((held : F) × F.is_held held)) }
{
    locked(name, file.try_lock_shared())
}

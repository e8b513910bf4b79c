//! The folder of a root record, and the files in it.
ghost use Rattle.std.specs.Prelude.{◌≡◌, ◌≤◌, ⊤, length, IfOk, IfErr, MatchOption};
ghost use Rattle.folder_platform.specs.Refusals.{ShowsCause, Names};
ghost use Rattle.folder_platform.specs.declared.refusals.FolderFile.TheVariants.{Cell, Root, NewRoot};

use crate::own_file::{look, open_folder};
use crate::root_file;
use folder_platform::{FolderFile, Found, OpenRefusal};
use std::alloc::{AllocError, Allocator};
use std::fs::{self, OpenFile};
use std::io::{self, ErrorKind};
use std::rt::Files;

/// An open folder by its path, with the files `root` and `root.new` in it, which are reached by their paths too.
///
/// So each call first looks whether the path still leads to the folder that was opened; and a sync of it looks so once it is done.
#[derive(Drop)]
pub(crate) struct CellFolder<R: Files + Alloc + Drop> {
    rt: R,
    paths: Paths<R::A>,
    folder: R::File,
}

// The paths of the folder, and of the files `root` and `root.new` in it.
#[derive(Drop)]
struct Paths<A: Allocator> {
    folder: String<A>,
    root: String<A>,
    new_root: String<A>,
}

// Those of a folder of this path.
fn paths_of<R: Alloc>(rt: &R, folder: &str) -> Result<Paths<R::A>, AllocError> {
    Ok(Paths {
        folder: format!(in rt.alloc(); "{folder}")?,
        root: format!(in rt.alloc(); "{folder}/root")?,
        new_root: format!(in rt.alloc(); "{folder}/root.new")?,
    })
}

impl<R: Files + Alloc + Drop> CellFolder<R> {
    /// The folder of this path. No file in it is looked at.
    pub(crate) fn open(rt: R, path: &str) -> Result<CellFolder<R>, OpenRefusal>
        ensures cause { IfErr result (ShowsCause ⊥) }
        ensures names { IfErr result (Names Cell) }
    {
        let paths = paths_of(&rt, path)?;
        let folder = open_folder(&rt, FolderFile::Cell, path)?;
        Ok(CellFolder { rt, paths, folder })
    }

    /// The open folder.
    pub(crate) fn folder(&self) -> &R::File
        ensures { result.now ≡ self.now.folder }
    {
        &self.folder
    }

    /// Refuses a `root` that is no file of its own.
    pub(crate) fn look_at_root(&self) -> Result<(), OpenRefusal>
        ensures cause { IfErr result (ShowsCause ⊥) }
        ensures names { IfErr result (Names Root) }
    {
        look(&self.rt, FolderFile::Root, self.paths.root.as_str())?;
        Ok(())
    }

    /// The same of `root.new`.
    pub(crate) fn look_at_new(&self) -> Result<(), OpenRefusal>
        ensures cause { IfErr result (ShowsCause ⊥) }
        ensures names { IfErr result (Names NewRoot) }
    {
        look(&self.rt, FolderFile::NewRoot, self.paths.new_root.as_str())?;
        Ok(())
    }

    /// How many bytes of `root` were put into the buffer, from the first one on; or `None`, if it isn't there.
    pub(crate) fn read_root(&self, into: &mut [u8]) -> io::Result<Option<usize>>
        ensures { IfOk result (λ n. MatchOption n ⊤ (λ n. n ≤ length into.old)) }
    {
        self.stays()?;
        root_file::read(&self.rt, self.paths.root.as_str(), into)
    }

    /// Syncs `root`, if it is there.
    pub(crate) fn sync_root(&self) -> io::Result<()> {
        self.stays()?;
        root_file::sync(&self.rt, self.paths.root.as_str())
    }

    /// Removes `root`, if it is there.
    pub(crate) fn remove_root(&self) -> io::Result<()> {
        self.stays()?;
        root_file::remove(&self.rt, self.paths.root.as_str())
    }

    /// Removes `root.new`, if it is there.
    pub(crate) fn remove_new(&self) -> io::Result<()> {
        self.stays()?;
        root_file::remove(&self.rt, self.paths.new_root.as_str())
    }

    /// Makes `root.new`, which must not be there, with these bytes. It stays open.
    pub(crate) fn make_new(&self, bytes: &[u8]) -> io::Result<R::File> {
        self.stays()?;
        root_file::make(&self.rt, self.paths.new_root.as_str(), bytes)
    }

    /// Renames `root.new` to `root`.
    pub(crate) fn rename_new(&self) -> io::Result<()> {
        self.stays()?;
        fs::rename(
            &self.rt,
            self.paths.new_root.as_str(),
            self.paths.root.as_str(),
        )
    }

    /// Syncs the folder.
    pub(crate) fn sync(&self) -> io::Result<()> {
        self.folder.sync_all()?;
        self.stays()
    }

    // Whether the path still leads to the folder. The kind of the error is `NotFound` where it leads to another one.
    fn stays(&self) -> io::Result<()> {
        let there = Found::of(&fs::metadata(&self.rt, self.paths.folder.as_str())?);
        if !there.is_same(&Found::of(&self.folder.metadata()?)) {
            return Err(ErrorKind::NotFound.into());
        }
        Ok(())
    }
}

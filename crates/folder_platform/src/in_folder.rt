//! The cell of a root record in a folder.
ghost use Rattle.std.specs.Prelude.{◌≡◌, ◌↔◌, Some, length, is_ok, IsTrue, IsSome};
ghost use Rattle.folder_platform.specs.Told.{record_of};
ghost use Rattle.folder_platform.specs.Sequences.{Renames, Unlinks, NotesCell};

use crate::{CellCalls, FolderCalls, FolderFile, OpenRefusal, PageCalls, told};
use sdbt_base::{RECORD, ROOT};
use std::io;

/// A device whose root record is in a folder: the file `root`, and `root.new` while one is on its way.
///
/// `root` absent or empty is an empty cell; of another length than a root record's it reads as zeros, which are no
/// root record.
#[derive(Drop)]
pub struct InFolder<C: FolderCalls + Drop> {
    /// The files.
    pub files: C,
}

impl<C: FolderCalls + Drop> PageCalls for InFolder<C> {
    ghost start = { λ cell. C.start cell.files };

    ghost events = { λ cell. C.events cell.files };

    ghost occurs = { C.occurs };

    ghost are_files = { λ cell. C.are_files cell.files };

    ghost occurred = { λ cell. C.occurred cell.files };

    fn count_pages(&mut self) -> io::Result<u64> {
        self.files.count_pages()
    }

    fn read_page(&mut self, addr: u64, into: &mut [u8]) -> io::Result<()> {
        self.files.read_page(addr, into)
    }

    fn write_page(&mut self, addr: u64, page: &[u8]) -> io::Result<()> {
        self.files.write_page(addr, page)
    }

    fn sync_media(&mut self) -> io::Result<()> {
        self.files.sync_media()
    }

    fn sync_pages(&mut self) -> io::Result<()> {
        self.files.sync_pages()
    }

    fn sync_folder(&mut self) -> io::Result<()> {
        self.files.sync_folder()
    }
}

impl<C: FolderCalls + Drop> CellCalls for InFolder<C> {
    fn tidy(&mut self) -> Result<(), OpenRefusal> {
        told(FolderFile::NewRoot, self.files.remove_new())
    }

    fn settle(&mut self) -> Result<(), OpenRefusal> {
        told(FolderFile::Root, self.files.sync_root())?;
        told(FolderFile::Cell, self.files.sync_cell())
    }

    fn load(&mut self, into: &mut [u8]) -> io::Result<bool> {
        load_root(&mut self.files, into)
    }

    fn replace(&mut self, bytes: &[u8]) -> io::Result<()> {
        replace_root(&mut self.files, bytes)
    }

    fn clear(&mut self) -> io::Result<()> {
        remove_root(&mut self.files)
    }
}

static ZERO_ROOT: [u8; ROOT] = [0; ROOT];

// Whether `root` has a root record, which is then in the buffer: zeros, if it has another length than one.
fn load_root<C: FolderCalls>(files: &mut C, into: &mut [u8]) -> io::Result<bool>
    requires { length into.old ≡ ROOT }
    ensures start { C.start files.new ≡ C.start files.old }
    ensures noted { NotesCell result into.new (C.events files.old) (C.events files.new) }
{
    let mut bytes = [0; ROOT + 1];
    match files.read_root(&mut bytes)? {
        None => Ok(false),
        Some(count) => Ok(record_in(&bytes[..count], into)),
    }
}

/// Whether a cell is full whose file `root` begins with these bytes, of which there are `ROOT` and one where it is longer. What it
/// holds is in the buffer of `ROOT` bytes then: zeros, if `root` has another length than a root record.
pub fn record_in(bytes: &[u8], into: &mut [u8]) -> bool
    requires { length into.old ≡ ROOT }
    ensures full { IsTrue result ↔ IsSome (record_of bytes.now) }
    ensures held { IsTrue result → record_of bytes.now ≡ Some into.new }
{
    match bytes.len() {
        0 => false,
        ROOT => {
            into.copy_from_slice(bytes);
            true
        }
        _ => {
            into.copy_from_slice(&ZERO_ROOT);
            true
        }
    }
}

// The root record is in `root.new`, and then, in one step that outlasts a loss of power, in `root`.
fn replace_root<C: FolderCalls>(files: &mut C, bytes: &[u8]) -> io::Result<()>
    ensures start { C.start files.new ≡ C.start files.old }
    ensures noted { Renames bytes.now (is_ok result) (C.events files.old) (C.events files.new) }
{
    files.remove_new()?;
    files.make_new(bytes)?;
    files.sync_new()?;
    files.rename_new()?;
    files.sync_cell()
}

// Neither a root record nor one on its way to be it is in its folder.
fn remove_root<C: FolderCalls>(files: &mut C) -> io::Result<()>
    ensures start { C.start files.new ≡ C.start files.old }
    ensures noted { Unlinks (is_ok result) (C.events files.old) (C.events files.new) }
{
    files.remove_new()?;
    files.remove_root()?;
    files.sync_cell()
}

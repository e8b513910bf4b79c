//! The files of a device in folders, by the calls of std on them.
ghost use Rattle.std.specs.Prelude.{◌≡◌, []};
ghost use Rattle.folder_files.specs.Answers.{IsPut};

use crate::StdPages;
use crate::cell_folder::CellFolder;
use folder_platform::{FileCall, FolderCalls, PageCalls};
use std::fs::OpenFile;
use std::io::{self, ErrorKind};
use std::rt::Files;

/// The open file `media` with its folder, and by their names the files `root` and `root.new` in the open folder of the root record.
///
/// Each method makes its calls of the system, and then notes them as one with their answer. That they are those is
/// for the reader to see: no contract says what a file gives back.
#[derive(Drop)]
pub struct StdFiles<R: Files + Alloc + Clone + Drop> {
    pub(crate) pages: StdPages<R>,
    pub(crate) cell: CellFolder<R>,
    // `root.new`, since it was made.
    pub(crate) new_file: Option<R::File>,
}

impl<R: Files + Alloc + Clone + Drop> PageCalls for StdFiles<R> {
    ghost use Rattle.folder_files.specs.Found.{nothing, nothing-files};

    ghost start = { λ _. nothing };

    ghost events = { λ files. files.pages.calls.events };

    ghost occurs = { λ _ _. Unit {0} };

    ghost are_files = { λ _. nothing-files };

    ghost occurred = { λ _. tt };

    fn count_pages(&mut self) -> io::Result<u64> {
        self.pages.count_pages()
    }

    fn read_page(&mut self, addr: u64, into: &mut [u8]) -> io::Result<()> {
        self.pages.read_page(addr, into)
    }

    fn write_page(&mut self, addr: u64, page: &[u8]) -> io::Result<()> {
        self.pages.write_page(addr, page)
    }

    fn sync_media(&mut self) -> io::Result<()> {
        self.pages.sync_media()
    }

    fn sync_pages(&mut self) -> io::Result<()> {
        self.pages.sync_pages()
    }

    fn sync_folder(&mut self) -> io::Result<()> {
        self.pages.sync_folder()
    }
}

impl<R: Files + Alloc + Clone + Drop> FolderCalls for StdFiles<R> {
    fn read_root(&mut self, into: &mut [u8]) -> io::Result<Option<usize>> {
        let answer = self.cell.read_root(into);
        match answer {
            Ok(None) => self.pages.note(FileCall::ReadRoot, 0, true, &[]),
            Ok(Some(n)) => self.pages.note(FileCall::ReadRoot, 1, true, &into[..n]),
            Err(_) => self.pages.note(FileCall::ReadRoot, 0, false, &[]),
        }
        answer
    }

    fn sync_root(&mut self) -> io::Result<()> {
        let answer = self.cell.sync_root();
        self.pages.note(FileCall::SyncRoot, 0, answer.is_ok(), &[]);
        answer
    }

    fn remove_root(&mut self) -> io::Result<()> {
        let answer = self.cell.remove_root();
        self.pages
            .note(FileCall::RemoveRoot, 0, answer.is_ok(), &[]);
        answer
    }

    fn remove_new(&mut self) -> io::Result<()> {
        let answer = self.cell.remove_new();
        self.pages.note(FileCall::RemoveNew, 0, answer.is_ok(), &[]);
        answer
    }

    fn make_new(&mut self, bytes: &[u8]) -> io::Result<()> {
        let answer = put_open(self.cell.make_new(bytes), &mut self.new_file);
        self.pages.note(FileCall::MakeNew, 0, answer.is_ok(), bytes);
        answer
    }

    fn sync_new(&mut self) -> io::Result<()> {
        let answer = sync_open(&self.new_file);
        self.pages.note(FileCall::SyncNew, 0, answer.is_ok(), &[]);
        answer
    }

    fn rename_new(&mut self) -> io::Result<()> {
        let answer = self.cell.rename_new();
        self.pages.note(FileCall::RenameNew, 0, answer.is_ok(), &[]);
        answer
    }

    fn sync_cell(&mut self) -> io::Result<()> {
        let answer = self.cell.sync();
        self.pages.note(FileCall::SyncCell, 0, answer.is_ok(), &[]);
        answer
    }
}

// Keeps a file that was opened, in the place of the one that was there.
fn put_open<F: Drop>(opened: io::Result<F>, place: &mut Option<F>) -> io::Result<()>
    ensures { IsPut opened place.old place.new result }
{
    *place = Some(opened?);
    Ok(())
}

// Syncs an open file. The kind of the error is `NotFound` where there is none.
fn sync_open<F: OpenFile>(place: &Option<F>) -> io::Result<()> {
    match place {
        Some(file) => file.sync_all(),
        None => Err(ErrorKind::NotFound.into()),
    }
}

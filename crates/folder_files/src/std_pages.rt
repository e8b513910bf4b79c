//! The pages of a device in a folder, by the calls of std on their file.
ghost use Rattle.std.specs.Prelude.{◌≡◌, ◌∷◌};

use crate::media_file;
use crate::record::Record;
use folder_platform::{FileCall, PageCalls};
use std::fs::OpenFile;
use std::io;
use std::rt::Files;

/// The open file `media` and its open folder, and the record of all calls on the device that it is of.
///
/// Each method makes its calls of the system, and then notes them as one with their answer. That they are those is
/// for the reader to see: no contract says what a file gives back.
#[derive(Drop)]
pub struct StdPages<R: Files> {
    pub(crate) folder: R::File,
    pub(crate) media: R::File,
    pub(crate) calls: Record,
}

impl<R: Files> StdPages<R> {
    /// Notes a call on the cell of the same device: whether it was done or found something, and bytes.
    pub fn note(&mut self, call: FileCall, number: u64, is_done: bool, bytes: &[u8])
        ensures { self.new.calls.events ≡ (call, number, is_done, bytes.now) ∷ self.old.calls.events }
    {
        self.calls.note(call, number, is_done, bytes);
    }
}

impl<R: Files> PageCalls for StdPages<R> {
    ghost use Rattle.folder_files.specs.Found.{nothing, nothing-files};

    // Nobody knows what they held: each record occurs over files that held nothing, too.
    ghost start = { λ _. nothing };

    ghost events = { λ pages. pages.calls.events };

    ghost occurs = { λ _ _. Unit {0} };

    ghost are_files = { λ _. nothing-files };

    ghost occurred = { λ _. tt };

    fn count_pages(&mut self) -> io::Result<u64> {
        let answer = media_file::count_whole(&self.media);
        match answer {
            Ok(pages) => self.calls.note(FileCall::CountPages, pages, true, &[]),
            Err(_) => self.calls.note(FileCall::CountPages, 0, false, &[]),
        }
        answer
    }

    fn read_page(&mut self, addr: u64, into: &mut [u8]) -> io::Result<()> {
        let answer = media_file::read_at(&mut self.media, addr, into);
        self.calls
            .note(FileCall::ReadPage, addr, answer.is_ok(), into);
        answer
    }

    fn write_page(&mut self, addr: u64, page: &[u8]) -> io::Result<()> {
        let answer = media_file::write_at(&mut self.media, addr, page);
        self.calls
            .note(FileCall::WritePage, addr, answer.is_ok(), page);
        answer
    }

    fn sync_media(&mut self) -> io::Result<()> {
        let answer = self.media.sync_all();
        self.calls.note(FileCall::SyncMedia, 0, answer.is_ok(), &[]);
        answer
    }

    fn sync_pages(&mut self) -> io::Result<()> {
        let answer = self.media.sync_data();
        self.calls.note(FileCall::SyncMedia, 0, answer.is_ok(), &[]);
        answer
    }

    fn sync_folder(&mut self) -> io::Result<()> {
        let answer = self.folder.sync_all();
        self.calls
            .note(FileCall::SyncFolder, 0, answer.is_ok(), &[]);
        answer
    }
}

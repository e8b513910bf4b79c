//! The pages of a device in a folder that is only looked at.
ghost use Rattle.std.specs.Prelude.{◌≡◌, ◌∷◌, is_ok, length};
ghost use Rattle.sdbt_base.specs.declared.limits.TheConstants.{RECORD};
ghost use Rattle.folder_platform.specs.Events.{page_read};
ghost use Rattle.folder_platform.specs.Sequences.{NotesCount};

use crate::media_file;
use crate::record::Record;
use folder_platform::FileCall;
use std::fs::OpenFile;
use std::io::{self, ErrorKind};
use std::rt::Files;

/// The file `media`, open to be read if it is there, and the record of all calls on the device that it is of.
#[derive(Drop)]
pub struct LookPages<R: Files> {
    pub(crate) media: Option<R::File>,
    // How many bytes it had when its pages were counted.
    pub(crate) len: u64,
    pub(crate) calls: Record,
}

impl<R: Files> LookPages<R> {
    /// Notes a look at the cell of the same device: whether it found something, whether it was done, and bytes.
    pub fn note(&mut self, call: FileCall, number: u64, is_done: bool, bytes: &[u8])
        ensures { self.new.calls.events ≡ (call, number, is_done, bytes.now) ∷ self.old.calls.events }
    {
        self.calls.note(call, number, is_done, bytes);
    }

    /// How many pages `media` has: none where it isn't there. A last one that is there in part counts.
    pub fn look_for_pages(&mut self) -> io::Result<u64>
        ensures noted { NotesCount result self.old.calls.events self.new.calls.events }
    {
        match length_of(&self.media) {
            Ok(len) => {
                self.len = len;
                let pages = len.div_ceil(media_file::PAGE_LEN);
                self.calls.note(FileCall::CountPages, pages, true, &[]);
                Ok(pages)
            }
            Err(error) => {
                self.calls.note(FileCall::CountPages, 0, false, &[]);
                Err(error)
            }
        }
    }

    /// Reads the page of `RECORD` bytes at an address. What is missing of the last one reads as zeros.
    pub fn look_at_page(&mut self, addr: u64, into: &mut [u8]) -> io::Result<()>
        requires { length into.old ≡ RECORD }
        ensures noted { self.new.calls.events ≡ page_read addr (is_ok result) into.new ∷ self.old.calls.events }
    {
        let answer = match &mut self.media {
            Some(media) => media_file::read_part_at(media, self.len, addr, into),
            None => Err(ErrorKind::NotFound.into()),
        };
        self.calls
            .note(FileCall::ReadPage, addr, answer.is_ok(), into);
        answer
    }
}

// How many bytes a file has, and none where there is no file.
fn length_of<F: OpenFile>(file: &Option<F>) -> io::Result<u64> {
    match file {
        Some(file) => Ok(file.metadata()?.len()),
        None => Ok(0),
    }
}

//! The files of a device in folders that are only looked at.
ghost use Rattle.std.specs.Prelude.{◌≡◌};

use crate::LookPages;
use crate::cell_folder::CellFolder;
use folder_platform::{FileCall, LookCalls, record_in};
use sdbt_base::ROOT;
use std::io;
use std::rt::Files;

/// The file `media`, if it is there, and by its name the file `root` in the open folder of the root record: both are only read.
///
/// Each method makes its calls of the system, and then notes them as one with their answer. That they are those is
/// for the reader to see: no contract says what a file gives back.
#[derive(Drop)]
pub struct LookFiles<R: Files + Alloc + Clone + Drop> {
    pub(crate) pages: LookPages<R>,
    pub(crate) cell: CellFolder<R>,
}

impl<R: Files + Alloc + Clone + Drop> LookCalls for LookFiles<R> {
    ghost use Rattle.folder_files.specs.Found.{nothing, nothing-files};

    // Nobody knows what they held: each record occurs over files that held nothing, too.
    ghost start = { λ _. nothing };

    ghost events = { λ files. files.pages.calls.events };

    ghost occurs = { λ _ _. Unit {0} };

    ghost are_files = { λ _. nothing-files };

    ghost occurred = { λ _. tt };

    fn look_for_pages(&mut self) -> io::Result<u64> {
        self.pages.look_for_pages()
    }

    fn look_at_page(&mut self, addr: u64, into: &mut [u8]) -> io::Result<()> {
        self.pages.look_at_page(addr, into)
    }

    fn look_at_cell(&mut self, into: &mut [u8]) -> io::Result<bool> {
        let mut bytes = [0; ROOT + 1];
        match self.cell.read_root(&mut bytes) {
            Ok(None) => {
                self.pages.note(FileCall::ReadRoot, 0, true, &[]);
                Ok(false)
            }
            Ok(Some(n)) => {
                self.pages.note(FileCall::ReadRoot, 1, true, &bytes[..n]);
                Ok(record_in(&bytes[..n], into))
            }
            Err(error) => {
                self.pages.note(FileCall::ReadRoot, 0, false, &[]);
                Err(error)
            }
        }
    }
}

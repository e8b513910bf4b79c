//! What is asked of the files of a device that is only looked at.
ghost use Rattle.std.specs.Prelude.{◌≡◌, ◌∷◌, List, length, is_ok};
ghost use Rattle.folder_platform.specs.Files.{Files, AreFiles};
ghost use Rattle.folder_platform.specs.Events.{Event, page_read};
ghost use Rattle.folder_platform.specs.Sequences.{NotesCount, NotesCell};

use sdbt_base::{RECORD, ROOT};
use std::io;

/// The pages of a device and the cell of its root record, of which nothing is ever changed, and the record of all calls on them.
///
/// As of calls that change something nothing is asked of the answers.
pub trait LookCalls {
    /// What the files held before the first call.
    ghost start: { Self → Files };

    /// Each call so far with its answer, the newest first.
    ghost events: { Self → List Event };

    /// The records that occur over files that held this.
    ghost occurs: { Files → List Event → Type 0 };

    /// How many pages `media` has: none where it isn't there. A last one that is there in part counts.
    fn look_for_pages(&mut self) -> io::Result<u64>
        ensures start { start self.new ≡ start self.old }
        ensures noted { NotesCount result (events self.old) (events self.new) };

    /// Reads the page of `RECORD` bytes at an address. What is missing of the last one reads as zeros.
    fn look_at_page(&mut self, addr: u64, into: &mut [u8]) -> io::Result<()>
        requires { length into.old ≡ RECORD }
        ensures start { start self.new ≡ start self.old }
        ensures noted { events self.new ≡ page_read addr (is_ok result) into.new ∷ events self.old };

    /// Whether the cell is full: what it holds is in the buffer of `ROOT` bytes then.
    fn look_at_cell(&mut self, into: &mut [u8]) -> io::Result<bool>
        requires { length into.old ≡ ROOT }
        ensures start { start self.new ≡ start self.old }
        ensures noted { NotesCell result into.new (events self.old) (events self.new) };

    /// Bytes are bytes, and pages have their size.
    ghost are_files: { (calls : Self) → AreFiles (start calls) };

    /// The record of each value is one that occurs.
    ghost occurred: { (calls : Self) → occurs (start calls) (events calls) };
}

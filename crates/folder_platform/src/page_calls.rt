//! What is asked of the pages of a device: that a record is kept of each call with its answer, whatever that is.
ghost use Rattle.std.specs.Prelude.{◌≡◌, ◌∷◌, List, length, is_ok};
ghost use Rattle.folder_platform.specs.Files.{Files, AreFiles};
ghost use Rattle.folder_platform.specs.Events.{Event, page_read, page_written, media_synced, folder_synced};
ghost use Rattle.folder_platform.specs.Sequences.{NotesCount};

use sdbt_base::RECORD;
use std::io;

/// The file `media` in one folder, and the record of all calls on a device.
///
/// Nothing is asked of the answers. What they are by an honest file system is `IsHonest`, a property of a record.
/// No call can touch a file of another name.
pub trait PageCalls {
    /// What the files held before the first call.
    ghost start: { Self → Files };

    /// Each call so far with its answer, the newest first.
    ghost events: { Self → List Event };

    /// The records that occur over files that held this. A theorem on a platform over any type of calls
    /// has as its premise that these are honest; so it is one on each record for which there is a type.
    ghost occurs: { Files → List Event → Type 0 };

    /// How many pages `media` has. A last one that is there in part is filled up with zeros.
    fn count_pages(&mut self) -> io::Result<u64>
        ensures start { start self.new ≡ start self.old }
        ensures noted { NotesCount result (events self.old) (events self.new) };

    /// Reads the page of `RECORD` bytes at an address.
    fn read_page(&mut self, addr: u64, into: &mut [u8]) -> io::Result<()>
        requires { length into.old ≡ RECORD }
        ensures start { start self.new ≡ start self.old }
        ensures noted { events self.new ≡ page_read addr (is_ok result) into.new ∷ events self.old };

    /// Writes a page of `RECORD` bytes at an address.
    fn write_page(&mut self, addr: u64, page: &[u8]) -> io::Result<()>
        requires { length page.now ≡ RECORD }
        ensures start { start self.new ≡ start self.old }
        ensures noted { events self.new ≡ page_written addr (is_ok result) page.now ∷ events self.old };

    /// Syncs `media`: its pages outlast a loss of power.
    fn sync_media(&mut self) -> io::Result<()>
        ensures start { start self.new ≡ start self.old }
        ensures noted { events self.new ≡ media_synced (is_ok result) ∷ events self.old };

    /// The same, with no more of what is noted beside the pages than a later read of them needs.
    fn sync_pages(&mut self) -> io::Result<()>
        ensures start { start self.new ≡ start self.old }
        ensures noted { events self.new ≡ media_synced (is_ok result) ∷ events self.old };

    /// Syncs the folder of `media`: so does that name.
    fn sync_folder(&mut self) -> io::Result<()>
        ensures start { start self.new ≡ start self.old }
        ensures noted { events self.new ≡ folder_synced (is_ok result) ∷ events self.old };

    /// Bytes are bytes, and pages have their size.
    ghost are_files: { (calls : Self) → AreFiles (start calls) };

    /// The record of each value is one that occurs.
    ghost occurred: { (calls : Self) → occurs (start calls) (events calls) };
}

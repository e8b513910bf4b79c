//! Files in memory whose power ends after so many calls, and what is left of them then.
ghost use Rattle.std.specs.Prelude.{◌≡◌, ◌≤◌, [], length, take, is_ok};

use folder_files::Record;
use folder_platform::{FileCall, FolderCalls, PageCalls};
use sdbt_base::{RECORD, ROOT};
use std::alloc::Global;
use std::io::{self, ErrorKind};

/// The bytes of a file, and whether they are on the disk.
#[derive(Clone, Copy)]
struct Held {
    bytes: [u8; ROOT],
    is_synced: bool,
}

/// What becomes of the pages that are not on the disk, when the power is lost.
#[derive(Clone, Copy, PartialEq, Eq)]
pub(crate) enum Unsynced {
    /// They are there.
    Kept,
    /// They are there, and read as zeros.
    Torn,
    /// They are missing.
    Lost,
}

/// A medium and a root record in memory, with what of them is on the disk.
///
/// A call after the power has ended fails without an effect.
#[derive(Drop)]
pub(crate) struct DiskFiles {
    pages: Vec<[u8; RECORD]>,
    synced: usize,
    is_named: bool,
    root: Option<Held>,
    new_root: Option<Held>,
    // What the name `root` led to when its folder was last synced.
    settled: Option<Held>,
    power: u64,
    calls: Record,
}

impl DiskFiles {
    /// No file, and power for so many calls.
    pub(crate) fn new(alloc: Global, power: u64) -> DiskFiles
        ensures { result.calls.events ≡ [] }
    {
        DiskFiles {
            pages: Vec::new(alloc),
            synced: 0,
            is_named: false,
            root: None,
            new_root: None,
            settled: None,
            power,
            calls: Record::new(),
        }
    }

    /// What a loss of power leaves: `root` leads to what it led to when its folder was last synced, if it falls back, and bytes that
    /// were not synced are zeros.
    pub(crate) fn left(self, unsynced: Unsynced, falls_back: bool) -> DiskFiles
        ensures { result.calls.events ≡ [] }
    {
        let mut pages = self.pages;
        let on_disk = if self.is_named { self.synced } else { 0 };
        match unsynced {
            Unsynced::Kept => {}
            Unsynced::Torn => {
                for page in pages.iter_mut().skip(on_disk) {
                    *page = [0; RECORD];
                }
            }
            Unsynced::Lost => pages.truncate(on_disk),
        }
        let root = if falls_back { self.settled } else { self.root };
        DiskFiles {
            pages,
            synced: 0,
            is_named: false,
            root: root.map(found),
            new_root: self.new_root.map(found),
            settled: None,
            power: u64::MAX,
            calls: Record::new(),
        }
    }
}

// A file as it is found after a loss of power.
fn found(held: Held) -> Held {
    let bytes = if held.is_synced {
        held.bytes
    } else {
        [0; ROOT]
    };
    Held {
        bytes,
        is_synced: false,
    }
}

// The bytes of a file.
fn bytes_of(held: Held) -> [u8; ROOT] {
    held.bytes
}

// A file whose bytes were synced.
fn synced(held: Held) -> Held {
    let bytes = held.bytes;
    Held {
        bytes,
        is_synced: true,
    }
}

// Takes the power for a call.
fn spend(power: &mut u64) -> io::Result<()> {
    if *power == 0 {
        return Err(ErrorKind::Other.into());
    }
    *power -= 1;
    Ok(())
}

impl PageCalls for DiskFiles {
    ghost use Rattle.folder_files.specs.Found.{nothing, nothing-files};

    ghost start = { λ _. nothing };

    ghost events = { λ files. files.calls.events };

    ghost occurs = { λ _ _. Unit {0} };

    ghost are_files = { λ _. nothing-files };

    ghost occurred = { λ _. tt };

    fn count_pages(&mut self) -> io::Result<u64> {
        if let Err(error) = spend(&mut self.power) {
            self.calls.note(FileCall::CountPages, 0, false, &[]);
            return Err(error);
        }
        let pages = self.pages.len() as u64;
        self.calls.note(FileCall::CountPages, pages, true, &[]);
        Ok(pages)
    }

    fn read_page(&mut self, addr: u64, into: &mut [u8]) -> io::Result<()> {
        if spend(&mut self.power).is_err() || addr >= self.pages.len() as u64 {
            self.calls.note(FileCall::ReadPage, addr, false, into);
            return Err(ErrorKind::Other.into());
        }
        into.copy_from_slice(&self.pages[addr as usize]);
        self.calls.note(FileCall::ReadPage, addr, true, into);
        Ok(())
    }

    fn write_page(&mut self, addr: u64, page: &[u8]) -> io::Result<()> {
        let mut copy = [0; RECORD];
        copy.copy_from_slice(page);
        let is_next = addr == self.pages.len() as u64;
        let done = is_next && spend(&mut self.power).is_ok() && self.pages.push(copy).is_ok();
        self.calls.note(FileCall::WritePage, addr, done, page);
        answer(done)
    }

    fn sync_media(&mut self) -> io::Result<()> {
        let done = spend(&mut self.power).is_ok();
        if done {
            self.synced = self.pages.len();
        }
        self.calls.note(FileCall::SyncMedia, 0, done, &[]);
        answer(done)
    }

    fn sync_pages(&mut self) -> io::Result<()> {
        self.sync_media()
    }

    fn sync_folder(&mut self) -> io::Result<()> {
        let done = spend(&mut self.power).is_ok();
        if done {
            self.is_named = true;
        }
        self.calls.note(FileCall::SyncFolder, 0, done, &[]);
        answer(done)
    }
}

impl FolderCalls for DiskFiles {
    fn read_root(&mut self, into: &mut [u8]) -> io::Result<Option<usize>> {
        if let Err(error) = spend(&mut self.power) {
            self.calls.note(FileCall::ReadRoot, 0, false, &[]);
            return Err(error);
        }
        let Some(held) = self.root else {
            self.calls.note(FileCall::ReadRoot, 0, true, &[]);
            return Ok(None);
        };
        let bytes = bytes_of(held);
        put_front(into, &bytes);
        self.calls.note(FileCall::ReadRoot, 1, true, &bytes);
        Ok(Some(ROOT))
    }

    fn sync_root(&mut self) -> io::Result<()> {
        let done = spend(&mut self.power).is_ok();
        if done {
            self.root = self.root.map(synced);
        }
        self.calls.note(FileCall::SyncRoot, 0, done, &[]);
        answer(done)
    }

    fn remove_root(&mut self) -> io::Result<()> {
        let done = spend(&mut self.power).is_ok();
        if done {
            self.root = None;
        }
        self.calls.note(FileCall::RemoveRoot, 0, done, &[]);
        answer(done)
    }

    fn remove_new(&mut self) -> io::Result<()> {
        let done = spend(&mut self.power).is_ok();
        if done {
            self.new_root = None;
        }
        self.calls.note(FileCall::RemoveNew, 0, done, &[]);
        answer(done)
    }

    fn make_new(&mut self, bytes: &[u8]) -> io::Result<()> {
        let mut copy = [0; ROOT];
        let done = bytes.len() == ROOT && spend(&mut self.power).is_ok();
        if done {
            copy.copy_from_slice(bytes);
            self.new_root = Some(Held {
                bytes: copy,
                is_synced: false,
            });
        }
        self.calls.note(FileCall::MakeNew, 0, done, bytes);
        answer(done)
    }

    fn sync_new(&mut self) -> io::Result<()> {
        let done = spend(&mut self.power).is_ok();
        if done {
            self.new_root = self.new_root.map(synced);
        }
        self.calls.note(FileCall::SyncNew, 0, done, &[]);
        answer(done)
    }

    fn rename_new(&mut self) -> io::Result<()> {
        let done = spend(&mut self.power).is_ok();
        if done {
            self.root = self.new_root;
            self.new_root = None;
        }
        self.calls.note(FileCall::RenameNew, 0, done, &[]);
        answer(done)
    }

    fn sync_cell(&mut self) -> io::Result<()> {
        let done = spend(&mut self.power).is_ok();
        if done {
            self.settled = self.root;
        }
        self.calls.note(FileCall::SyncCell, 0, done, &[]);
        answer(done)
    }
}

// The buffer begins with these bytes.
fn put_front(into: &mut [u8], bytes: &[u8])
    requires room { ROOT ≤ length into.old }
    requires size { length bytes.now ≡ ROOT }
    ensures { take ROOT into.new ≡ bytes.now }
{
    into[..ROOT].copy_from_slice(bytes);
}

// What a call answers that was done, or not.
fn answer(done: bool) -> io::Result<()>
    ensures { is_ok result ≡ done }
{
    if done {
        Ok(())
    } else {
        Err(ErrorKind::Other.into())
    }
}

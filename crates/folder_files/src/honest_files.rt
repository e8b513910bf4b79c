//! The files of a device in memory, which answer as the model does.
ghost use Rattle.std.specs.Prelude.{◌≡◌, ◌≤◌, [], false, length, take};
ghost use Rattle.folder_platform.specs.Model.{replay, bytes_of};
ghost use Rattle.folder_platform.specs.Honest.{IsHonest};
ghost use Rattle.folder_files.specs.Found.{nothing, IsRootOrNone};
ghost use Rattle.folder_files.specs.Honest.{IsHonest-prop};

use crate::record::Record;
use folder_platform::{
    CellCalls, FileCall, FolderCalls, FolderPlatform, FolderView, InFolder, LookCalls, OpenRefusal,
    PageCalls,
};
use platform::Platform;
use sdbt_base::{RECORD, ROOT};
use std::alloc::Global;
use std::io::{self, ErrorKind};

/// No file at first, and the root record in a folder or in place. Each record of calls on it is honest, so a platform
/// over it tells.
#[derive(Drop)]
pub struct HonestFiles {
    pages: Vec<[u8; RECORD]>,
    root: Option<[u8; ROOT]>,
    new_root: Option<[u8; ROOT]>,
    // A page was not written, or a file not made: from then on no look is answered.
    is_broken: bool,
    calls: Record,
    ghost pages_are: { is_broken ≡ false → (replay nothing calls.events).readable ≡ pages.items },
    ghost root_is: { is_broken ≡ false → bytes_of (replay nothing calls.events).root ≡ root },
    ghost new_is: { is_broken ≡ false → bytes_of (replay nothing calls.events).new_root ≡ new_root },
    ghost root_size: { IsRootOrNone root },
    ghost new_size: { IsRootOrNone new_root },
    ghost honest: { IsHonest nothing calls.events } by { IsHonest-prop nothing calls.events },
}

impl HonestFiles {
    /// No file, and no call yet.
    pub fn new(alloc: Global) -> HonestFiles
        ensures { result.calls.events ≡ [] }
    {
        HonestFiles {
            pages: Vec::new(alloc),
            root: None,
            new_root: None,
            is_broken: false,
            calls: Record::new(),
        }
    }
}

impl PageCalls for HonestFiles {
    ghost use Rattle.folder_platform.specs.Honest.{IsHonest};
    ghost use Rattle.folder_files.specs.Found.{nothing, nothing-files};

    ghost start = { λ _. nothing };

    ghost events = { λ files. files.calls.events };

    ghost occurs = { IsHonest };

    ghost are_files = { λ _. nothing-files };

    ghost occurred = { λ files. files.honest };

    fn count_pages(&mut self) -> io::Result<u64> {
        if self.is_broken {
            self.calls.note(FileCall::CountPages, 0, false, &[]);
            return Err(ErrorKind::Other.into());
        }
        let pages = self.pages.len() as u64;
        self.calls.note(FileCall::CountPages, pages, true, &[]);
        Ok(pages)
    }

    fn read_page(&mut self, addr: u64, into: &mut [u8]) -> io::Result<()> {
        if self.is_broken || addr >= self.pages.len() as u64 {
            self.calls.note(FileCall::ReadPage, addr, false, into);
            return Err(ErrorKind::Other.into());
        }
        into.copy_from_slice(&self.pages[addr as usize]);
        self.calls.note(FileCall::ReadPage, addr, true, into);
        Ok(())
    }

    fn write_page(&mut self, addr: u64, page: &[u8]) -> io::Result<()> {
        let mut copy = [0; RECORD];
        copy.copy_from_slice(page);
        if self.is_broken || addr != self.pages.len() as u64 || self.pages.push(copy).is_err() {
            self.is_broken = true;
            self.calls.note(FileCall::WritePage, addr, false, page);
            return Err(ErrorKind::Other.into());
        }
        self.calls.note(FileCall::WritePage, addr, true, page);
        Ok(())
    }

    fn sync_media(&mut self) -> io::Result<()> {
        self.calls.note(FileCall::SyncMedia, 0, true, &[]);
        Ok(())
    }

    fn sync_pages(&mut self) -> io::Result<()> {
        self.calls.note(FileCall::SyncMedia, 0, true, &[]);
        Ok(())
    }

    fn sync_folder(&mut self) -> io::Result<()> {
        self.calls.note(FileCall::SyncFolder, 0, true, &[]);
        Ok(())
    }
}

impl FolderCalls for HonestFiles {
    fn sync_root(&mut self) -> io::Result<()> {
        self.calls.note(FileCall::SyncRoot, 0, true, &[]);
        Ok(())
    }

    fn read_root(&mut self, into: &mut [u8]) -> io::Result<Option<usize>> {
        if self.is_broken {
            self.calls.note(FileCall::ReadRoot, 0, false, &[]);
            return Err(ErrorKind::Other.into());
        }
        let Some(bytes) = self.root else {
            self.calls.note(FileCall::ReadRoot, 0, true, &[]);
            return Ok(None);
        };
        put_front(into, &bytes);
        self.calls.note(FileCall::ReadRoot, 1, true, &bytes);
        Ok(Some(ROOT))
    }

    fn remove_new(&mut self) -> io::Result<()> {
        self.new_root = None;
        self.calls.note(FileCall::RemoveNew, 0, true, &[]);
        Ok(())
    }

    fn make_new(&mut self, bytes: &[u8]) -> io::Result<()> {
        if bytes.len() != ROOT {
            self.is_broken = true;
            self.calls.note(FileCall::MakeNew, 0, false, bytes);
            return Err(ErrorKind::Other.into());
        }
        let mut copy = [0; ROOT];
        copy.copy_from_slice(bytes);
        self.new_root = Some(copy);
        self.calls.note(FileCall::MakeNew, 0, true, bytes);
        Ok(())
    }

    fn sync_new(&mut self) -> io::Result<()> {
        self.calls.note(FileCall::SyncNew, 0, true, &[]);
        Ok(())
    }

    fn rename_new(&mut self) -> io::Result<()> {
        self.root = self.new_root;
        self.new_root = None;
        self.calls.note(FileCall::RenameNew, 0, true, &[]);
        Ok(())
    }

    fn remove_root(&mut self) -> io::Result<()> {
        self.root = None;
        self.calls.note(FileCall::RemoveRoot, 0, true, &[]);
        Ok(())
    }

    fn sync_cell(&mut self) -> io::Result<()> {
        self.calls.note(FileCall::SyncCell, 0, true, &[]);
        Ok(())
    }
}

impl CellCalls for HonestFiles {
    fn tidy(&mut self) -> Result<(), OpenRefusal> {
        self.new_root = None;
        self.calls.note(FileCall::RemoveNew, 0, true, &[]);
        Ok(())
    }

    fn settle(&mut self) -> Result<(), OpenRefusal> {
        self.calls.note(FileCall::SyncRoot, 0, true, &[]);
        self.calls.note(FileCall::SyncCell, 0, true, &[]);
        Ok(())
    }

    fn load(&mut self, into: &mut [u8]) -> io::Result<bool> {
        if self.is_broken {
            self.calls.note(FileCall::ReadRoot, 0, false, &[]);
            return Err(ErrorKind::Other.into());
        }
        let Some(bytes) = self.root else {
            self.calls.note(FileCall::ReadRoot, 0, true, &[]);
            return Ok(false);
        };
        into.copy_from_slice(&bytes);
        self.calls.note(FileCall::ReadRoot, 1, true, into);
        Ok(true)
    }

    fn replace(&mut self, bytes: &[u8]) -> io::Result<()> {
        let mut copy = [0; ROOT];
        copy.copy_from_slice(bytes);
        self.root = Some(copy);
        self.calls.note(FileCall::ReplaceInPlace, 0, true, bytes);
        Ok(())
    }

    fn clear(&mut self) -> io::Result<()> {
        self.root = None;
        self.calls.note(FileCall::ClearInPlace, 0, true, &[]);
        Ok(())
    }
}

impl LookCalls for HonestFiles {
    ghost use Rattle.folder_platform.specs.Honest.{IsHonest};
    ghost use Rattle.folder_files.specs.Found.{nothing, nothing-files};

    ghost start = { λ _. nothing };

    ghost events = { λ files. files.calls.events };

    ghost occurs = { IsHonest };

    ghost are_files = { λ _. nothing-files };

    ghost occurred = { λ files. files.honest };

    fn look_for_pages(&mut self) -> io::Result<u64> {
        self.count_pages()
    }

    fn look_at_page(&mut self, addr: u64, into: &mut [u8]) -> io::Result<()> {
        self.read_page(addr, into)
    }

    fn look_at_cell(&mut self, into: &mut [u8]) -> io::Result<bool> {
        self.load(into)
    }
}

// The buffer begins with these bytes.
fn put_front(into: &mut [u8], bytes: &[u8])
    requires room { ROOT ≤ length into.old }
    requires size { length bytes.now ≡ ROOT }
    ensures { take ROOT into.new ≡ bytes.now }
{
    into[..ROOT].copy_from_slice(bytes);
}

/// A platform over them tells its history.
pub fn open_honest(alloc: Global) -> Result<FolderPlatform<InFolder<HonestFiles>>, OpenRefusal>
    ensures { ⟦<FolderPlatform<InFolder<HonestFiles>> as Platform>⟧.tells }
{
    FolderPlatform::open(InFolder {
        files: HonestFiles::new(alloc),
    })
}

/// So does one whose root record is in place.
pub fn open_honest_in_place(alloc: Global) -> Result<FolderPlatform<HonestFiles>, OpenRefusal>
    ensures { ⟦<FolderPlatform<HonestFiles> as Platform>⟧.tells }
{
    FolderPlatform::open(HonestFiles::new(alloc))
}

/// So does one that only looks at them.
pub fn view_honest(alloc: Global) -> Result<FolderView<HonestFiles>, OpenRefusal>
    ensures { ⟦<FolderView<HonestFiles> as Platform>⟧.tells }
{
    FolderView::open(HonestFiles::new(alloc))
}

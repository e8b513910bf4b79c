//! The files of a folder beside those that they should be by what was found in them and by the calls since.
ghost use Rattle.std.specs.Prelude.{◌≡◌, length, IfSome};

use folder_platform::{FolderCalls, PageCalls};
use sdbt_base::{RECORD, ROOT};
use std::alloc::Global;
use std::io;

/// How much of `root` is looked at.
const ROOT_AND_ONE: usize = ROOT + 1;

/// A root record's file: how many bytes of it are looked at, and these.
#[derive(Clone, Copy, PartialEq, Eq)]
pub(crate) struct RootBytes {
    len: usize,
    bytes: [u8; ROOT_AND_ONE],
}

impl RootBytes {
    /// What is looked at of a file with these bytes.
    pub(crate) fn of(file: &[u8]) -> RootBytes {
        let len = file.len().min(ROOT_AND_ONE);
        let mut bytes = [0; ROOT_AND_ONE];
        bytes[..len].copy_from_slice(&file[..len]);
        RootBytes { len, bytes }
    }
}

/// Files, and what the model says of them. Each call goes on to the files; an answer that is not the model's is remembered.
#[derive(Drop)]
pub(crate) struct Checked<C: FolderCalls + Drop> {
    files: C,
    pages: Vec<[u8; RECORD]>,
    root: Option<RootBytes>,
    new_root: Option<RootBytes>,
    is_wrong: bool,
}

impl<C: FolderCalls + Drop> Checked<C> {
    /// The files, of which `media` and `root` hold this before the first call. None, if no memory was given.
    pub(crate) fn new(
        alloc: Global,
        files: C,
        media: &[u8],
        root: Option<&[u8]>,
    ) -> Option<Checked<C>>
        ensures { IfSome result (λ checked. checked.files ≡ files) }
    {
        let pages = pages_of(alloc, media)?;
        Some(Checked {
            files,
            pages,
            root: root.map(RootBytes::of),
            new_root: None,
            is_wrong: false,
        })
    }

    /// Whether each answer so far was the model's, and the files hold now what it says.
    pub(crate) fn is_right(&self, media: &[u8], root: Option<&[u8]>) -> bool {
        !self.is_wrong && self.are_pages(media) && root.map(RootBytes::of) == self.root
    }

    // Whether a medium holds all pages and nothing else.
    fn are_pages(&self, media: &[u8]) -> bool {
        let mut rest = media;
        for page in &self.pages {
            match rest.strip_prefix(page.as_slice()) {
                Some(more) => rest = more,
                None => return false,
            }
        }
        rest.is_empty()
    }

    // Whether a page is the one that was written or found there.
    fn is_page(&self, addr: u64, page: &[u8]) -> bool {
        addr < self.pages.len() as u64 && self.pages[addr as usize].as_slice() == page
    }

    // A page was written, or may have been.
    fn put(&mut self, addr: u64, page: &[u8])
        requires size { length page.now ≡ RECORD }
        ensures { self.new.files ≡ self.old.files }
    {
        let mut copy = [0; RECORD];
        copy.copy_from_slice(page);
        let is_put = addr == self.pages.len() as u64 && self.pages.push(copy).is_ok();
        self.is_wrong = self.is_wrong || !is_put;
    }
}

// The pages of a medium, the last one filled up with zeros.
fn pages_of(alloc: Global, media: &[u8]) -> Option<Vec<[u8; RECORD]>> {
    let mut pages = Vec::new(alloc);
    for chunk in media.chunks(RECORD) {
        let mut page = [0; RECORD];
        let len = chunk.len().min(RECORD);
        page[..len].copy_from_slice(&chunk[..len]);
        pages.push(page).ok()?;
    }
    Some(pages)
}

impl<C: FolderCalls + Drop> PageCalls for Checked<C> {
    ghost start = { λ checked. C.PageCalls.start checked.files };

    ghost events = { λ checked. C.PageCalls.events checked.files };

    ghost occurs = { C.PageCalls.occurs };

    ghost are_files = { λ checked. C.PageCalls.are_files checked.files };

    ghost occurred = { λ checked. C.PageCalls.occurred checked.files };

    fn count_pages(&mut self) -> io::Result<u64> {
        let pages = self.files.count_pages()?;
        self.is_wrong = self.is_wrong || pages != self.pages.len() as u64;
        Ok(pages)
    }

    fn read_page(&mut self, addr: u64, into: &mut [u8]) -> io::Result<()> {
        self.files.read_page(addr, into)?;
        self.is_wrong = self.is_wrong || !self.is_page(addr, into);
        Ok(())
    }

    fn write_page(&mut self, addr: u64, page: &[u8]) -> io::Result<()> {
        self.put(addr, page);
        self.files.write_page(addr, page)
    }

    fn sync_media(&mut self) -> io::Result<()> {
        self.files.sync_media()
    }

    fn sync_pages(&mut self) -> io::Result<()> {
        self.files.sync_pages()
    }

    fn sync_folder(&mut self) -> io::Result<()> {
        self.files.sync_folder()
    }
}

impl<C: FolderCalls + Drop> FolderCalls for Checked<C> {
    fn read_root(&mut self, into: &mut [u8]) -> io::Result<Option<usize>> {
        let answer = self.files.read_root(into)?;
        let root = answer.map(|len| RootBytes::of(&into[..len]));
        self.is_wrong = self.is_wrong || root != self.root;
        Ok(answer)
    }

    fn sync_root(&mut self) -> io::Result<()> {
        self.files.sync_root()
    }

    fn remove_root(&mut self) -> io::Result<()> {
        self.root = None;
        self.files.remove_root()
    }

    fn remove_new(&mut self) -> io::Result<()> {
        self.new_root = None;
        self.files.remove_new()
    }

    fn make_new(&mut self, bytes: &[u8]) -> io::Result<()> {
        self.new_root = Some(RootBytes::of(bytes));
        self.files.make_new(bytes)
    }

    fn sync_new(&mut self) -> io::Result<()> {
        self.files.sync_new()
    }

    fn rename_new(&mut self) -> io::Result<()> {
        self.root = self.new_root;
        self.new_root = None;
        self.files.rename_new()
    }

    fn sync_cell(&mut self) -> io::Result<()> {
        self.files.sync_cell()
    }
}

//! A device in memory that tests build page by page, and seal trees on.
ghost use Rattle.std.specs.Prelude.{◌≡◌, ◌≤◌, length};
ghost use Rattle.platform.specs.Mem.{image_of_now};

use btree_twigs::{Child, Twig};
use medium_trace::Pages;
use node_codec::{Entry, encode_block, encode_node, fits_node};
use page_digest::digest_of;
use page_store::Buffers;
use platform::{MemPlatform, Platform};
use sdbt_base::{Key, KeySlot, RECORD};
use seal_record::seal;
use std::alloc::Global;

/// How many pages a medium can have.
const PAGES: u64 = 128;

/// A medium in memory, each of whose pages has the key of its address.
#[derive(Drop)]
pub(crate) struct Device {
    pub(crate) platform: MemPlatform,
    pub(crate) buffers: Buffers,
    // That of the nodes, unless one is said to be of the other, and the digest of each page as it was appended.
    version: u8,
    digests: Vec<[u8; 32]>,
}

/// The bytes of the key of the page at an address.
fn key_bytes(addr: u64) -> [u8; 32] {
    let mut bytes = [7; 32];
    bytes[..8].copy_from_slice(&addr.to_be_bytes());
    bytes
}

/// The key of the page at an address, without a digest.
fn key_of(addr: u64) -> Key {
    Key::from_bytes(key_bytes(addr))
}

impl Device {
    /// A blank medium, for nodes of a version.
    pub(crate) fn new(alloc: Global, version: u8) -> Option<Device> {
        Some(Device {
            platform: MemPlatform::blank(alloc, PAGES),
            buffers: Buffers::new(alloc).ok()?,
            version,
            digests: Vec::new(alloc),
        })
    }

    /// The version of its nodes.
    pub(crate) fn version(&self) -> u8 {
        self.version
    }

    /// The key of the page at an address as a node of a version names it: in the second one with the digest of the page, or
    /// with one that no page has where there is none yet. `own` is the address whose key it is.
    pub(crate) fn key_at(&self, version: u8, addr: u64, own: u64) -> Key {
        let key = key_of(own);
        if version == 1 {
            return key;
        }
        match self.digests.get(addr as usize) {
            Some(digest) => key.with_digest(*digest),
            None => key.with_digest([0; 32]),
        }
    }

    /// Turns a bit of a byte of a page.
    pub(crate) fn change(&mut self, alloc: Global, addr: usize, place: usize) -> Option<()> {
        let mut pages = Pages::new(alloc);
        for at in 0..self.platform.recorded().len() {
            let mut page = *self.platform.recorded().at(at);
            if at == addr && place < RECORD {
                page[place] ^= 1;
            }
            pages.push(&page).ok()?;
        }
        self.stand_on(alloc, pages)
    }

    /// Has two pages stand in the place of each other.
    pub(crate) fn swap(&mut self, alloc: Global, one: usize, two: usize) -> Option<()> {
        let mut pages = Pages::new(alloc);
        let count = self.platform.recorded().len();
        for at in 0..count {
            let from = if at == one {
                two
            } else if at == two {
                one
            } else {
                at
            };
            if from >= count {
                return None;
            }
            pages.push(self.platform.recorded().at(from)).ok()?;
        }
        self.stand_on(alloc, pages)
    }

    /// From now on these are the pages.
    fn stand_on(&mut self, alloc: Global, pages: Pages) -> Option<()> {
        if pages.len() > PAGES as usize {
            return None;
        }
        self.platform = MemPlatform::from_parts(alloc, pages, None, PAGES);
        Some(())
    }

    /// Seals a record under the key of its page, and appends that. Answers its address.
    fn place(&mut self, record: &[u8; RECORD]) -> Option<u64>
        ensures { length (image_of_now self.old.platform).recorded ≤ length (image_of_now self.new.platform).recorded }
    {
        let addr = self.platform.head();
        if addr >= self.platform.capacity() {
            return None;
        }
        let mut page = [0; RECORD];
        let mut key = KeySlot::new(*self.digests.allocator()).ok()?;
        key.put(key_bytes(addr));
        let _used = seal(&mut key, record, &mut page);
        self.digests.push(digest_of(&page)).ok()?;
        self.platform.append(&page).ok()?;
        Some(addr)
    }

    /// Appends a data record that says that it stands at an address. Answers its own.
    pub(crate) fn datum(&mut self, addr: u64) -> Option<u64>
        ensures { length (image_of_now self.old.platform).recorded ≤ length (image_of_now self.new.platform).recorded }
    {
        let mut record = [0; RECORD];
        encode_block(addr, 0, b"x", &mut record);
        self.place(&record)
    }

    /// Appends a node of a version, whatever the addresses of its children are. Answers its own.
    pub(crate) fn node(&mut self, version: u8, level: u8, entries: &[Entry]) -> Option<u64> {
        if !fits_node(u64::MAX, level, version, entries) {
            return None;
        }
        let mut record = [0; RECORD];
        encode_node(u64::MAX, level, version, entries, &mut record);
        record[8..16].copy_from_slice(&self.platform.head().to_be_bytes());
        self.place(&record)
    }

    /// Appends the nodes in memory that a child is made of, each behind those below it, and answers the entry that names it.
    #[cycle(seal)]
    pub(crate) fn seal(&mut self, alloc: Global, child: &Child) -> Option<Entry> {
        match child {
            Child::Kept { low, addr, key } => Some(Entry {
                low: *low,
                addr: *addr,
                key: *key,
            }),
            Child::Grown { low, twig } => self.seal_twig(alloc, *low, twig),
        }
    }

    /// Appends a node and those below it.
    #[cycle(seal)]
    fn seal_twig(&mut self, alloc: Global, low: u64, twig: &Twig) -> Option<Entry> {
        let mut entries = Vec::new(alloc);
        for child in &twig.children {
            let entry = self.seal(alloc, child)?;
            entries.push(entry).ok()?;
        }
        let addr = self.node(self.version, twig.level, &entries)?;
        Some(Entry {
            low,
            addr,
            key: self.key_at(self.version, addr, addr),
        })
    }
}

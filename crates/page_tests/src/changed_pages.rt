//! Pages of a device of the second version that were changed: none of them is answered.
use arrayvec::ArrayVec;
use medium_trace::Pages;
use node_codec::{Entry, fits_node};
use page_digest::digest_of;
use page_store::{Buffers, FetchRefusal, Want, fetch_block, fetch_node};
use platform::{MemPlatform, Platform};
use root_codec::{Root, decode_root, encode_root};
use sdbt_base::{Key, ListTape, RECORD, ROOT};
use std::alloc::Global;
use std::test::Fail;

/// How many pages there are: two data records, two leaves, and a root node above them.
const PAGES: usize = 5;

/// A device of 8 blocks and order 4, each of whose pages has the key of its address.
#[derive(Drop)]
struct Device {
    platform: MemPlatform,
    tape: ListTape,
    buffers: Buffers,
}

/// The key of the page at an address, without a digest.
fn plain_key(addr: usize) -> Key {
    Key::from_bytes([(addr % PAGES) as u8 + 1; 32])
}

impl Device {
    /// A blank medium.
    fn blank(alloc: Global) -> Option<Device> {
        let keys = [[1; 32], [2; 32], [3; 32], [4; 32], [5; 32]];
        Some(Device {
            platform: MemPlatform::blank(alloc, 8),
            tape: ListTape::new(alloc, &keys, &[]).ok()?,
            buffers: Buffers::new(alloc).ok()?,
        })
    }

    /// The device, with all of its pages.
    fn new(alloc: Global) -> Option<Device> {
        let mut device = Device::blank(alloc)?;
        device.fill()?;
        Some(device)
    }

    /// Appends all pages.
    fn fill(&mut self) -> Option<()> {
        self.block(3)?;
        self.block(5)?;
        self.node(1, &[(3, 0)])?;
        self.node(1, &[(5, 1)])?;
        self.node(2, &[(0, 2), (5, 3)])
    }

    /// Appends what the buffers hold.
    fn place(&mut self) -> Option<()> {
        if self.platform.head() >= self.platform.capacity() {
            return None;
        }
        let _placed = self
            .buffers
            .append(&mut self.platform, &mut self.tape, 2)
            .ok()?;
        Some(())
    }

    /// Appends a data record.
    fn block(&mut self, block: u8) -> Option<()> {
        let addr = self.platform.head();
        self.buffers.put_block(addr, u64::from(block), &[block]);
        self.place()
    }

    /// Appends a node with children of these lows and addresses.
    fn node(&mut self, level: u8, children: &[(u64, usize)]) -> Option<()> {
        let mut entries: ArrayVec<Entry, 64> = ArrayVec::new();
        for (low, addr) in children {
            let entry = Entry {
                low: *low,
                addr: *addr as u64,
                key: self.key(*addr)?,
            };
            entries.try_push(entry).ok()?;
        }
        let addr = self.platform.head();
        if !fits_node(addr, level, 2, &entries) {
            return None;
        }
        self.buffers.put_node(addr, level, 2, &entries);
        self.place()
    }

    /// The key of the page at an address, with its digest.
    fn key(&self, addr: usize) -> Option<Key> {
        let pages = self.platform.recorded();
        if addr >= pages.len() {
            return None;
        }
        Some(plain_key(addr).with_digest(digest_of(pages.at(addr))))
    }

    /// The root record's value.
    fn root(&self) -> Option<Root> {
        Some(Root {
            version: 2,
            order: 4,
            level: 2,
            blocks: 8,
            commit: 0,
            addr: 4,
            key: self.key(4)?,
            mapped: 2,
            head: 5,
        })
    }

    /// What comes of the page at an address of a medium, where its record is wanted under a key.
    fn fetch(
        &mut self,
        medium: &mut MemPlatform,
        addr: usize,
        key: &Key,
    ) -> Option<Result<(), FetchRefusal>> {
        let want = want_of(addr);
        if want.addr >= medium.head() {
            return None;
        }
        if want.level == 0 {
            return Some(fetch_block(medium, &want, key, &mut self.buffers));
        }
        let mut entries = ArrayVec::new();
        Some(fetch_node(medium, &want, key, &mut self.buffers, &mut entries))
    }
}

/// The record that is wanted at an address.
fn want_of(addr: usize) -> Want {
    match addr {
        0 => Want::of_block(0, 3),
        1 => Want::of_block(1, 5),
        2 => node_want(2, 1, 0, 5),
        3 => node_want(3, 1, 5, 8),
        _ => node_want(4, 2, 0, 8),
    }
}

/// A node that is wanted at an address, of a level and within bounds.
fn node_want(addr: u64, level: u8, low: u64, high: u64) -> Want {
    Want {
        addr,
        level,
        low,
        high,
        least: 1,
        most: 4,
    }
}

/// A medium of the pages that a device has, of which each is that of another place.
fn medium_of(alloc: Global, pages: &Pages, places: [usize; PAGES]) -> Option<MemPlatform> {
    let mut copy = Pages::new(alloc);
    for place in places {
        if place >= pages.len() {
            return None;
        }
        copy.push(pages.at(place)).ok()?;
    }
    over(alloc, copy)
}

/// A medium of the same pages but for a byte of one of them, in which one bit is another.
fn medium_but(alloc: Global, pages: &Pages, addr: usize, place: usize) -> Option<MemPlatform> {
    let mut copy = Pages::new(alloc);
    for at in 0..pages.len() {
        let mut page = *pages.at(at);
        if at == addr && place < RECORD {
            page[place] ^= 1 << (place % 8);
        }
        copy.push(&page).ok()?;
    }
    over(alloc, copy)
}

/// A medium of these pages.
fn over(alloc: Global, pages: Pages) -> Option<MemPlatform> {
    if pages.len() > 8 {
        return None;
    }
    Some(MemPlatform::from_parts(alloc, pages, None, 8))
}

/// A refusal of the page at an address.
fn bad(addr: usize) -> Option<Result<(), FetchRefusal>> {
    Some(Err(FetchRefusal::BadRecord { addr: addr as u64 }))
}

/// What comes of the page at an address of the device, under its key, with one byte of it changed.
fn fetched_but(
    alloc: Global,
    device: &mut Device,
    (addr, place): (usize, usize),
    key: &Key,
) -> Option<Result<(), FetchRefusal>> {
    let mut other = medium_but(alloc, device.platform.recorded(), addr, place)?;
    device.fetch(&mut other, addr, key)
}

/// The first byte of a device's page at an address whose change is not refused there, if there is one.
fn first_taken_of(alloc: Global, device: &mut Device, addr: usize) -> Option<Option<usize>> {
    let key = device.key(addr)?;
    for place in 0..RECORD {
        if fetched_but(alloc, device, (addr, place), &key) != bad(addr) {
            return Some(Some(place));
        }
    }
    Some(None)
}

/// The same of a new device. `None` where there is no such page.
fn first_taken(alloc: Global, addr: usize) -> Option<Option<usize>> {
    let mut device = Device::new(alloc)?;
    first_taken_of(alloc, &mut device, addr)
}

#[test]
fn no_changed_data_record_is_answered(rt: HostRuntime) {
    assert!(rt; first_taken(rt.alloc(), 0) == Some(None));
    assert!(rt; first_taken(rt.alloc(), 1) == Some(None));
}

#[test]
fn no_changed_leaf_is_answered(rt: HostRuntime) {
    assert!(rt; first_taken(rt.alloc(), 2) == Some(None));
    assert!(rt; first_taken(rt.alloc(), 3) == Some(None));
}

#[test]
fn no_changed_root_node_is_answered(rt: HostRuntime) {
    assert!(rt; first_taken(rt.alloc(), 4) == Some(None));
}

/// What comes of the page at an address of the device, over a medium whose pages are those of these places.
fn fetched_among(
    alloc: Global,
    device: &mut Device,
    addr: usize,
    places: [usize; PAGES],
) -> Option<Result<(), FetchRefusal>> {
    let key = device.key(addr)?;
    let mut medium = medium_of(alloc, device.platform.recorded(), places)?;
    device.fetch(&mut medium, addr, &key)
}

/// The first page of the device that is not answered, over the same pages, or `None`.
fn first_lost(alloc: Global, device: &mut Device) -> Option<usize> {
    for addr in 0..PAGES {
        if fetched_among(alloc, device, addr, [0, 1, 2, 3, 4]) != Some(Ok(())) {
            return Some(addr);
        }
    }
    None
}

#[test]
fn pages_that_are_not_changed_are_answered(rt: HostRuntime) -> Result<(), Fail> {
    let mut device = Device::new(rt.alloc()).ok_or("no device")?;
    assert_eq!(rt; first_lost(rt.alloc(), &mut device), None);
    Ok(())
}

/// The first page of the device that is not refused where another one stands in its place, with that one, or `None`.
fn first_swapped(alloc: Global, device: &mut Device) -> Option<(usize, usize)> {
    for one in 0..PAGES {
        for two in 0..PAGES {
            let mut places = [0, 1, 2, 3, 4];
            places.swap(one, two);
            if one != two && fetched_among(alloc, device, one, places) != bad(one) {
                return Some((one, two));
            }
        }
    }
    None
}

#[test]
fn no_other_page_is_answered(rt: HostRuntime) -> Result<(), Fail> {
    let mut device = Device::new(rt.alloc()).ok_or("no device")?;
    assert_eq!(rt; first_swapped(rt.alloc(), &mut device), None);
    Ok(())
}

/// The root of the device where a byte of its root record is another.
fn root_but(root: &Root, place: usize) -> Option<Root> {
    if !root.is_in_range() || place >= ROOT {
        return None;
    }
    let mut bytes = [0; ROOT];
    encode_root(root, &mut bytes);
    bytes[place] ^= 0x10;
    decode_root(&bytes)
}

/// What comes of the root node under the key of the root record, with this byte of it changed.
fn fetched_under(
    device: &mut Device,
    medium: &mut MemPlatform,
    root: &Root,
    place: usize,
) -> Option<Result<(), FetchRefusal>> {
    let other = root_but(root, place)?;
    device.fetch(medium, 4, &other.key)
}

/// The first byte of the key in the root record, or of its digest, under whose change the root node is not refused, or `None`.
fn first_found(device: &mut Device, medium: &mut MemPlatform, root: &Root) -> Option<usize> {
    for place in 40..120 {
        // Between the key and its digest stand numbers.
        let is_of_key = place < 72 || place >= 88;
        if is_of_key && fetched_under(device, medium, root, place) != bad(4) {
            return Some(place);
        }
    }
    None
}

/// Whether the root node of a device is found over the same pages, and the first change under which it is found too.
fn first_found_of(alloc: Global, device: &mut Device) -> Option<(bool, Option<usize>)> {
    let root = device.root()?;
    let mut same = medium_of(alloc, device.platform.recorded(), [0, 1, 2, 3, 4])?;
    let is_found = device.fetch(&mut same, 4, &root.key) == Some(Ok(()));
    Some((is_found, first_found(device, &mut same, &root)))
}

#[test]
fn a_changed_key_finds_no_root_node(rt: HostRuntime) -> Result<(), Fail> {
    let mut device = Device::new(rt.alloc()).ok_or("no device")?;
    assert!(rt; first_found_of(rt.alloc(), &mut device) == Some((true, None)));
    Ok(())
}

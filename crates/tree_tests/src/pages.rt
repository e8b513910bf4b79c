//! Devices as text: a line for each page.
use crate::device::Device;
use crate::fixture::Fixture;
use btree_walk::NodeReader;
use node_codec::Entry;
use platform::Platform;
use std::alloc::Global;

/// An empty leaf at address 0, data records of blocks 0 to 4 at 1 to 5, leaves of two and three of them at 6 and 7, and a root at 8.
pub(crate) const SPLIT: &str = "\
1:\n\
1\n\
2\n\
3\n\
4\n\
5\n\
1: 0@1 1@2\n\
1: 2@3 3@4 4@5\n\
2: 0@6 2@7";

/// Behind those, roots of forged trees, and what they stand on: 9, a child at two places; 10, a record of another address; 11, a
/// node of another level below it; 12, a bound that a low crosses; 13 and 14, too few entries; 15 and 16, too many; 17, a child
/// above its parent, and above all pages; 18 and 19, a cycle; 20, a node that is its own child; 21, a root that is no leaf and has
/// one child; 22, a first bound that is not the node's own; 23, a key that opens nothing; 24, at three levels a leaf in the place
/// of an inner node, behind one that fits.
pub(crate) const FORGED: &str = "\
2: 0@6 2@6\n\
20\n\
2: 0@6 2@8\n\
2: 0@6 1@7\n\
1: 5@5\n\
2: 0@6 2@7 5@13\n\
1: 0@1 1@2 2@3 3@4 4@5\n\
2: 0@15 5@7\n\
2: 0@6 2@200\n\
2: 0@6 2@19\n\
2: 0@6 2@18\n\
1: 0@1 1@20\n\
2: 0@6\n\
2: 1@6 2@7\n\
2: 0@6 2@7/99\n\
3: 0@8 5@7";

/// Behind the pages of `SPLIT`: 9, a leaf of the other version; 10, a root above it; 11 and 12, roots of the other version, of which
/// the second is above that leaf; 13, a root of no level below that is all of the other version.
pub(crate) const MIXED: &str = "\
~1: 0@1 1@2\n\
2: 0@9 2@7\n\
~2: 0@6 2@7\n\
~2: 0@9 2@7\n\
3: 0@8 5@12";

/// An entry of a node of a version as a word: `LOW@ADDRESS` with the key of that page, or `LOW@ADDRESS/OTHER` with the key of
/// another one.
fn entry_of(device: &Device, version: u8, word: &str) -> Option<Entry> {
    let (low, place) = word.split_once('@')?;
    let (addr, own) = place.split_once('/').unwrap_or((place, place));
    let addr = addr.parse().ok()?;
    Some(Entry {
        low: low.parse().ok()?,
        addr,
        key: device.key_at(version, addr, own.parse().ok()?),
    })
}

/// The entries of a line.
fn entries_of(alloc: Global, device: &Device, version: u8, words: &str) -> Option<Vec<Entry>> {
    let mut entries = Vec::new(alloc);
    for word in words.split_whitespace() {
        entries.push(entry_of(device, version, word)?).ok()?;
    }
    Some(entries)
}

/// Appends the page of a line: `LEVEL: ENTRIES`, a node, `~LEVEL: ENTRIES`, one of the other version, or `ADDRESS`, a data record that
/// says that it stands there.
fn append(alloc: Global, device: &mut Device, line: &str) -> Option<u64> {
    let Some((level, words)) = line.split_once(':') else {
        return device.datum(line.parse().ok()?);
    };
    let version = device.version();
    match level.split_once('~') {
        Some((_, level)) => append_node(
            alloc,
            device,
            if version == 1 { 2 } else { 1 },
            level,
            words,
        ),
        None => append_node(alloc, device, version, level, words),
    }
}

/// Appends a node of a version.
fn append_node(
    alloc: Global,
    device: &mut Device,
    version: u8,
    level: &str,
    words: &str,
) -> Option<u64> {
    let entries = entries_of(alloc, device, version, words)?;
    device.node(version, level.parse().ok()?, &entries)
}

/// A device whose pages are these lines, with nodes of a version.
pub(crate) fn device_of(alloc: Global, version: u8, pages: &str) -> Option<Device> {
    let mut device = Device::new(alloc, version)?;
    for line in pages.lines() {
        let _addr = append(alloc, &mut device, line)?;
    }
    Some(device)
}

/// A tree of so many blocks on that device. The last page is its root node, of this level.
pub(crate) fn fixture_of(
    alloc: Global,
    version: u8,
    pages: &str,
    order: u16,
    blocks: u64,
    level: u8,
) -> Option<Fixture> {
    let device = device_of(alloc, version, pages)?;
    let reader = NodeReader::new(alloc, 16).ok()?;
    let top = device.platform.head().checked_sub(1)?;
    Fixture::over(alloc, device, reader, (order, blocks), level, top)
}

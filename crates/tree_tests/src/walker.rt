//! Look-ups and listings over the pages of a device.
use crate::device::Device;
use crate::pages::device_of;
use crate::script::{Act, Outcome, Stage, in_words};
use btree_walk::{NodeReader, WalkRefusal, addresses, entries, find};
use page_store::{FetchRefusal, Want};
use platform::Platform;
use root_codec::Root;
use sdbt_base::{Addrs, Key};
use std::alloc::Global;

/// How many nodes a cache can keep at most.
const MOST_NODES: usize = 4096;

/// A device, and what its nodes are read with.
#[derive(Drop)]
pub(crate) struct Walker {
    device: Device,
    reader: NodeReader,
}

impl Walker {
    /// A device whose pages are these lines, with nodes of a version, behind a cache of so many nodes.
    pub(crate) fn new(alloc: Global, version: u8, pages: &str, capacity: usize) -> Option<Walker> {
        if capacity > MOST_NODES {
            return None;
        }
        Some(Walker {
            device: device_of(alloc, version, pages)?,
            reader: NodeReader::new(alloc, capacity).ok()?,
        })
    }

    /// The root record of a tree of order 4 over 8 blocks, whose root node is at an address and of a level.
    fn root(&self, addr: u64, level: u8) -> Option<Root> {
        let root = Root {
            version: self.device.version(),
            order: 4,
            level,
            blocks: 8,
            commit: 0,
            addr,
            key: self.key_at(addr, addr),
            mapped: 5,
            head: self.device.platform.head(),
        };
        if root.is_in_range() { Some(root) } else { None }
    }

    /// The key of the page at an address as a node would name it, with the bytes of that of another one.
    fn key_at(&self, addr: u64, own: u64) -> Key {
        self.device.key_at(self.device.version(), addr, own)
    }

    /// Looks for a block from what is wanted on.
    fn look(&mut self, want: &Want, key: &Key, block: u64) -> Option<Outcome> {
        let asks = want.level >= 1 && (want.level == 1 || want.least >= 1) && want.most >= 2;
        let is_there = want.addr < self.device.platform.head();
        if !asks || !is_there || block < want.low || block >= want.high {
            return None;
        }
        match find(
            &mut self.device.platform,
            &mut self.reader,
            want,
            key,
            block,
        ) {
            Ok(found) => Some(Outcome::At(found.map(|entry| entry.addr))),
            Err(FetchRefusal::BadRecord { addr }) => Some(Outcome::Bad(addr)),
            Err(_) => None,
        }
    }

    /// Looks for a block under the sound root at address 8, with another bound, least and greatest number of entries and key.
    fn try_other(&mut self, numbers: &[u64; 5]) -> Option<Outcome> {
        let want = Want {
            addr: 8,
            level: 2,
            low: 0,
            high: numbers[0],
            least: u16::try_from(numbers[1]).ok()?,
            most: u16::try_from(numbers[2]).ok()?,
        };
        self.look(&want, &self.key_at(8, numbers[3]), numbers[4])
    }

    /// The blocks that are listed, each with the address of its data record.
    fn list(&mut self, alloc: Global, root: &Root) -> Option<Outcome> {
        if !root.is_in_range() || root.head > self.device.platform.head() {
            return None;
        }
        let platform = &mut self.device.platform;
        match entries(alloc, platform, root, &mut self.device.buffers) {
            Ok(list) => {
                let mut row = Vec::new(alloc);
                for i in 0..list.len() {
                    let entry = list.at(i);
                    row.push(entry.low).ok()?;
                    row.push(entry.addr).ok()?;
                }
                Some(Outcome::Row(row))
            }
            Err(WalkRefusal::BadRecord { addr }) => Some(Outcome::Bad(addr)),
            Err(_) => None,
        }
    }

    /// The addresses of the nodes.
    fn nodes(&mut self, alloc: Global, root: &Root) -> Option<Outcome> {
        if !root.is_in_range() || root.head > self.device.platform.head() {
            return None;
        }
        let platform = &mut self.device.platform;
        match addresses(alloc, platform, root, &mut self.device.buffers) {
            Ok(addrs) => row_of(alloc, &addrs),
            Err(WalkRefusal::BadRecord { addr }) => Some(Outcome::Bad(addr)),
            Err(_) => None,
        }
    }

    /// Changes a byte of a page, or has two pages stand in the place of each other, and forgets the nodes that were read.
    fn turn(&mut self, alloc: Global, act: &Act) -> Option<Outcome> {
        let one = act.numbers[0] as usize;
        let two = act.numbers[1] as usize;
        if act.verb == b'c' {
            self.device.change(alloc, one, two)?;
        } else {
            self.device.swap(alloc, one, two)?;
        }
        self.reader = NodeReader::new(alloc, 8).ok()?;
        Some(Outcome::Done)
    }

    /// What comes of an act.
    fn outcome(&mut self, alloc: Global, act: &Act) -> Option<Outcome> {
        if act.verb == b't' {
            return self.try_other(&act.numbers);
        }
        if act.verb == b'c' || act.verb == b's' {
            return self.turn(alloc, act);
        }
        if act.verb == b'k' {
            return row_of(alloc, &self.reader.cache.addresses(alloc).ok()?);
        }
        if act.verb == b'r' {
            let reads = self.device.platform.reads();
            return Some(Outcome::Count(reads));
        }
        let root = self.root(act.numbers[0], u8::try_from(act.numbers[1]).ok()?)?;
        match act.verb {
            b'f' => self.look(&Want::of_root(&root), &root.key, act.numbers[2]),
            b'l' => self.list(alloc, &root),
            b'n' => self.nodes(alloc, &root),
            _ => None,
        }
    }
}

/// Addresses in a row.
fn row_of(alloc: Global, addrs: &Addrs) -> Option<Outcome> {
    let mut row = Vec::new(alloc);
    for i in 0..addrs.len() {
        row.push(*addrs.at(i)).ok()?;
    }
    Some(Outcome::Row(row))
}

/// Does what an act says, and answers what came of it in words.
fn told(walker: &mut Walker, alloc: Global, act: &Act) -> Option<String> {
    let outcome = walker.outcome(alloc, act)?;
    in_words(alloc, &outcome)
}

impl Stage for Walker {
    fn act(self, alloc: Global, act: &Act) -> Option<(Walker, String)> {
        let mut walker = self;
        let words = told(&mut walker, alloc, act);
        Some(walker).zip(words)
    }
}

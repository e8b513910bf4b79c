//! A grove over a device in memory, with all that its calls ask for.
ghost use Rattle.std.specs.Prelude.{◌≡◌, length};
ghost use Rattle.sdbt_base.specs.Keys.{key_size};
ghost use Rattle.platform.specs.Mem.{image_of_now};
ghost use Rattle.btree_update.specs.Groves.{IsSound, places_of};
ghost use Rattle.btree_update.specs.Held.{bound, AreBelow};

use crate::device::Device;
use crate::shape::nodes_of;
use btree_update::{Grove, ReadyRefusal};
use btree_walk::NodeReader;
use page_store::FetchRefusal;
use platform::Platform;
use record_versions::is_of_version;
use root_codec::Root;
use std::alloc::Global;
use std::marker::Model;

/// A grove, the device that it stands on, and what its nodes are read with.
pub(crate) struct Fixture {
    device: Device,
    reader: NodeReader,
    root: Root,
    grove: Grove,
}

impl Model for Fixture {
    ghost use Rattle.std.specs.Prelude.{◌≡◌, length};
    ghost use Rattle.sdbt_base.specs.Keys.{key_size};
    ghost use Rattle.platform.specs.Mem.{image_of_now};
    ghost use Rattle.btree_update.specs.Groves.{IsSound, places_of};
    ghost use Rattle.btree_update.specs.Held.{bound, AreBelow};

    ghost Value = { Unit {0} };

    ghost view = { λ f. tt };

    ghost invariant = { λ f. IsSound f.grove × (f.grove.blocks ≡ f.root.blocks) × AreBelow (bound (length (image_of_now f.device.platform).recorded) (key_size f.root.version)) (places_of f.grove) };
}

/// No key of the tree is left where the grove is let go.
impl Drop for Fixture {
    fn drop(mut self) {
        self.grove.wipe();
        let Fixture {
            device: _,
            reader: _,
            root: _,
            grove: _,
        } = self;
    }
}

impl Fixture {
    /// The tree of a root node at an address and of a level, with this order and so many blocks, of the device's version.
    pub(crate) fn over(
        alloc: Global,
        device: Device,
        reader: NodeReader,
        size: (u16, u64),
        level: u8,
        addr: u64,
    ) -> Option<Fixture> {
        let root = Root {
            version: device.version(),
            order: size.0,
            level,
            blocks: size.1,
            commit: 0,
            addr,
            key: device.key_at(device.version(), addr, addr),
            mapped: 0,
            head: device.platform.head(),
        };
        if !root.is_in_range() {
            return None;
        }
        let grove = Grove::of(alloc, &root);
        Some(Fixture {
            device,
            reader,
            root,
            grove,
        })
    }

    /// The same tree after a commit: its nodes in memory are on the medium.
    pub(crate) fn commit(self, alloc: Global) -> Option<Fixture> {
        let Fixture {
            mut device,
            reader,
            root,
            mut grove,
        } = self;
        let sealed = device.seal(alloc, grove.top());
        let level = grove.level();
        grove.wipe();
        let top = sealed?;
        Fixture::over(
            alloc,
            device,
            reader,
            (root.order, root.blocks),
            level,
            top.addr,
        )
    }

    /// Makes ready for an update of a block.
    pub(crate) fn ready(
        &mut self,
        alloc: Global,
        block: u64,
    ) -> Option<Result<bool, ReadyRefusal>> {
        if block >= self.root.blocks {
            return None;
        }
        Some(
            self.grove
                .ready(alloc, block, &mut self.device.platform, &mut self.reader),
        )
    }

    /// Appends a data record, and answers its address.
    pub(crate) fn datum(&mut self) -> Option<u64> {
        self.device.datum(0)
    }

    /// Maps a block to a data record at an address below the head.
    pub(crate) fn put(&mut self, alloc: Global, block: u64, addr: u64) -> Option<()> {
        if block >= self.root.blocks || self.grove.level() == 255 {
            return None;
        }
        if addr >= self.device.platform.head() {
            return None;
        }
        let key = self.device.key_at(self.root.version, addr, addr);
        if !is_of_version(&key, self.root.version) {
            return None;
        }
        let _is_mapped = self
            .grove
            .ready(alloc, block, &mut self.device.platform, &mut self.reader)
            .ok()?;
        self.grove.insert(block, addr, key);
        Some(())
    }

    /// Maps a block to nothing, and answers whether it was mapped.
    pub(crate) fn take(&mut self, alloc: Global, block: u64) -> Option<bool> {
        if block >= self.root.blocks {
            return None;
        }
        let is_mapped = self
            .grove
            .ready(alloc, block, &mut self.device.platform, &mut self.reader)
            .ok()?;
        if is_mapped {
            self.grove.remove(block);
        }
        Some(is_mapped)
    }

    /// The address of the data record of a block, if it is mapped; none where the block is not one of the device.
    pub(crate) fn find(&mut self, block: u64) -> Result<Option<u64>, FetchRefusal> {
        if block >= self.root.blocks {
            return Ok(None);
        }
        let found = self
            .grove
            .find(block, &mut self.device.platform, &mut self.reader)?;
        Ok(found.map(|entry| entry.addr))
    }

    /// The number of pages on the medium.
    pub(crate) fn head(&self) -> u64 {
        self.device.platform.head()
    }

    /// How many nodes are in memory.
    pub(crate) fn grown(&self) -> u64 {
        self.grove.grown()
    }

    /// The tree.
    pub(crate) fn grove(&self) -> &Grove {
        &self.grove
    }

    /// How many nodes are in memory, where they are shaped as they may be, or `None`.
    pub(crate) fn shape(&self) -> Option<u64> {
        let level = self.grove.level();
        let least = if level == 1 { 0 } else { 2 };
        nodes_of(
            self.grove.top(),
            self.root.order as usize,
            level,
            least,
            0,
            self.root.blocks,
        )
    }
}

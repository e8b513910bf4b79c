//! A medium in memory on which devices are made and erased. Its calls say nothing, so that the proofs of tests don't carry what
//! those of a device say.
use device_core::{EraseRefusal, FormatRefusal, erase, format};
use platform::MemPlatform;
use sdbt_base::{ListTape, MAX_BLOCKS, MAX_ORDER, MemSink};
use std::alloc::Global;

/// A medium in memory, keys for its pages, and its ledger.
#[derive(Drop)]
pub(crate) struct Maker {
    pub(crate) platform: MemPlatform,
    pub(crate) tape: ListTape,
    pub(crate) ledger: MemSink,
}

/// Keys for the pages of a small medium, each of one byte of its own.
fn keys() -> [[u8; 32]; 16] {
    let mut keys = [[0; 32]; 16];
    for (number, key) in keys.iter_mut().enumerate() {
        key[0] = number as u8;
    }
    keys
}

impl Maker {
    /// A blank medium of so many pages.
    pub(crate) fn new(alloc: Global, pages: u32) -> Option<Maker> {
        Some(Maker {
            platform: MemPlatform::blank(alloc, u64::from(pages)),
            tape: ListTape::new(alloc, &keys(), &[]).ok()?,
            ledger: MemSink::new(alloc, &[]).ok()?,
        })
    }

    /// Makes a device; none where there is none of this size.
    pub(crate) fn format(
        &mut self,
        alloc: Global,
        blocks: u64,
        order: u16,
    ) -> Option<Result<(), FormatRefusal>> {
        if !(1..=MAX_BLOCKS).contains(&blocks) || !(4..=MAX_ORDER).contains(&order) {
            return None;
        }
        if order % 2 != 0 {
            return None;
        }
        Some(format(
            alloc,
            &mut self.platform,
            &mut self.tape,
            &mut self.ledger,
            blocks,
            order,
        ))
    }

    /// Erases the device.
    pub(crate) fn erase(&mut self) -> Result<(), EraseRefusal> {
        erase(&mut self.platform)
    }

    /// The order and the number of blocks in the root cell, as their bytes.
    pub(crate) fn shape(&self) -> Option<([u8; 2], [u8; 8])> {
        let cell = self.platform.cell()?;
        let mut order = [0; 2];
        order.copy_from_slice(&cell[10..12]);
        let mut blocks = [0; 8];
        blocks.copy_from_slice(&cell[16..24]);
        Some((order, blocks))
    }
}

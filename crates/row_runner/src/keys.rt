//! Which keys the runs of a row draw.
use key_tape::SeedTape;
use sdbt_base::{ListTape, Memory};
use std::alloc::Global;

/// How many keys a run may draw where they rise.
const KEYS: usize = 24;

/// Where the keys of a row's runs come from.
#[derive(Drop)]
pub(crate) enum Keys {
    /// Each run has keys of its own, each of one byte 32 times: that of a page is its address and one, as long as no draw was lost
    /// and there are fewer than 200 pages.
    Rising,
    /// The keys of a number, one after the other over all runs.
    Seeded(SeedTape),
}

/// A tape of rising keys for a medium of so many pages, of which these draws fail.
pub(crate) fn rising(alloc: Global, pages: u64, failing: &[u64]) -> Result<ListTape, Memory> {
    let mut byte = (pages % 200) as u8;
    let mut keys = [[0; 32]; KEYS];
    for key in keys.iter_mut() {
        byte = byte.saturating_add(1);
        *key = [byte; 32];
    }
    ListTape::new(alloc, &keys, failing)
}

//! A script over a device in memory, and the move of that device to a second one.

use crate::NO_MEMORY;
use device_cli::run_main;
use key_tape::SeedTape;
use platform::MemPlatform;
use sdbt_base::{MemSink, ReadSource, WriteSink};
use std::alloc::Global;
use std::io;
use transfer::run_transfer;

/// How many pages each medium can have.
const PAGES: u64 = 262_144;

/// Serves the script on standard input over a device in memory and, where it was served to its end, moves the device to a second
/// medium in memory. The answer is the exit status.
pub(crate) fn serve_and_move(rt: &(impl Alloc<A = Global> + Input + Print)) -> u8 {
    let alloc = rt.alloc();
    let (Ok(mut ledger), Ok(mut other_ledger)) = (
        MemSink::new(alloc, &[]),
        MemSink::new(alloc, &[]),
    ) else {
        return NO_MEMORY;
    };
    let mut from = MemPlatform::blank(alloc, PAGES);
    let mut to = MemPlatform::blank(alloc, PAGES);
    // The keys of a known seed are no secret: they are for devices that are gone when the program
    // ends.
    let mut tape = SeedTape::new(0);
    let mut input = ReadSource::new(rt.reader());
    let mut output = WriteSink::new(io::writer(rt));
    let mut status = run_main(
        alloc,
        &[],
        &mut from,
        &mut tape,
        &mut input,
        &mut output,
        &mut ledger,
    );
    if status == 0 {
        status = run_transfer(
            alloc,
            &[],
            &mut from,
            &mut to,
            &mut tape,
            &mut output,
            &mut other_ledger,
        );
    }
    let media_starved = from.starved() > 0 || to.starved() > 0;
    let ledgers_starved = ledger.starved() > 0 || other_ledger.starved() > 0;
    status_in_memory(status, media_starved || ledgers_starved)
}

/// The exit status of a run over media and ledgers in memory: these have no fault but that memory was refused.
fn status_in_memory(status: u8, has_starved: bool) -> u8 {
    match status {
        5 | 7 | 13 if has_starved => NO_MEMORY,
        other => other,
    }
}

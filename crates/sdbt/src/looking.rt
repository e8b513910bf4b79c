//! The words that only look at a device: neither a key nor a ledger is opened for them.

use crate::texts::NAME;
use device_cli::run_main;
use folder_objects::{NotReady, Watched};
use key_tape::SeedTape;
use platform::Platform;
use sdbt_base::{MemSink, ReadSource, WriteSink};
use std::alloc::Global;
use std::io;

/// Whether these words only look at a device, whatever comes behind the first of them.
pub fn is_look(words: &[String]) -> bool {
    match words.first() {
        Some(word) => matches!(word.as_str(), "check" | "seize"),
        None => false,
    }
}

/// Does what such words ask for, over a platform that is only looked at. With standard error at a terminal a seizure says how many
/// pages were read.
pub fn look_over<R, P>(
    rt: &R,
    at_terminal: bool,
    platform: P,
    words: &[String],
) -> Result<(u8, P), NotReady>
where
    R: Alloc<A = Global> + Input + Print + Eprint,
    P: Platform + Drop,
{
    let is_seizure = words.first().is_some_and(|word| word.as_str() == "seize");
    let mut platform = Watched::new(platform, rt, NAME, at_terminal && is_seizure);
    let mut tape = SeedTape::new(0);
    let mut ledger = MemSink::new(rt.alloc(), &[])?;
    let mut input = ReadSource::new(rt.reader());
    let mut output = WriteSink::new(io::writer(rt));
    let status = run_main(
        rt.alloc(),
        words,
        &mut platform,
        &mut tape,
        &mut input,
        &mut output,
        &mut ledger,
    );
    Ok((status, platform.into_inner()))
}

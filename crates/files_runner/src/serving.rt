//! One run of the top call.
use device_cli::run_main;
use platform::Platform;
use sdbt_base::{Line, MemSink, MemSource, Tape};
use std::alloc::Global;

/// Hands words and a script to the top call. What it puts is written behind `text`, and then a line with its status; its entries
/// come behind those of the ledger. None, if no memory was given.
pub(crate) fn serve<P: Platform, T: Tape>(
    alloc: Global,
    words: &[String],
    platform: &mut P,
    tape: &mut T,
    script: &[u8],
    ledger: &mut Line,
    text: &mut Line,
) -> Option<()> {
    let mut input = MemSource::new(alloc, script, 4_096, &[]).ok()?;
    let mut output = MemSink::new(alloc, &[]).ok()?;
    let mut entries = MemSink::new(alloc, &[]).ok()?;
    let ends = (&mut input, &mut output, &mut entries);
    let status = status_of(alloc, words, platform, tape, ends);
    text.append(output.bytes()).ok()?;
    let line = format!(in alloc; "= status {status}\n").ok()?;
    text.append(line.as_bytes()).ok()?;
    ledger.append(entries.bytes()).ok()
}

/// Hands all to the top call. Its contract is not said again here, so that no proof above carries it along.
fn status_of<P: Platform, T: Tape>(
    alloc: Global,
    words: &[String],
    platform: &mut P,
    tape: &mut T,
    (input, output, entries): (&mut MemSource, &mut MemSink, &mut MemSink),
) -> u8 {
    run_main(alloc, words, platform, tape, input, output, entries)
}

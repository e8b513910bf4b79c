//! What comes of a client where no more of its bytes may be taken.

use nbd_core::{Agreed, Intake, Stop, haggle};
use sdbt_base::{MemSink, MemSource, Memory};
use std::alloc::Global;
use std::test::Fail;

/// Flags, an option that isn't served, and the one after which requests come.
const BYTES: &[u8] =
    b"\x00\x00\x00\x03IHAVEOPT\x00\x00\x00\x08\x00\x00\x00\x00IHAVEOPT\x00\x00\x00\x01\x00\x00\x00\x00";

/// How many bytes the greeting, the answer to an option, and the last answer have.
const GREETING: usize = 18;

const ANSWER: usize = 20;

const EXPORT: usize = 10;

/// Whether a client of which at most so many bytes may be taken comes to this end, once so many bytes
/// were put to it.
fn ends(alloc: Global, most: u64, end: Result<Agreed, Stop>, put: usize) -> Result<bool, Memory> {
    let mut input = MemSource::new(alloc, BYTES, 7, &[])?;
    let mut output = MemSink::new(alloc, &[])?;
    let mut intake = Intake::new(alloc, most)?;
    let came = haggle(&mut intake, 8 * 4096, &mut input, &mut output);
    Ok(came == end && output.bytes().len() == put)
}

/// The limit inside of the flags and behind them, inside of an option and behind it, inside of the last
/// one, and behind that: what is whole is answered, and the limit is not told for the input's end.
#[test]
fn limits(rt: HostRuntime) -> Result<(), Fail> {
    let limit = Err(Stop::Limit);
    let alloc = rt.alloc();
    assert!(rt; ends(alloc, 3, limit, GREETING)?);
    assert!(rt; ends(alloc, 4, limit, GREETING)?);
    assert!(rt; ends(alloc, 19, limit, GREETING)?);
    assert!(rt; ends(alloc, 20, limit, GREETING + ANSWER)?);
    assert!(rt; ends(alloc, 35, limit, GREETING + ANSWER)?);
    assert!(rt; ends(alloc, 36, Ok(Agreed::Requests), GREETING + ANSWER + EXPORT)?);
    Ok(())
}

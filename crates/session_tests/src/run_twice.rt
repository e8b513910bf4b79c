//! Two runs over one platform in memory, with a loss of power between them.
use crate::maker::Maker;
use platform::{CallKind, Failure};
use sdbt_base::{MemSink, MemSource, Memory};
use std::alloc::Global;
use std::test::Fail;
use two_runs::run_twice;

/// The first run's lines, of which the last has no reply where the second replacement of the root record fails.
const SCRIPT: &[u8] = b"format 8 64\nmount\nwrite 3 6869\ncommit\nread 3\n";

/// Whether a run that ends at the commit, and one behind a loss of power, put this.
fn put(maker: &mut Maker, alloc: Global, text: &[u8]) -> Result<bool, Memory> {
    let mut first = MemSource::new(alloc, SCRIPT, 7, &[])?;
    let mut second = MemSource::new(alloc, b"mount\nread 3\n", 7, &[])?;
    let mut output = MemSink::new(alloc, &[])?;
    let statuses = run_twice(
        alloc,
        &mut maker.platform,
        &mut maker.tape,
        &mut first,
        &mut second,
        &mut output,
        &mut maker.ledger,
        &[0, 1, 2, 9],
    );
    Ok(statuses == (5, 0) && output.bytes() == text)
}

/// The same where that replacement fails with its effect, or without.
fn put_after_failure(alloc: Global, effect: bool, text: &[u8]) -> Option<bool> {
    let mut maker = Maker::new(alloc, 16)?;
    let failure = Failure {
        call: CallKind::Swap,
        nth: 2,
        effect,
    };
    maker.platform.set_failures(&[failure]).ok()?;
    put(&mut maker, alloc, text).ok()
}

/// The second replacement of the root record fails, and with it the commit; then the power is lost.
#[test]
fn goes_on_from_what_is_left(rt: HostRuntime) -> Result<(), Fail> {
    let alloc = rt.alloc();
    let without = b"formatted\nmounted 0\nok\nmounted 0\ndata -\n";
    assert!(rt; put_after_failure(alloc, false, without) == Some(true));
    let with = b"formatted\nmounted 0\nok\nmounted 1\ndata 6869\n";
    assert!(rt; put_after_failure(alloc, true, with) == Some(true));
    Ok(())
}

//! Two runs over the volumes of one platform in memory, with a loss of power between them.
use crate::maker::Maker;
use sdbt_base::{MemSink, MemSource, Memory};
use std::alloc::Global;
use std::test::Fail;
use volume_runs::run_volumes_twice;

/// The lines of both runs, and what they put.
const FIRST: &[u8] = b"create a 2\nwrite a 1 61\ncommit\ndestroy a\ncreate b 1\n";

const SECOND: &[u8] = b"read a 1\nread b 0\ncreate a 2\nread a 1\n";

const PUT: &[u8] =
    b"created\nok\ncommitted 1\ndestroyed 2\ncreated\nunknown\nunknown\ncreated\ndata -\n";

/// Whether both runs end well, and put this.
fn are_put(maker: &mut Maker, alloc: Global) -> Result<bool, Memory> {
    let mut first = MemSource::new(alloc, FIRST, 7, &[])?;
    let mut second = MemSource::new(alloc, SECOND, 7, &[])?;
    let mut output = MemSink::new(alloc, &[])?;
    let statuses = run_volumes_twice(
        alloc,
        &mut maker.platform,
        &mut maker.tape,
        &mut first,
        &mut second,
        &mut output,
        &mut maker.ledger,
        &[0, 3, 9, 31],
    );
    Ok(statuses == (0, 0) && output.bytes() == PUT)
}

/// A volume that was destroyed in the first run is none in the second, and a new one has zeros.
#[test]
fn destroyed_is_none_behind_a_loss_of_power(rt: HostRuntime) -> Result<(), Fail> {
    let alloc = rt.alloc();
    let mut maker = Maker::new(alloc, 32).ok_or("no medium")?;
    assert!(rt; maker.format(alloc, 8, 4) == Some(Ok(())));
    assert!(rt; are_put(&mut maker, alloc)?);
    Ok(())
}

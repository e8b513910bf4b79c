//! Devices that are made and erased, on a medium in memory.
use crate::maker::Maker;
use device_core::{EraseRefusal, FormatRefusal};
use platform::Platform;
use std::alloc::Global;
use std::test::Fail;

/// The entries of two devices.
const ENTRIES: &[u8] = b"\
\n{\"added\":[[0,1]],\"base\":0,\"commit\":0,\"gone\":[],\"head\":1,\"never\":[],\"root\":0}\n\
\n{\"added\":[[1,1]],\"base\":1,\"commit\":0,\"gone\":[],\"head\":2,\"never\":[],\"root\":1}\n";

/// Whether there is no device to erase on a blank medium, a large one is made there, and no other beside it.
fn makes_one(maker: &mut Maker, alloc: Global) -> bool {
    maker.erase() == Err(EraseRefusal::NoDevice)
        && maker.format(alloc, 1_048_576, 4) == Some(Ok(()))
        && maker.shape() == Some(([0, 4], [0, 0, 0, 0, 0, 16, 0, 0]))
        && maker.format(alloc, 8, 64) == Some(Err(FormatRefusal::NotEmpty))
        && maker.platform.head() == 1
}

/// Whether a device is erased, and a small one made.
fn makes_another(maker: &mut Maker, alloc: Global) -> bool {
    maker.erase() == Ok(())
        && maker.shape() == None
        && maker.format(alloc, 1, 64) == Some(Ok(()))
        && maker.shape() == Some(([0, 64], [0, 0, 0, 0, 0, 0, 0, 1]))
}

/// Whether a device is erased, and no third one made, since there is no page for it.
fn makes_no_third(maker: &mut Maker, alloc: Global) -> bool {
    maker.erase() == Ok(()) && maker.format(alloc, 1, 64) == Some(Err(FormatRefusal::Full))
}

#[test]
fn devices_are_made_and_erased(rt: HostRuntime) -> Result<(), Fail> {
    let alloc = rt.alloc();
    let mut maker = Maker::new(alloc, 2).ok_or("no medium")?;
    assert!(rt; makes_one(&mut maker, alloc));
    assert!(rt; makes_another(&mut maker, alloc));
    assert!(rt; makes_no_third(&mut maker, alloc));
    assert!(rt; maker.ledger.bytes() == ENTRIES);
    Ok(())
}

//! A certificate of lists in no order.
use cert_codec::line;
use cert_maker::{Added, AddedList, Cert};
use sdbt_base::{Addrs, Memory, Unkept};
use std::alloc::Global;
use std::test::Fail;

/// A certificate whose added pages and gone addresses stand in no order, one of them twice.
fn cert(alloc: Global) -> Result<Cert, Memory> {
    let mut children = Addrs::new(alloc);
    children.push(3)?;
    let mut added = AddedList::new(alloc);
    added.push(Added {
        addr: 4,
        block: None,
        children,
    })?;
    added.push(Added {
        addr: 3,
        block: Some(7),
        children: Addrs::new(alloc),
    })?;
    let never = [Unkept { block: 9, addr: 2 }, Unkept { block: 9, addr: 1 }];
    Cert::build(alloc, 1, 2, 6, 5, added, &[2, 0, 2], &never)
}

/// The line of a certificate.
const ORDERED: &[u8] =
    b"\n{\"added\":[[3,0,7],[4,1,3]],\"base\":2,\"commit\":1,\"gone\":[0,2],\"head\":6,\"never\":[[9,1],[9,2]],\"root\":5}\n";

#[test]
fn orders_its_lists(rt: HostRuntime) -> Result<(), Fail> {
    let cert = cert(rt.alloc())?;
    let text = line(rt.alloc(), &cert)?;
    assert!(rt; text.bytes() == ORDERED);
    Ok(())
}

//! Rows of what a trace reaches.
use key_graph::{Trace, TraceEntry, reached};
use sdbt_base::Addrs;
use std::alloc::Global;
use std::test::Fail;

fn addrs(alloc: Global, items: &[u64]) -> Result<Addrs, Fail> {
    let mut found = Addrs::new(alloc);
    for item in items {
        found.push(*item)?;
    }
    Ok(found)
}

/// A trace with data records of so many blocks, at addresses from 1 on, and nodes at addresses,
/// with their children.
fn trace_of(alloc: Global, blocks: u64, nodes: &[(u64, &[u64])]) -> Result<Trace, Fail> {
    let mut trace = Trace::new(alloc);
    for block in 0..blocks {
        trace.set(block.saturating_add(1), TraceEntry::Block { block })?;
    }
    for (addr, children) in nodes {
        let children = addrs(alloc, children)?;
        trace.set(*addr, TraceEntry::Node { children })?;
    }
    Ok(trace)
}

// Whether just these addresses are reached, in this order; not so where there is no memory.
fn reaches(alloc: Global, trace: &Trace, root: u64, wanted: &[u64]) -> bool {
    match reached(alloc, trace, root) {
        Ok(found) => are(&found, wanted),
        Err(_) => false,
    }
}

fn are(found: &Addrs, wanted: &[u64]) -> bool {
    if found.len() != wanted.len() {
        return false;
    }
    for (i, addr) in wanted.iter().enumerate() {
        if i < found.len() && found.at(i) != addr {
            return false;
        }
    }
    true
}

#[test]
fn trace_reach(rt: HostRuntime) -> Result<(), Fail> {
    let alloc = rt.alloc();
    let mut trace = trace_of(alloc, 5, &[(6, &[1, 2]), (7, &[3, 4, 5]), (8, &[6, 7])])?;
    assert!(rt; reaches(alloc, &trace, 8, &[1, 2, 3, 4, 5, 6, 7, 8]));
    assert!(rt; reaches(alloc, &trace, 9, &[9]));
    assert!(rt; trace.set(7, TraceEntry::Lost).is_ok());
    assert!(rt; reaches(alloc, &trace, 8, &[1, 2, 6, 7, 8]));
    Ok(())
}

#[test]
fn traces_of_no_tree(rt: HostRuntime) -> Result<(), Fail> {
    let alloc = rt.alloc();
    let trace = trace_of(alloc, 0, &[(1, &[1, 9, 9]), (9, &[4, 1]), (4, &[u64::MAX])])?;
    assert!(rt; reaches(alloc, &trace, 1, &[1, 4, 9, u64::MAX]));
    assert!(rt; reaches(alloc, &trace, 4, &[4, u64::MAX]));
    Ok(())
}

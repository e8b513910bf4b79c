//! Look-ups and listings over the pages of a device: page reads, and forged trees.
use crate::pages::{FORGED, MIXED, SPLIT};
use crate::script::first_unlike;
use crate::walker::Walker;
use std::alloc::Global;
use std::test::Fail;

/// The place of the first line of a script of which something else comes over these pages, behind a cache of so many nodes, in either
/// version.
fn unlike(alloc: Global, pages: &str, capacity: usize, script: &str) -> Option<usize> {
    let first = unlike_in(alloc, 1, pages, capacity, script);
    let second = unlike_in(alloc, 2, pages, capacity, script);
    first.or(second)
}

/// The same, with nodes of a version.
fn unlike_in(
    alloc: Global,
    version: u8,
    pages: &str,
    capacity: usize,
    script: &str,
) -> Option<usize> {
    first_unlike(alloc, Walker::new(alloc, version, pages, capacity), script)
}

/// Look-ups, and all reads so far, with a cache that has room, and then the nodes that it keeps.
const KEPT: &str = "\
find 8 2 0: at 1\n\
reads: 2\n\
find 8 2 0: at 1\n\
reads: 2\n\
find 8 2 2: at 3\n\
reads: 3\n\
find 8 2 4: at 5\n\
reads: 3\n\
find 8 2 7: free\n\
reads: 3\n\
find 8 2 1: at 2\n\
reads: 3\n\
kept: [6, 8, 7]";

/// The same with no cache.
const READ: &str = "\
find 8 2 0: at 1\n\
reads: 2\n\
find 8 2 0: at 1\n\
reads: 4\n\
find 8 2 2: at 3\n\
reads: 6\n\
find 8 2 4: at 5\n\
reads: 8\n\
find 8 2 7: free\n\
reads: 10\n\
find 8 2 1: at 2\n\
reads: 12\n\
kept: []";

#[test]
fn page_reads(rt: HostRuntime) {
    assert_eq!(rt; unlike(rt.alloc(), SPLIT, 256, KEPT), None);
    assert_eq!(rt; unlike(rt.alloc(), SPLIT, 0, READ), None);
}

/// The blocks, each with the address of its data record, and the addresses of the nodes: of a tree, and of the empty leaf that
/// a new device has.
const LISTED: &str = "\
list 8 2: [0, 1, 1, 2, 2, 3, 3, 4, 4, 5]\n\
reads: 3\n\
nodes 8 2: [8, 6, 7]\n\
reads: 6\n\
list 0 1: []\n\
nodes 0 1: [0]";

#[test]
fn listed_entries(rt: HostRuntime) {
    assert_eq!(rt; unlike(rt.alloc(), SPLIT, 0, LISTED), None);
}

/// For each forged tree, by the page of its root node and its level: a block whose way comes to the place that does not fit, one
/// whose way does not, if there is one, and the listings; and then a block of the sound tree behind the same cache.
///
/// The first roots are a leaf, a data record, and a record of another address. The leaf that stands at two places fits at the first
/// one alone.
const WRONG: &str = "\
find 7 2 0: bad 7\n\
list 7 2: bad 7\n\
nodes 7 2: bad 7\n\
find 8 2 0: at 1\n\
find 1 2 0: bad 1\n\
list 1 2: bad 1\n\
nodes 1 2: bad 1\n\
find 8 2 0: at 1\n\
find 10 2 0: bad 10\n\
list 10 2: bad 10\n\
nodes 10 2: bad 10\n\
find 8 2 0: at 1\n\
find 9 2 2: bad 6\n\
find 9 2 0: at 1\n\
list 9 2: bad 6\n\
nodes 9 2: bad 6\n\
find 8 2 0: at 1\n\
find 11 2 2: bad 8\n\
find 11 2 1: at 2\n\
list 11 2: bad 8\n\
nodes 11 2: bad 8\n\
find 8 2 0: at 1\n\
find 12 2 0: bad 6\n\
list 12 2: bad 6\n\
nodes 12 2: bad 6\n\
find 8 2 0: at 1\n\
find 14 2 6: bad 13\n\
find 14 2 4: at 5\n\
list 14 2: bad 13\n\
nodes 14 2: bad 13\n\
find 8 2 0: at 1\n\
find 16 2 3: bad 15\n\
list 16 2: bad 15\n\
nodes 16 2: bad 15\n\
find 8 2 0: at 1\n\
find 17 2 0: bad 17\n\
list 17 2: bad 17\n\
nodes 17 2: bad 17\n\
find 8 2 0: at 1\n\
find 18 2 2: bad 18\n\
list 18 2: bad 18\n\
nodes 18 2: bad 18\n\
find 8 2 0: at 1\n\
find 19 2 2: bad 18\n\
find 19 2 0: at 1\n\
list 19 2: bad 18\n\
nodes 19 2: bad 18\n\
find 8 2 0: at 1\n\
find 20 1 0: bad 20\n\
list 20 1: bad 20\n\
nodes 20 1: bad 20\n\
find 8 2 0: at 1\n\
find 21 2 0: bad 21\n\
list 21 2: bad 21\n\
nodes 21 2: bad 21\n\
find 8 2 0: at 1\n\
find 22 2 2: bad 22\n\
list 22 2: bad 22\n\
nodes 22 2: bad 22\n\
find 8 2 0: at 1\n\
find 23 2 2: bad 7\n\
find 23 2 0: at 1\n\
list 23 2: bad 7\n\
nodes 23 2: bad 7\n\
find 8 2 0: at 1\n\
find 24 3 5: bad 7\n\
list 24 3: bad 7\n\
nodes 24 3: bad 7\n\
find 8 2 0: at 1";

#[test]
fn forged_trees(rt: HostRuntime) -> Result<(), Fail> {
    let pages = format!(in rt.alloc(); "{SPLIT}\n{FORGED}")?;
    assert_eq!(rt; unlike(rt.alloc(), pages.as_str(), 8, WRONG), None);
    Ok(())
}

/// Bounds that the lows cross, too few entries, too many below, and another key.
const OTHER: &str = "\
find 8 2 0: at 1\n\
try 2 2 4 8 1: bad 8\n\
find 8 2 0: at 1\n\
try 8 3 4 8 1: bad 8\n\
find 8 2 0: at 1\n\
try 8 2 2 8 2: bad 7\n\
find 8 2 0: at 1\n\
try 8 2 4 98 0: bad 8";

#[test]
fn wants_that_do_not_fit(rt: HostRuntime) {
    // Behind a cache that keeps nothing, and behind one that keeps the nodes of the sound tree.
    for capacity in [0, 8] {
        assert_eq!(rt; unlike(rt.alloc(), SPLIT, capacity, OTHER), None);
    }
}

/// A leaf of the other version below a root, a root of the other version, and one in the place of an inner node.
const OF_TWO_VERSIONS: &str = "\
find 8 2 0: at 1\n\
find 10 2 0: bad 9\n\
find 10 2 2: at 3\n\
list 10 2: bad 9\n\
nodes 10 2: bad 9\n\
find 8 2 0: at 1\n\
find 9 1 0: bad 9\n\
list 9 1: bad 9\n\
nodes 9 1: bad 9\n\
find 11 2 0: bad 11\n\
list 11 2: bad 11\n\
nodes 11 2: bad 11\n\
find 12 2 2: bad 12\n\
list 12 2: bad 12\n\
nodes 12 2: bad 12\n\
find 13 3 0: at 1\n\
find 13 3 5: bad 12\n\
find 8 2 0: at 1";

#[test]
fn nodes_of_the_other_version(rt: HostRuntime) -> Result<(), Fail> {
    let pages = format!(in rt.alloc(); "{SPLIT}\n{MIXED}")?;
    for capacity in [0, 8] {
        assert_eq!(rt;
            unlike(rt.alloc(), pages.as_str(), capacity, OF_TWO_VERSIONS),
            None
        );
    }
    Ok(())
}

/// A byte of a root node, of a leaf, and of the last page of them is another, and then again what it was; and then two pages stand in
/// the place of each other.
const CHANGED: &str = "\
find 8 2 0: at 1\n\
change 8 32: done\n\
find 8 2 0: bad 8\n\
find 8 2 4: bad 8\n\
list 8 2: bad 8\n\
nodes 8 2: bad 8\n\
change 8 32: done\n\
change 6 4127: done\n\
find 8 2 0: bad 6\n\
find 8 2 4: at 5\n\
list 8 2: bad 6\n\
nodes 8 2: bad 6\n\
change 6 4127: done\n\
change 7 64: done\n\
find 8 2 0: at 1\n\
find 8 2 4: bad 7\n\
list 8 2: bad 7\n\
change 7 64: done\n\
list 8 2: [0, 1, 1, 2, 2, 3, 3, 4, 4, 5]\n\
nodes 8 2: [8, 6, 7]\n\
swap 6 7: done\n\
find 8 2 0: bad 6\n\
find 8 2 4: bad 7\n\
list 8 2: bad 6\n\
swap 7 6: done\n\
swap 8 0: done\n\
find 8 2 0: bad 8\n\
swap 8 0: done\n\
find 8 2 0: at 1";

#[test]
fn changed_pages(rt: HostRuntime) {
    assert_eq!(rt; unlike_in(rt.alloc(), 2, SPLIT, 8, CHANGED), None);
}

//! Updates of trees in memory and on the medium, beside an ordered map too.
use crate::pages::{SPLIT, fixture_of};
use crate::pair::Pair;
use crate::script::first_unlike;
use std::alloc::Global;
use std::test::Fail;

/// The place of the first line of a script of which something else comes in a tree of order 4 over 8 blocks, on these pages, whose
/// last one is the root node, of this level: in version 1, or else in version 2.
fn unlike(alloc: Global, pages: &str, level: u8, script: &str) -> Option<usize> {
    let plain = first_unlike(alloc, fixture_of(alloc, 1, pages, 4, 8, level), script);
    if plain.is_some() {
        return plain;
    }
    first_unlike(alloc, fixture_of(alloc, 2, pages, 4, 8, level), script)
}

/// Behind each outcome stand the level of the tree, its nodes in memory, how many addresses are gone, and how many pages are never
/// committed. Of leaves 6 and 7 below the root 8 the right one lends; then leaves 9 and 10 below the root 11 merge, and the root
/// gives way.
const TWIGS: &str = "\
put 0: at 1, 1 1 1 0\n\
put 1: at 2, 1 1 1 0\n\
put 2: at 3, 1 1 1 0\n\
put 3: at 4, 1 1 1 0\n\
put 4: at 5, 2 3 1 0\n\
gone: [0], 2 3 1 0\n\
commit: done\n\
take 0: true, 2 3 4 0\n\
gone: [8, 6, 7, 1], 2 3 4 0\n\
commit: done\n\
take 1: true, 1 1 4 0\n\
gone: [11, 9, 10, 2], 1 1 4 0\n\
commit: done\n\
where: at 12, 1 0 0 0\n\
find 0: free, 1 0 0 0\n\
find 1: free, 1 0 0 0\n\
find 2: at 3, 1 0 0 0\n\
find 3: at 4, 1 0 0 0\n\
find 4: at 5, 1 0 0 0\n\
find 5: free, 1 0 0 0\n\
find 6: free, 1 0 0 0\n\
find 7: free, 1 0 0 0";

#[test]
fn twig_updates(rt: HostRuntime) {
    assert_eq!(rt; unlike(rt.alloc(), "1:", 1, TWIGS), None);
}

/// The root, a leaf and the data record that is replaced are gone, and then records are never committed.
const REPLACED: &str = "\
find 0: at 1, 2 0 0 0\n\
find 1: at 2, 2 0 0 0\n\
find 2: at 3, 2 0 0 0\n\
find 3: at 4, 2 0 0 0\n\
find 4: at 5, 2 0 0 0\n\
take 5: false, 2 0 0 0\n\
find 5: free, 2 0 0 0\n\
put 4: at 9, 2 2 3 0\n\
put 4: at 10, 2 2 3 1\n\
find 4: at 10, 2 2 3 1\n\
take 4: true, 2 2 3 2\n\
find 4: free, 2 2 3 2\n\
take 4: false, 2 2 3 2\n\
find 0: at 1, 2 2 3 2\n\
gone: [8, 7, 5], 2 2 3 2";

#[test]
fn replaced_and_removed(rt: HostRuntime) {
    assert_eq!(rt; unlike(rt.alloc(), SPLIT, 2, REPLACED), None);
}

/// The root, at address 5, names one leaf at two places. It has blocks 0 to 2, and fits at the first place alone.
const TWICE: &str = "\
1:\n\
1\n\
2\n\
3\n\
1: 0@1 1@2 2@3\n\
2: 0@4 3@4";

/// The way to block 0 is sound.
const ONCE: &str = "\
ready 3: bad 4, 2 0 0 0\n\
find 7: bad 4, 2 0 0 0\n\
where: at 5, 2 0 0 0\n\
find 0: at 1, 2 0 0 0\n\
put 0: at 6, 2 2 3 0\n\
ready 3: bad 4, 2 2 3 0\n\
find 3: bad 4, 2 2 3 0\n\
find 0: at 6, 2 2 3 0\n\
find 1: at 2, 2 2 3 0\n\
gone: [5, 4, 1], 2 2 3 0";

#[test]
fn forged_pages(rt: HostRuntime) {
    assert_eq!(rt; unlike(rt.alloc(), TWICE, 2, ONCE), None);
}

/// The same of a root, at address 3, that names these two pages, from blocks 0 and 3 on, at addresses 1 and 2.
fn unlike_beside(
    alloc: Global,
    left: &str,
    right: &str,
    script: &str,
) -> Result<Option<usize>, Fail> {
    let pages = format!(in alloc; "0\n{left}\n{right}\n2: 0@1 3@2")?;
    Ok(unlike(alloc, pages.as_str(), 2, script))
}

/// A removal needs the right page, and an insertion alone needs no neighbour.
const RIGHT: &str = "\
ready 0: bad 2, 2 0 0 0\n\
find 0: at 0, 2 0 0 0\n\
ready 1: bad 2, 2 0 0 0\n\
find 1: at 0, 2 0 0 0\n\
ready 2: false, 2 0 0 0\n\
where: at 3, 2 0 0 0";

/// A removal needs the left page.
const LEFT: &str = "\
ready 3: bad 1, 2 0 0 0\n\
find 3: at 0, 2 0 0 0\n\
ready 4: bad 1, 2 0 0 0\n\
find 4: at 0, 2 0 0 0\n\
ready 7: false, 2 0 0 0\n\
where: at 3, 2 0 0 0";

#[test]
fn forged_neighbours(rt: HostRuntime) -> Result<(), Fail> {
    let alloc = rt.alloc();
    // A block past the bound, one entry alone, one entry too many, and a node of another level.
    for page in [
        "1: 2@0 3@0",
        "1: 3@0",
        "1: 3@0 4@0 5@0 6@0 7@0",
        "2: 3@0 5@0",
    ] {
        let unlike = unlike_beside(alloc, "1: 0@0 1@0", page, RIGHT)?;
        assert_eq!(rt; unlike, None, "{page}");
    }
    for page in [
        "1: 0@0 3@0",
        "1: 1@0",
        "1: 0@0 1@0 2@0 3@0 4@0",
        "2: 0@0 2@0",
    ] {
        let unlike = unlike_beside(alloc, page, "1: 3@0 4@0", LEFT)?;
        assert_eq!(rt; unlike, None, "{page}");
    }
    let sound = "ready 0: true, 2 0 0 0\nready 4: true, 2 0 0 0";
    let unlike = unlike_beside(alloc, "1: 0@0 1@0", "1: 3@0 4@0", sound)?;
    assert_eq!(rt; unlike, None);
    Ok(())
}

/// After the two updates the leaf has blocks 1 and 2.
const BESIDE: &str = "\
put 2: at 4, 2 2 2 0\n\
take 0: true, 2 2 3 0\n\
ready 1: bad 2, 2 2 3 0\n\
ready 2: bad 2, 2 2 3 0\n\
find 0: free, 2 2 3 0\n\
find 1: at 0, 2 2 3 0\n\
find 2: at 4, 2 2 3 0\n\
gone: [3, 1, 0], 2 2 3 0";

#[test]
fn forged_beside_nodes_in_memory(rt: HostRuntime) -> Result<(), Fail> {
    let unlike = unlike_beside(rt.alloc(), "1: 0@0 1@0", "1: 3@0", BESIDE)?;
    assert_eq!(rt; unlike, None);
    Ok(())
}

/// The root, at address 5, is at level 3 and names a node at 3, over leaves 1 and 2 of two and three blocks, and beside it a page at
/// 4 that is of another level.
const LEVELS: &str = "\
0\n\
1: 0@0 1@0\n\
1: 2@0 3@0 4@0\n\
2: 0@1 2@2\n\
1: 5@0 6@0\n\
3: 0@3 5@4";

/// A leaf lends, and so the node above it needs no neighbour; then none lends, and it does.
const MERGED: &str = "\
take 0: true, 3 4 5 0\n\
ready 1: bad 4, 3 4 5 0\n\
gone: [5, 3, 1, 2, 0], 3 4 5 0";

#[test]
fn forged_beside_a_node_that_merges(rt: HostRuntime) {
    assert_eq!(rt; unlike(rt.alloc(), LEVELS, 3, MERGED), None);
}

/// So many random updates of a tree beside an ordered map, of which so many of eight are insertions.
fn updated(alloc: Global, mut pair: Pair, puts: u64, count: u64) -> Option<Pair> {
    for _ in 0..count {
        pair.update(alloc, puts)?;
    }
    Some(pair)
}

/// Five times so many, with ever fewer insertions; a commit after each time, where that is asked for.
fn risen_and_fallen(alloc: Global, pair: Pair, count: u64, is_committed: bool) -> Option<Pair> {
    let mut pair = pair;
    for puts in [7, 6, 2, 1, 0] {
        pair = updated(alloc, pair, puts, count)?;
        if is_committed {
            pair = pair.commit(alloc)?;
        }
    }
    Some(pair)
}

/// Five times so many random updates of each of so many trees. Each other tree is committed in between, and the third and fourth of
/// each four are of version 2, where the order can be.
fn agrees(alloc: Global, order: u16, blocks: u64, count: u64, trees: u64) -> Option<()> {
    for seed in 0..trees {
        let version = if order <= 48 && seed % 4 >= 2 { 2 } else { 1 };
        let pair = Pair::new(alloc, version, order, blocks, seed)?;
        let mut pair = risen_and_fallen(alloc, pair, count, seed % 2 == 0)?;
        pair.compare_all()?;
    }
    Some(())
}

#[test]
fn random_updates(rt: HostRuntime) {
    // An order, blocks, updates at a time, and trees.
    let cases: [(u16, u64, u64, u64); 3] = [(4, 40, 40, 34), (6, 40, 40, 34), (64, 200, 128, 10)];
    for (order, blocks, count, trees) in cases {
        assert!(rt;
            agrees(rt.alloc(), order, blocks, count, trees).is_some(),
            "order {order}"
        );
    }
}

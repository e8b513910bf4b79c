//! The order in which nodes are cached, and that there is memory where there is memory.
use arrayvec::ArrayVec;
use node_cache::{NodeCache, Put};
use node_codec::NodeBody;
use sdbt_base::Key;
use std::alloc::Global;
use std::test::Fail;

/// A node that tells its level.
fn node(level: u8) -> NodeBody {
    NodeBody {
        level,
        version: 1,
        entries: ArrayVec::new(),
    }
}

fn key(byte: u8) -> Key {
    Key::from_bytes([byte; 32])
}

/// The level of the node that is cached, or 0.
fn level_at(cache: &mut NodeCache, addr: u64, byte: u8) -> u8 {
    match cache.get(addr, &key(byte)) {
        Some(node) => node.level,
        None => 0,
    }
}

/// Puts a node of a level, and answers what came of it.
fn put(cache: &mut NodeCache, addr: u64, byte: u8, level: u8) -> Put {
    cache.put(addr, &key(byte), &node(level))
}

/// The addresses of the cached nodes, in their order, and zeros behind them. `None` where there is no memory.
fn order(alloc: Global, cache: &NodeCache) -> Option<[u64; 4]> {
    let cached = cache.addresses(alloc).ok()?;
    let mut found = [0; 4];
    for (i, place) in found.iter_mut().enumerate() {
        if i < cached.len() {
            *place = *cached.at(i);
        }
    }
    Some(found)
}

/// A cache of four nodes, in which those of these addresses were put.
fn cache_of(alloc: Global, addrs: &[u64]) -> Option<NodeCache> {
    let mut cache = NodeCache::new(alloc, 4).ok()?;
    for addr in addrs {
        if put(&mut cache, *addr, 1, 1) != Put::Stored {
            return None;
        }
    }
    Some(cache)
}

/// What is found of nodes under their key and another one, and the order behind each look.
fn looked(alloc: Global, cache: &mut NodeCache) -> ([u8; 2], [Option<[u64; 4]>; 2]) {
    let found = level_at(cache, 6, 1);
    let first = order(alloc, cache);
    let other = level_at(cache, 7, 2);
    ([found, other], [first, order(alloc, cache)])
}

/// What is found of a node under its former key and its own, which is put under another key, and the order then.
fn put_again(alloc: Global, cache: &mut NodeCache) -> Option<([u8; 2], Option<[u64; 4]>)> {
    if put(cache, 7, 2, 2) != Put::Stored {
        return None;
    }
    let levels = [level_at(cache, 7, 1), level_at(cache, 7, 2)];
    Some((levels, order(alloc, cache)))
}

#[test]
fn cache_order(rt: HostRuntime) -> Result<(), Fail> {
    let mut cache = cache_of(rt.alloc(), &[6, 7, 8]).ok_or("no cache")?;
    let same = Some([6, 8, 7, 0]);
    assert!(rt; looked(rt.alloc(), &mut cache) == ([1, 0], [same, same]));
    assert!(rt; put_again(rt.alloc(), &mut cache) == Some(([0, 2], Some([7, 6, 8, 0]))));
    Ok(())
}

/// The order of a full cache, of one in which nodes were forgotten, and once one was put there.
fn forgotten(alloc: Global, cache: &mut NodeCache) -> [Option<[u64; 4]>; 3] {
    let full = order(alloc, cache);
    cache.forget(9);
    cache.forget(8);
    let less = order(alloc, cache);
    if put(cache, u64::MAX, 1, 4) != Put::Stored {
        return [full, less, None];
    }
    [full, less, order(alloc, cache)]
}

/// The order once nodes that are gone are forgotten, and once one was sealed in their place.
fn sealed(alloc: Global, cache: &mut NodeCache) -> [Option<[u64; 4]>; 2] {
    cache.forget_all(&[10, 6, 8]);
    let less = order(alloc, cache);
    let is_stored = cache.put_node(11, &key(3), 2, 1, &[]) == Put::Stored;
    if is_stored && level_at(cache, 11, 3) == 2 {
        [less, order(alloc, cache)]
    } else {
        [less, None]
    }
}

#[test]
fn cache_room(rt: HostRuntime) -> Result<(), Fail> {
    // More nodes than there is room for; then a place that was given up is filled before a node goes.
    let mut cache = cache_of(rt.alloc(), &[8, 6, 7, 9, 10]).ok_or("no cache")?;
    let orders = forgotten(rt.alloc(), &mut cache);
    assert!(rt;
        orders
            == [
                Some([10, 9, 7, 6]),
                Some([10, 7, 6, 0]),
                Some([u64::MAX, 10, 7, 6])
            ]
    );
    let orders = sealed(rt.alloc(), &mut cache);
    assert!(rt; orders == [Some([u64::MAX, 7, 0, 0]), Some([11, u64::MAX, 7, 0])]);
    Ok(())
}

#[test]
fn no_capacity(rt: HostRuntime) -> Result<(), Fail> {
    let mut cache = NodeCache::new(rt.alloc(), 0)?;
    assert!(rt; put(&mut cache, 6, 1, 1) == Put::Off);
    assert!(rt; level_at(&mut cache, 6, 1) == 0);
    assert!(rt; order(rt.alloc(), &cache) == Some([0; 4]));
    Ok(())
}

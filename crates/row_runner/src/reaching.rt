//! Which pages keys reach, found by trying each key on each page, and which pages a tree has.
ghost use Rattle.std.specs.Prelude.{◌+◌, ◌≤◌};

use medium_trace::Pages;
use node_codec::{Body, NodeBody, decode};
use root_codec::Root;
use sdbt_base::{Key, Memory, RECORD};
use seal_record::{stamped, unseal};
use std::alloc::Global;

/// How many keys or places a search takes up at most.
const MOST: usize = 65_536;

/// Which of the pages chains of opening from a key reach: each key that one of them yields is tried on every page.
pub(crate) fn reached_from(alloc: Global, pages: &Pages, key: Key) -> Result<Vec<bool>, Memory> {
    let mut reached = vec![in alloc; false; pages.len()]?;
    let mut found = vec![in alloc; key; 1]?;
    try_keys(pages, &mut reached, &mut found)?;
    Ok(reached)
}

/// Tries the keys of a list, to which those are added that they yield.
fn try_keys(pages: &Pages, reached: &mut [bool], found: &mut Vec<Key>) -> Result<(), Memory> {
    for next in 0..MOST {
        let Some(key) = found.get(next) else {
            break;
        };
        let key = *key;
        try_key(pages, &key, reached, found)?;
    }
    Ok(())
}

/// Tries a key on every page that was not reached yet.
fn try_key(
    pages: &Pages,
    key: &Key,
    reached: &mut [bool],
    found: &mut Vec<Key>,
) -> Result<(), Memory> {
    for (addr, is_reached) in reached.iter_mut().enumerate() {
        if !*is_reached && addr < pages.len() && stamped(key, addr as u64, pages.at(addr)) {
            *is_reached = true;
            add_yielded(key, pages.at(addr), found)?;
        }
    }
    Ok(())
}

/// Adds the keys that a key yields on a page that it opens: those of the first entries, by the page's count, as many as there is room
/// for. Of kind 2 that are 85 at most, and of kind 3, where a digest stands behind each key, 51.
fn add_yielded(key: &Key, page: &[u8; RECORD], found: &mut Vec<Key>) -> Result<(), Memory> {
    let mut body = [0; RECORD];
    unseal(key, page, &mut body);
    let count = u16::from_be_bytes([body[18], body[19]]);
    match body[16] {
        2 => add_short(&body, count.min(85), found),
        3 => add_long(&body, count.min(51), found),
        _ => Ok(()),
    }
}

/// Adds the keys of so many entries of kind 2.
fn add_short(body: &[u8; RECORD], count: u16, found: &mut Vec<Key>) -> Result<(), Memory>
    requires { count ≤ 85 }
{
    for entry in 0..count as usize {
        found.push(key_in(body, 48 * entry + 48))?;
    }
    Ok(())
}

/// Adds the keys of so many entries of kind 3.
fn add_long(body: &[u8; RECORD], count: u16, found: &mut Vec<Key>) -> Result<(), Memory>
    requires { count ≤ 51 }
{
    for entry in 0..count as usize {
        found.push(key_in(body, 80 * entry + 48))?;
    }
    Ok(())
}

/// The key that stands at a place of a body.
fn key_in(body: &[u8; RECORD], from: usize) -> Key
    requires { from + 32 ≤ RECORD }
{
    let mut bytes = [0; 32];
    bytes.copy_from_slice(&body[from..from + 32]);
    Key::from_bytes(bytes)
}

/// A place of a tree. Data records are of level 0.
#[derive(Clone, Copy)]
struct Place {
    addr: u64,
    key: Key,
    level: u8,
}

/// Which of the pages the tree of a root record has: its nodes, and the data records that its leaves name.
pub(crate) fn tree_of(alloc: Global, pages: &Pages, root: &Root) -> Result<Vec<bool>, Memory> {
    let mut tree = vec![in alloc; false; pages.len()]?;
    let mut places = Vec::new(alloc);
    places.push(Place {
        addr: root.addr,
        key: root.key,
        level: root.level,
    })?;
    for next in 0..MOST {
        let Some(place) = places.get(next) else {
            break;
        };
        let place = *place;
        if let Some(is_there) = tree.get_mut(place.addr as usize) {
            *is_there = true;
        }
        add_children(pages, &place, &mut places)?;
    }
    Ok(tree)
}

/// Adds the places that a node names.
fn add_children(pages: &Pages, place: &Place, places: &mut Vec<Place>) -> Result<(), Memory> {
    let addr = place.addr as usize;
    if place.level == 0 || addr >= pages.len() {
        return Ok(());
    }
    let mut body = [0; RECORD];
    unseal(&place.key, pages.at(addr), &mut body);
    match decode(&body, place.addr) {
        Some(Body::Node { node }) => add_entries(&node, place.level - 1, places),
        _ => Ok(()),
    }
}

/// Adds the places of a node's entries, which are of this level.
fn add_entries(node: &NodeBody, level: u8, places: &mut Vec<Place>) -> Result<(), Memory> {
    for entry in node.entries.iter() {
        places.push(Place {
            addr: entry.addr,
            key: entry.key,
            level,
        })?;
    }
    Ok(())
}

/// The numbers of the keys in a list that open a page at its address.
pub(crate) fn openers(
    alloc: Global,
    keys: &[Key],
    pages: &Pages,
    addr: usize,
) -> Result<Vec<usize>, Memory> {
    let mut found = Vec::new(alloc);
    if addr < pages.len() {
        for (number, key) in keys.iter().enumerate() {
            if stamped(key, addr as u64, pages.at(addr)) {
                found.push(number)?;
            }
        }
    }
    Ok(found)
}

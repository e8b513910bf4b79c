use arrayvec::ArrayVec;
use node_codec::{
    Body, Entry, decode, decode_block, decode_node, encode_block, encode_node, fits_node,
};
use sdbt_base::Key;
use std::test::Fail;

/// The head of the data record of block 3 at address 3, and the content that it is given.
const HEAD: [u8; 32] = [
    0x53, 0x44, 0x42, 0x54, 0x52, 0x45, 0x43, 0x31, 0, 0, 0, 0, 0, 0, 0, 3, 1, 0, 0, 0, 0, 0, 0, 0,
    0, 0, 0, 0, 0, 0, 0, 3,
];

const CONTENT: [u8; 2] = [0x68, 0x69];

/// What one entry of a node is written as: low 5, address 2, a key of bytes 11.
const ENTRY: [u8; 48] = [
    0, 0, 0, 0, 0, 0, 0, 5, 0, 0, 0, 0, 0, 0, 0, 2, 0x11, 0x11, 0x11, 0x11, 0x11, 0x11, 0x11, 0x11,
    0x11, 0x11, 0x11, 0x11, 0x11, 0x11, 0x11, 0x11, 0x11, 0x11, 0x11, 0x11, 0x11, 0x11, 0x11, 0x11,
    0x11, 0x11, 0x11, 0x11, 0x11, 0x11, 0x11, 0x11,
];

fn entry(low: u64, addr: u64) -> Entry {
    Entry {
        low,
        addr,
        key: Key::from_bytes([0x11; 32]),
    }
}

/// The data record of block 3 at address 3.
fn block() -> [u8; 4128] {
    let mut body = [0xff; 4128];
    encode_block(3, 3, &CONTENT, &mut body);
    body
}

/// A node at address 7.
fn node_of(level: u8, entries: &[Entry]) -> Option<[u8; 4128]> {
    if !fits_node(7, level, 1, entries) {
        return None;
    }
    let mut body = [0xff; 4128];
    encode_node(7, level, 1, entries, &mut body);
    Some(body)
}

/// What a record at an address is.
fn read(body: &[u8; 4128], addr: u64) -> Option<Body> {
    decode(body, addr)
}

/// The block whose data record this is at an address.
fn block_at(body: &[u8; 4128], addr: u64) -> Option<u64> {
    decode_block(body, addr)
}

/// The level of the node that this is at an address, and its entries in the place of others.
fn node_at(body: &[u8; 4128], addr: u64) -> (Option<u8>, ArrayVec<Entry, 64>) {
    let mut entries = ArrayVec::new();
    entries.push(entry(1, 1));
    let level = decode_node(body, addr, 1, &mut entries);
    (level, entries)
}

fn are_zeros(bytes: &[u8]) -> bool {
    bytes.iter().all(|byte| *byte == 0)
}

/// What a record at an address is with one byte replaced.
fn read_with(body: [u8; 4128], addr: u64, at: usize, byte: u8) -> Option<Body> {
    let mut body = body;
    if at < 4128 {
        body[at] = byte;
    }
    decode(&body, addr)
}

/// A node at address 7 of two entries, with one byte replaced.
fn decode_node_with(at: usize, byte: u8) -> Option<Body> {
    read_with(node_of(1, &[entry(5, 2), entry(9, 6)])?, 7, at, byte)
}

/// A data record of block 3 at address 3, with one byte replaced.
fn decode_block_with(at: usize, byte: u8) -> Option<Body> {
    read_with(block(), 3, at, byte)
}

#[test]
fn worked_block(rt: HostRuntime) {
    let body = block();
    assert!(rt; body.starts_with(&HEAD));
    assert!(rt; body[32..34] == CONTENT[..]);
    assert!(rt; are_zeros(&body[34..]));
    assert!(rt; matches!(read(&body, 3), Some(Body::Block { block: 3 })));
    assert!(rt; read(&body, 4).is_none());
    assert!(rt; block_at(&body, 3) == Some(3));
    assert!(rt; block_at(&body, 4) == None);
}

/// Whether these are the bytes of a node of level 20 with one entry at address 7.
fn is_read(body: &[u8; 4128]) -> bool {
    match read(body, 7) {
        Some(Body::Node { node }) => {
            node.level == 20 && node.entries.as_slice() == [entry(5, 2)].as_slice()
        }
        _ => false,
    }
}

#[test]
fn node(rt: HostRuntime) -> Result<(), Fail> {
    let body = node_of(20, &[entry(5, 2)]).ok_or("no node")?;
    assert!(rt; body[16..20] == [2, 20, 0, 1][..]);
    assert!(rt; body[32..80] == ENTRY[..]);
    assert!(rt; are_zeros(&body[80..]));
    assert!(rt; is_read(&body));
    assert!(rt; block_at(&body, 7) == None);
    let (level, entries) = node_at(&body, 7);
    assert!(rt; level == Some(20));
    assert!(rt; entries.as_slice() == [entry(5, 2)].as_slice());
    let (level, entries) = node_at(&body, 6);
    assert!(rt; level == None && entries.is_empty());
    Ok(())
}

#[test]
fn refused_blocks(rt: HostRuntime) {
    // Stamp, address, kind, level, count, zeros and block.
    let cases: [(usize, u8); 9] = [
        (0, 0),
        (15, 2),
        (16, 0),
        (16, 2),
        (17, 1),
        (19, 1),
        (20, 1),
        (23, 1),
        (29, 0x10),
    ];
    assert!(rt; decode_block_with(4127, 9).is_some());
    for (at, byte) in cases {
        assert!(rt; decode_block_with(at, byte).is_none(), "{at} {byte}");
    }
}

#[test]
fn refused_nodes(rt: HostRuntime) {
    // Kind, level, count, zeros, block, lows, children, and the bytes behind the entries.
    let cases: [(usize, u8); 15] = [
        (8, 1),
        (16, 1),
        (16, 3),
        (17, 0),
        (17, 21),
        (19, 1),
        (19, 65),
        (22, 1),
        (31, 1),
        (39, 9),
        (39, 10),
        (85, 0x10),
        (95, 7),
        (128, 1),
        (4127, 1),
    ];
    assert!(rt; decode_node_with(79, 9).is_some());
    for (at, byte) in cases {
        assert!(rt; decode_node_with(at, byte).is_none(), "{at} {byte}");
    }
}

/// The same entry with a digest of bytes 22.
fn with_digest(entry: Entry) -> Entry {
    Entry {
        key: entry.key.with_digest([0x22; 32]),
        ..entry
    }
}

/// 49 entries with digests, of the blocks 0 to 48.
fn many() -> [Entry; 49] {
    let mut entries = [with_digest(entry(0, 2)); 49];
    for (low, entry) in entries.iter_mut().enumerate() {
        entry.low = low as u64;
    }
    entries
}

/// A leaf of the second version at address 7.
fn second_of(entries: &[Entry]) -> Option<[u8; 4128]> {
    if !fits_node(7, 1, 2, entries) {
        return None;
    }
    let mut body = [0xff; 4128];
    encode_node(7, 1, 2, entries, &mut body);
    Some(body)
}

/// Whether these are the bytes of a leaf of the second version with these entries at address 7.
fn is_second(body: &[u8; 4128], entries: &[Entry]) -> bool {
    match read(body, 7) {
        Some(Body::Node { node }) => {
            node.version == 2 && node.level == 1 && node.entries.as_slice() == entries
        }
        _ => false,
    }
}

/// The level of the node of the second version that this is at address 7.
fn second_at(body: &[u8; 4128]) -> Option<u8> {
    let mut entries = ArrayVec::new();
    decode_node(body, 7, 2, &mut entries)
}

#[test]
fn node_of_the_second_version(rt: HostRuntime) -> Result<(), Fail> {
    let plain = entry(5, 2);
    let entry = with_digest(plain);
    assert!(rt; !fits_node(7, 1, 2, &[plain]));
    assert!(rt; !fits_node(7, 1, 1, &[entry]));
    for version in [0, 3] {
        assert!(rt; !fits_node(7, 1, version, &[plain]) && !fits_node(7, 1, version, &[entry]));
    }
    let body = second_of(&[entry]).ok_or("no node")?;
    assert!(rt; body[16..20] == [3, 1, 0, 1][..]);
    assert!(rt; body[32..80] == ENTRY[..]);
    assert!(rt; body[80..112] == [0x22; 32][..]);
    assert!(rt; are_zeros(&body[112..]));
    assert!(rt; is_second(&body, &[entry]));
    // It is no node of the first version, and one of that is none of the second.
    let (level, entries) = node_at(&body, 7);
    assert!(rt; level == None && entries.is_empty());
    let body = node_of(1, &[plain]).ok_or("no node")?;
    assert!(rt; second_at(&body) == None);
    Ok(())
}

/// Puts the entry of block 48 behind 48 entries.
fn put_one_more(body: &mut [u8; 4128]) {
    let mut entry = [0; 80];
    entry.copy_from_slice(&body[3792..3872]);
    entry[7] = 48;
    body[3872..3952].copy_from_slice(&entry);
}

#[test]
fn counts_of_the_second_version(rt: HostRuntime) -> Result<(), Fail> {
    let entries = many();
    assert!(rt; second_of(&entries).is_none());
    let mut body = second_of(&entries[..48]).ok_or("no node")?;
    assert!(rt; are_zeros(&body[3872..]));
    assert!(rt; is_second(&body, &entries[..48]));
    assert!(rt; second_at(&body) == Some(1));
    // The next entry stands where it would, and no count reaches it.
    put_one_more(&mut body);
    assert!(rt; second_at(&body) == None, "bytes behind the entries");
    for count in [49, 50, 51, 64, 65, 200] {
        body[19] = count;
        assert!(rt;
            read(&body, 7).is_none() && second_at(&body) == None,
            "{count}"
        );
    }
    Ok(())
}

/// A leaf of the second version at address 7 of two entries, with one byte replaced.
fn decode_second_with(at: usize, byte: u8) -> Option<Body> {
    let entries = [with_digest(entry(5, 2)), with_digest(entry(9, 6))];
    read_with(second_of(&entries)?, 7, at, byte)
}

#[test]
fn refused_nodes_of_the_second_version(rt: HostRuntime) {
    // Kind, level, count, zeros, block, lows, children, and the bytes behind the entries.
    let cases: [(usize, u8); 15] = [
        (8, 1),
        (16, 1),
        (16, 2),
        (16, 4),
        (17, 0),
        (17, 21),
        (19, 1),
        (18, 1),
        (22, 1),
        (31, 1),
        (39, 9),
        (117, 0x10),
        (127, 7),
        (192, 1),
        (4127, 1),
    ];
    for at in [79, 111, 191] {
        assert!(rt; decode_second_with(at, 9).is_some(), "{at}");
    }
    for (at, byte) in cases {
        assert!(rt; decode_second_with(at, byte).is_none(), "{at} {byte}");
    }
}

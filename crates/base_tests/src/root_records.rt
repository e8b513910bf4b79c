use root_codec::{Root, decode_root, encode_root};
use sdbt_base::Key;
use std::test::*;

/// The root record of a device of 8 blocks and order 4, after its first commit of one block.
const RECORD: [u8; 128] = [
    0x53, 0x44, 0x42, 0x54, 0x52, 0x4f, 0x4f, 0x54, 0, 1, 0, 4, 1, 0, 0, 0, 0, 0, 0, 0, 0, 0, 0, 8,
    0, 0, 0, 0, 0, 0, 0, 1, 0, 0, 0, 0, 0, 0, 0, 2, 0x11, 0x11, 0x11, 0x11, 0x11, 0x11, 0x11, 0x11,
    0x11, 0x11, 0x11, 0x11, 0x11, 0x11, 0x11, 0x11, 0x11, 0x11, 0x11, 0x11, 0x11, 0x11, 0x11, 0x11,
    0x11, 0x11, 0x11, 0x11, 0x11, 0x11, 0x11, 0x11, 0, 0, 0, 0, 0, 0, 0, 1, 0, 0, 0, 0, 0, 0, 0, 3,
    0, 0, 0, 0, 0, 0, 0, 0, 0, 0, 0, 0, 0, 0, 0, 0, 0, 0, 0, 0, 0, 0, 0, 0, 0, 0, 0, 0, 0, 0, 0, 0,
    0, 0, 0, 0, 0, 0, 0, 0,
];

fn root() -> Root {
    Root {
        version: 1,
        order: 4,
        level: 1,
        blocks: 8,
        commit: 1,
        addr: 2,
        key: Key::from_bytes([0x11; 32]),
        mapped: 1,
        head: 3,
    }
}

/// Decodes the record with one byte replaced.
fn decode_with(at: usize, byte: u8) -> Option<Root> {
    let mut bytes = RECORD;
    if at < 128 {
        bytes[at] = byte;
    }
    decode_root(&bytes)
}

#[test]
fn worked_record(rt: HostRuntime) {
    let root = root();
    assert!(rt; root.is_in_range());
    let mut bytes = [0xff; 128];
    encode_root(&root, &mut bytes);
    assert_eq!(rt; bytes, RECORD);
    assert!(rt; decode_root(&RECORD) == Some(root));
    assert!(rt; decode_with(87, 4) == Some(Root { head: 4, ..root }));
}

/// Where a byte of the worked record is replaced, and by what: each makes one field wrong. The first are the stamp and the version,
/// and all of 88 to 127 are below.
const WRONG: [(usize, u8); 21] = [
    (0, 0x73),
    (7, 0),
    (8, 1),
    (9, 0),
    (9, 3),
    (11, 2),
    (11, 5),
    (11, 66),
    (12, 0),
    (12, 21),
    (13, 1),
    (15, 1),
    (23, 0),
    (20, 1),
    (31, 3),
    (39, 3),
    (79, 9),
    (72, 1),
    (83, 2),
    (87, 2),
    (87, 0),
];

/// The first of these bytes with which the record is one still, by its place; or `None`.
fn first_read(bytes: &[(usize, u8)]) -> Option<usize> {
    for (at, byte) in bytes {
        if decode_with(*at, *byte).is_some() {
            return Some(*at);
        }
    }
    None
}

/// The first byte behind the fields that can be another one, or `None`: where the second version has a digest, the first has
/// zeros, and behind them as well.
fn first_free() -> Option<usize> {
    for at in 88..128 {
        if decode_with(at, 1).is_some() {
            return Some(at);
        }
    }
    None
}

#[test]
fn refused(rt: HostRuntime) {
    assert!(rt; first_read(&WRONG) == None);
    assert!(rt; first_free() == None);
    assert!(rt;
        decode_with(9, 2) == Some(with_digest([0; 32])),
        "another version"
    );
}

/// The same root in the second version, with this digest.
fn with_digest(digest: [u8; 32]) -> Root {
    Root {
        version: 2,
        key: root().key.with_digest(digest),
        ..root()
    }
}

/// The record of the second version with this digest.
fn second_record() -> Option<[u8; 128]> {
    let second = with_digest([0x22; 32]);
    if !second.is_in_range() {
        return None;
    }
    let mut bytes = [0xff; 128];
    encode_root(&second, &mut bytes);
    Some(bytes)
}

/// Decodes the record of the second version with one byte replaced.
fn decode_second_with(at: usize, byte: u8) -> Option<Root> {
    let mut bytes = second_record()?;
    if at < 128 {
        bytes[at] = byte;
    }
    decode_root(&bytes)
}

#[test]
fn of_the_second_version(rt: HostRuntime) -> Result<(), Fail> {
    let bytes = second_record().ok_or("no root record")?;
    assert!(rt; bytes[..8] == RECORD[..8]);
    assert!(rt; bytes[8..10] == [0, 2][..]);
    assert!(rt; bytes[10..88] == RECORD[10..88]);
    assert!(rt; bytes[88..120] == [0x22; 32][..]);
    assert!(rt; bytes[120..] == [0; 8][..]);
    Ok(())
}

/// The first of these bytes with which the record of the second version is one still, by its place; or `None`.
fn first_read_second(bytes: &[(usize, u8)]) -> Option<usize> {
    for (at, byte) in bytes {
        if decode_second_with(*at, *byte).is_some() {
            return Some(*at);
        }
    }
    None
}

/// The first byte behind the digest that can be another one, or `None`.
fn first_free_second() -> Option<usize> {
    for at in 120..128 {
        if decode_second_with(at, 1).is_some() {
            return Some(at);
        }
    }
    None
}

#[test]
fn refused_in_the_second_version(rt: HostRuntime) {
    assert!(rt; decode_second_with(128, 0) == Some(with_digest([0x22; 32])));
    assert!(rt; first_read_second(&WRONG) == None);
    assert!(rt; first_free_second() == None);
    assert!(rt;
        decode_second_with(9, 1).is_none(),
        "a digest in the first version"
    );
}

/// Whether the record with another byte of its digest is that of another root, which differs in its key alone.
fn is_of_another(at: usize) -> bool {
    let second = with_digest([0x22; 32]);
    match decode_second_with(at, 9) {
        Some(other) => {
            other != second
                && Root {
                    key: second.key,
                    ..other
                } == second
        }
        None => false,
    }
}

#[test]
fn digests_of_other_roots(rt: HostRuntime) {
    for at in 88..120 {
        assert!(rt; is_of_another(at), "{at}");
    }
}

/// Whether the record of the first version, and that of the second one, are those of a root of another order.
fn are_of_order(order: u8) -> (bool, bool) {
    let first = Root {
        order: u16::from(order),
        ..root()
    };
    let second = Root {
        order: u16::from(order),
        ..with_digest([0x22; 32])
    };
    (
        decode_with(11, order) == Some(first),
        decode_second_with(11, order) == Some(second),
    )
}

#[test]
fn orders_of_the_versions(rt: HostRuntime) {
    for order in [4, 46, 48] {
        assert!(rt; are_of_order(order) == (true, true), "{order}");
    }
    for order in [50, 52, 54, 56, 58, 60, 62, 64] {
        assert!(rt; are_of_order(order) == (true, false), "{order}");
        assert!(rt; decode_second_with(11, order).is_none(), "{order}");
    }
}

/// Whether a root is in range with this version.
fn is_in_range(root: Root, version: u8) -> bool {
    Root { version, ..root }.is_in_range()
}

#[test]
fn keys_of_the_versions(rt: HostRuntime) {
    // A key has a digest exactly in version 2, and there are no others.
    let second = with_digest([0x22; 32]);
    for version in [0, 2, 3, 255] {
        assert!(rt; !is_in_range(root(), version), "{version}");
    }
    for version in [0, 1, 3, 255] {
        assert!(rt; !is_in_range(second, version), "{version}");
    }
    assert!(rt; is_in_range(root(), 1) && is_in_range(second, 2));
}

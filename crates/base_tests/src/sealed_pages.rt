//! Pages whose bytes were worked out outside: the keystream by another ChaCha20.
use sdbt_base::{Key, KeySlot, Memory, RECORD};
use seal_record::{front_wanted, seal, stamped, stream_front, unseal};
use std::alloc::Global;
use std::test::Fail;

const ZEROS: [u8; 32] = [0; 32];

const COUNTING: [u8; 32] = [
    0, 1, 2, 3, 4, 5, 6, 7, 8, 9, 10, 11, 12, 13, 14, 15, 16, 17, 18, 19, 20, 21, 22, 23, 24, 25,
    26, 27, 28, 29, 30, 31,
];

// The data record of block 3 at address 3 with content 6869: its first 40 bytes. All others are
// zeros.
const BODY: &[u8; 40] =
    b"SDBTREC1\0\0\0\0\0\0\0\x03\x01\0\0\0\0\0\0\0\0\0\0\0\0\0\0\x03hi\0\0\0\0\0\0";

// That body under the key of 32 zeros.
const PAGE: &[u8; 40] =
    b"\x25\xfc\xa2\xf9\xf2\xb4\x7e\xa1\x40\x5d\x6a\xe5\x53\x86\xbd\x2b\xbc\xd2\x19\xb8\xa0\x8d\xed\x1a\xa8\x36\xef\xcc\x8b\x77\x0d\xc4\xb2\x28\x59\x7c\x51\x57\x48\x8d";

// The keystream under that key.
const ZERO_STREAM: &[u8; 40] =
    b"\x76\xb8\xe0\xad\xa0\xf1\x3d\x90\x40\x5d\x6a\xe5\x53\x86\xbd\x28\xbd\xd2\x19\xb8\xa0\x8d\xed\x1a\xa8\x36\xef\xcc\x8b\x77\x0d\xc7\xda\x41\x59\x7c\x51\x57\x48\x8d";

// The end of the keystream under that key, and of the one under the bytes 0 to 31.
const ZERO_END: &[u8; 8] = b"\x29\xf8\x2b\x4f\x5d\x12\xe7\x4e";

const COUNTING_END: &[u8; 8] = b"\x99\x8e\xca\xcf\x67\x3c\x37\x77";

/// A body, sealed under a key of these bytes, which comes along.
fn sealed(
    alloc: Global,
    bytes: [u8; 32],
    body: &[u8; RECORD],
) -> Result<([u8; RECORD], Key), Memory> {
    let mut page = [0; RECORD];
    let mut slot = KeySlot::new(alloc)?;
    slot.put(bytes);
    let key = seal(&mut slot, body, &mut page);
    Ok((page, key))
}

/// The worked body.
fn body() -> [u8; RECORD] {
    let mut body = [0; RECORD];
    body[..40].copy_from_slice(BODY);
    body
}

/// What a page is under a key.
fn unsealed(key: &Key, page: &[u8; RECORD]) -> [u8; RECORD] {
    let mut back = [0; RECORD];
    unseal(key, page, &mut back);
    back
}

/// Whether a page is a record of an address under a key, at once and in two parts.
fn opens(bytes: [u8; 32], addr: u64, page: &[u8; RECORD]) -> (bool, bool) {
    let key = Key::from_bytes(bytes);
    let fits = stream_front(&key) == front_wanted(addr, page);
    (stamped(&key, addr, page), fits)
}

#[test]
fn seals_and_unseals_the_worked_page(rt: HostRuntime) -> Result<(), Fail> {
    let (page, key) = sealed(rt.alloc(), ZEROS, &body())?;
    assert!(rt; key == Key::from_bytes(ZEROS));
    assert!(rt; page.starts_with(PAGE));
    assert!(rt; page.ends_with(ZERO_END));
    assert!(rt; unsealed(&key, &page) == body());
    assert!(rt; opens(ZEROS, 3, &page) == (true, true));
    for (bytes, addr) in [(ZEROS, 2), (ZEROS, 3 << 56), (COUNTING, 3)] {
        assert!(rt; opens(bytes, addr, &page) == (false, false), "at {addr}");
    }
    Ok(())
}

#[test]
fn seals_the_worked_page_under_another_key(rt: HostRuntime) -> Result<(), Fail> {
    let (page, key) = sealed(rt.alloc(), COUNTING, &body())?;
    assert!(rt; key == Key::from_bytes(COUNTING));
    assert!(rt; page.ends_with(COUNTING_END));
    assert!(rt; opens(COUNTING, 3, &page) == (true, true));
    Ok(())
}

#[test]
fn seals_zeros_to_the_keystream(rt: HostRuntime) -> Result<(), Fail> {
    let (page, key) = sealed(rt.alloc(), ZEROS, &[0; RECORD])?;
    assert!(rt; page.starts_with(ZERO_STREAM));
    assert!(rt; ZERO_STREAM.starts_with(&stream_front(&key)));
    Ok(())
}

//! Digests of pages.
use page_digest::{digest_of, fits_digest};
use sdbt_base::{Key, RECORD};

/// The SHA-256 of a page whose bytes count up to 250, again and again, as another program has it.
const DIGEST: [u8; 32] = [
    0xe8, 0x73, 0x3b, 0xc7, 0xda, 0xed, 0x85, 0x66, 0x49, 0x78, 0x23, 0x36, 0xc5, 0x38, 0xdc, 0x20,
    0xae, 0x23, 0x9d, 0x17, 0xaf, 0xed, 0x5f, 0x20, 0xde, 0x4b, 0x54, 0x51, 0xd5, 0x0d, 0x14, 0x80,
];

fn page() -> [u8; RECORD] {
    let mut page = [0; RECORD];
    for (at, byte) in page.iter_mut().enumerate() {
        *byte = (at % 251) as u8;
    }
    page
}

/// Whether a page fits a key without a digest, and one with the worked one.
fn fits(page: &[u8; RECORD]) -> (bool, bool) {
    let plain = Key::from_bytes([7; 32]);
    (
        fits_digest(&plain, page),
        fits_digest(&plain.with_digest(DIGEST), page),
    )
}

#[test]
fn worked_digest(rt: HostRuntime) {
    let mut page = page();
    assert!(rt; digest_of(&page) == DIGEST);
    assert!(rt; fits(&page) == (true, true));
    page[4127] ^= 1;
    assert!(rt; fits(&page) == (true, false));
    page[4127] ^= 1;
    assert!(rt; fits(&page) == (true, true));
}

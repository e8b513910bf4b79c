//! Keys that were worked out outside, by another ChaCha20, and a tape whose source fails and ends.
use crate::memory_objects::draws;
use key_tape::{SeedTape, SourceTape};
use sdbt_base::MemSource;
use std::test::Fail;

// The seed 0102030405060708, and the first two keys of its tape.
const SEED: u64 = 0x0102_0304_0506_0708;

const FIRST: &[u8; 32] =
    b"\x4b\xc8\xf9\x8f\x3e\xfa\xd1\xd0\xd0\x6b\xc8\x13\x80\x15\xb1\xb0\x4e\x4e\xa8\x52\x3f\x50\x3e\x5c\x20\x35\x9b\x39\x14\xaa\x33\x84";

const SECOND: &[u8; 32] =
    b"\x5b\xba\x76\x88\x3b\x36\x13\x07\x34\xc6\xca\x2c\x01\xee\xaf\xd1\x4e\x6b\xad\x0d\x0c\x19\x7c\xc0\xf9\x60\x50\x5f\x44\xc3\x78\x0c";

#[test]
fn draws_the_keys_of_a_seed(rt: HostRuntime) -> Result<(), Fail> {
    let mut tape = SeedTape::new(SEED);
    let [first, second, _, _] = draws(rt.alloc(), &mut tape)?;
    assert!(rt; first == Some(*FIRST) && second == Some(*SECOND));
    Ok(())
}

#[test]
fn draws_the_bytes_of_a_source(rt: HostRuntime) -> Result<(), Fail> {
    // 70 bytes, seven at a time: the first key takes 5 takes. The eighth take fails, in the second
    // key.
    let mut bytes = [1; 70];
    bytes[32..].fill(2);
    let source = MemSource::new(rt.alloc(), &bytes, 7, &[8])?;
    let mut tape = SourceTape::new(source);
    assert!(rt; draws(rt.alloc(), &mut tape) == Ok([Some([1; 32]), None, None, None]));
    Ok(())
}

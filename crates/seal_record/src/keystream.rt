//! The keystream of a key, and bytes with it mixed in.
ghost use Rattle.std.specs.Prelude.{◌≡◌, ◌≤◌, ◌%◌, length, take, bit_xor};
ghost use Rattle.std.specs.Simd.Lanes.{zip2};
ghost use Rattle.seal_record.specs.Keystream.{stream};
ghost use Rattle.seal_record.specs.Sealing.{masked};

use chacha_words::fill_words;
use rand_chacha::ChaCha20Rng;
use rand_core::SeedableRng;
use sdbt_base::{Key, RECORD};

/// The bytes of the keystream that lie under a stamp.
pub(crate) const FRONT: usize = 16;

/// Writes `bytes` with the keystream of `key` mixed in. Both slices are one record long.
pub(crate) fn mask(key: &Key, bytes: &[u8], out: &mut [u8])
    requires bytes { length bytes.now ≡ RECORD }
    requires out { length out.old ≡ RECORD }
    ensures { out.new ≡ masked key.now bytes.now }
{
    fill_with_stream(key, out);
    xor_into(out, bytes);
}

/// The first bytes of `page` with the keystream of `key` mixed in, with no more of it made.
pub(crate) fn unmasked_front(key: &Key, page: &[u8]) -> [u8; FRONT]
    requires { length page.now ≡ RECORD }
    ensures { result ≡ take FRONT (masked key.now page.now) }
{
    let mut front = [0; FRONT];
    fill_with_stream(key, &mut front);
    xor_into(&mut front, &page[..FRONT]);
    front
}

/// The first 16 bytes of the keystream of a key, with no more of it made. A key opens a page at an address exactly where they
/// are what [`front_wanted`](crate::front_wanted) says of that page there.
pub fn stream_front(key: &Key) -> [u8; FRONT]
    ensures { result ≡ take FRONT (stream key.now) }
{
    let mut front = [0; FRONT];
    fill_with_stream(key, &mut front);
    front
}

/// Fills `out` with the front of the keystream of `key`, and makes no more of it.
fn fill_with_stream(key: &Key, out: &mut [u8])
    requires short { length out.old ≤ RECORD }
    requires whole { length out.old % 4 ≡ 0 }
    ensures { out.new ≡ take (length out.old) (stream key.now) }
{
    let mut rng = ChaCha20Rng::from_seed(key.bytes());
    fill_words(&mut rng, out);
}

/// Mixes as many bytes into `out`, place by place.
pub(crate) fn xor_into(out: &mut [u8], bytes: &[u8])
    requires { length bytes.now ≡ length out.old }
    ensures { out.new ≡ zip2 bit_xor bytes.now out.old }
{
    for (i, slot) in out.iter_mut().enumerate() {
        *slot ^= bytes[i];
    }
}

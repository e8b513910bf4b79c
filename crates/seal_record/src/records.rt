//! Sealing a record, unsealing it, and the test whether a key opens a page.
ghost use Rattle.std.specs.Prelude.{◌≡◌, ◌↔◌, ℕ, List, [], length, take, IsTrue};
ghost use Rattle.sdbt_base.specs.Bytes.{IsBytes};
ghost use Rattle.seal_record.specs.Keystream.{stream};
ghost use Rattle.seal_record.specs.Sealing.{masked, stamp_of, Opens};

use crate::keystream::{FRONT, mask, unmasked_front, xor_into};
use sdbt_base::{Key, KeySlot, RECORD};

/// Seals a record under the key that a place holds, which has sealed nothing yet, and answers that key, now used. Nothing of it is
/// left in that place.
///
/// `body` and `out` are 4,128 bytes; `out` becomes the page for the medium, which is `body` XOR the
/// keystream of the key. It takes no memory and refuses nothing.
pub fn seal(key: &mut KeySlot, body: &[u8], out: &mut [u8]) -> Key
    requires key { length key.old ≡ 32 }
    requires body { length body.now ≡ RECORD }
    requires out { length out.old ≡ RECORD }
    ensures page { out.new ≡ masked key.old body.now }
    ensures used { result ≡ key.old }
    ensures plain { length result ≡ 32 }
    ensures whole { IsBytes RECORD out.new }
    ensures wiped { key.new ≡ [] }
{
    let used = key.spend();
    mask(&used, body, out);
    used
}

/// Unseals a page under a key: `out` becomes `page` XOR the keystream of the key.
///
/// `page` and `out` are 4,128 bytes. Of a page that `seal` made under this key it gives the body back; of
/// any other page it gives bytes without meaning. It takes no memory and refuses nothing.
pub fn unseal(key: &Key, page: &[u8], out: &mut [u8])
    requires page { length page.now ≡ RECORD }
    requires out { length out.old ≡ RECORD }
    ensures body { out.new ≡ masked key.now page.now }
    ensures whole { IsBytes RECORD out.new }
{
    mask(key, page, out);
}

/// Whether a key opens a page at an address: whether the first 16 bytes of `page` XOR the keystream are the
/// letters `SDBTREC1` and `addr`, most significant byte first.
///
/// `page` is 4,128 bytes. Nothing else of it is asked, so a page that opens need not be a record.
pub fn stamped(key: &Key, addr: u64, page: &[u8]) -> bool
    requires { length page.now ≡ RECORD }
    ensures { IsTrue result ↔ Opens key.now addr page.now }
{
    unmasked_front(key, page) == stamp_at(addr)
}

/// The first 16 bytes that a key's keystream must have for the key to open `page` at an address: the front of the page XOR
/// the stamp of that address.
///
/// `page` is 4,128 bytes. So one look-up of a [`stream_front`](crate::stream_front) among these finds all pages that a key opens.
pub fn front_wanted(addr: u64, page: &[u8]) -> [u8; FRONT]
    requires { length page.now ≡ RECORD }
    ensures { (key : List ℕ) → (result ≡ take FRONT (stream key)) ↔ Opens key addr page.now }
{
    let mut front = stamp_at(addr);
    xor_into(&mut front, &page[..FRONT]);
    front
}

/// The stamp of a record at `addr`.
#[tactic(auto, unfolding(crate::specs::Sealing::stamp_of))]
fn stamp_at(addr: u64) -> [u8; FRONT]
    ensures { result ≡ stamp_of addr }
{
    let mut stamp = [0; FRONT];
    stamp[..8].copy_from_slice(b"SDBTREC1");
    stamp[8..].copy_from_slice(&addr.to_be_bytes());
    stamp
}

//! The digest of a page: the SHA-256 of its 4,128 bytes, as they stand on the medium.
#![tactic(auto)]

ghost use Rattle.std.specs.Prelude.{◌≡◌, ◌<◌, ◌↔◌, IsTrue, All, ℕ, List, length};
ghost use Rattle.sdbt_base.specs.Bytes.{IsBytes};
ghost use Rattle.page_digest.specs.Digest.{digest, FitsDigest};

use sdbt_base::Key;
use sha2::{Digest, Sha256};

/// The digest of a page.
pub fn digest_of(page: &[u8]) -> [u8; 32]
    requires { length page.now ≡ 4128 }
    ensures value { result ≡ digest page.now }
    ensures bytes { IsBytes 32 result }
{
    let digest: [u8; 32] = Sha256::digest(page);
    are_bytes(&digest);
    digest
}

/// A fact: each is below 256.
fn are_bytes(bytes: &[u8])
    ensures { All (λ b. b < 256) bytes.now }
{}

/// Whether a page has the digest that a key names, where it names one.
pub fn fits_digest(key: &Key, page: &[u8]) -> bool
    requires { length page.now ≡ 4128 }
    ensures { IsTrue result ↔ FitsDigest key.now page.now }
{
    match key.digest() {
        None => true,
        Some(want) => want == digest_of(page),
    }
}

/// A law: each digest has 32 bytes.
pub fn one_size()
    ensures { (page : List ℕ) → length (digest page) ≡ 32 }
{}

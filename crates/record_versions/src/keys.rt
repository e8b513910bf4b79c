//! Keys as they stand in records.
ghost use Rattle.std.specs.Prelude.{◌≡◌, ◌<◌, ◌++◌, All, length};
ghost use Rattle.sdbt_base.specs.Bytes.{IsBytes};
ghost use Rattle.sdbt_base.specs.Keys.{IsKeyOf, digest_in, version_of};
ghost use Rattle.record_versions.specs.Versions.{digest_field};

use crate::versions::has_size;
use sdbt_base::Key;

/// The key of 32 bytes, without a digest.
pub fn plain_key(bytes: &[u8]) -> Key
    requires { length bytes.now ≡ 32 }
    ensures value { result ≡ bytes.now }
    ensures bytes { IsBytes 32 result }
{
    let mut own = [0; 32];
    own.copy_from_slice(bytes);
    Key::from_bytes(own)
}

/// The key of 32 bytes, with the digest of as many.
pub fn key_with_digest(bytes: &[u8], digest: &[u8]) -> Key
    requires bytes { length bytes.now ≡ 32 }
    requires digest { length digest.now ≡ 32 }
    ensures value { result ≡ bytes.now ++ digest.now }
    ensures bytes { IsBytes 64 result }
{
    let key = plain_key(bytes);
    are_bytes(digest);
    let mut behind = [0; 32];
    behind.copy_from_slice(digest);
    key.with_digest(behind)
}

/// Writes a key, and behind it the digest where it has one, over as many bytes.
pub fn put_key(key: &Key, out: &mut [u8])
    requires { length out.old ≡ length key.now }
    ensures { out.new ≡ key.now }
{
    has_size(key);
    let (front, back) = out.split_at_mut(32);
    front.copy_from_slice(&key.bytes());
    put_behind(key, back);
}

/// Writes the digest of a key over as many bytes. There are none where it has none.
fn put_behind(key: &Key, out: &mut [u8])
    requires { length out.old ≡ length (digest_in key.now) }
    ensures { out.new ≡ digest_in key.now }
{
    match key.digest() {
        Some(digest) => out.copy_from_slice(&digest),
        None => {}
    }
}

/// Writes the digest of a key over 32 bytes, or zeros where it has none.
pub fn put_digest(key: &Key, out: &mut [u8])
    requires { length out.old ≡ 32 }
    ensures { out.new ≡ digest_field key.now }
{
    let field = field_of(key);
    out.copy_from_slice(&field);
}

fn field_of(key: &Key) -> [u8; 32]
    ensures { result ≡ digest_field key.now }
{
    has_size(key);
    match key.digest() {
        Some(digest) => digest,
        None => [0; 32],
    }
}

/// A fact: a key has as many bytes as those of its version.
pub fn is_key(key: &Key)
    ensures { IsKeyOf (version_of key.now) key.now }
{
    has_size(key);
    let bytes = key.bytes();
    are_bytes(&bytes);
    match key.digest() {
        Some(digest) => are_bytes(&digest),
        None => {}
    }
}

/// A fact: each is below 256.
fn are_bytes(bytes: &[u8])
    ensures { All (λ b. b < 256) bytes.now }
{}

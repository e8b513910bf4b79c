ghost use Rattle.std.specs.Prelude.{◌≡◌, ◌≢◌, ◌↔◌, ℕ, [], ◌∷◌, IsTrue, IfSome, IfNone, Some, length};
ghost use Rattle.std.specs.Int.{w16, to_be_bytes};
ghost use Rattle.sdbt_base.specs.Keys.{IsKeyOf, bare, digest_in};
ghost use Rattle.record_versions.specs.Versions.{IsVersion};
ghost use Rattle.root_codec.specs.RootRecord.{FitsRoot, root_bytes};
ghost use Rattle.root_codec.specs.Fields.{FitsVersion, IsFramed, Spells, part};
ghost use Rattle.root_codec.specs.declared.root.Root.{Root};

use crate::encoding::STAMP;
use crate::root::Root;
use record_fields::{are_zero, u16_of, u64_of};
use record_versions::{key_with_digest, plain_key};
use sdbt_base::Key;

/// The root whose root record the 128 bytes are, or `None` where they are that of no root.
pub fn decode_root(bytes: &[u8]) -> Option<Root>
    requires { length bytes.now ≡ 128 }
    ensures found { IfSome result (λ root. FitsRoot root × (bytes.now ≡ root_bytes root)) }
    ensures key { IfSome result (λ root. IsKeyOf root.version root.key) }
    ensures none { IfNone result ((root : Root) → FitsRoot root → bytes.now ≢ root_bytes root) }
    // What was encoded is decoded to the same root.
    ensures again { (root : Root) → FitsRoot root → bytes.now ≡ root_bytes root → result ≡ Some root }
{
    match version_in(&bytes[8..10]) {
        Some(version) => root_of(bytes, version),
        None => None,
    }
}

/// The same, where the version is this one.
fn root_of(bytes: &[u8], version: u8) -> Option<Root>
    requires size { length bytes.now ≡ 128 }
    requires version { IsVersion version }
    requires spelled { part 8 2 bytes.now ≡ to_be_bytes w16 version }
    ensures found { IfSome result (λ root. FitsRoot root × (bytes.now ≡ root_bytes root)) }
    ensures key { IfSome result (λ root. IsKeyOf root.version root.key) }
    ensures none { IfNone result ((root : Root) → FitsRoot root → bytes.now ≢ root_bytes root) }
    ensures again { (root : Root) → FitsRoot root → bytes.now ≡ root_bytes root → result ≡ Some root }
{
    let root = fields_of(bytes, version);
    if is_framed(bytes, root.version) && root.is_in_range() {
        Some(root)
    } else {
        None
    }
}

/// The version that two bytes spell, or `None` where there is no such version.
fn version_in(field: &[u8]) -> Option<u8>
    requires { length field.now ≡ 2 }
    ensures found { IfSome result (λ version. IsVersion version × (field.now ≡ to_be_bytes w16 version)) }
    ensures none { IfNone result ((version : ℕ) → IsVersion version → field.now ≢ to_be_bytes w16 version) }
{
    match u16_of(field) {
        1 => Some(1),
        2 => Some(2),
        _ => None,
    }
}

/// Whether the stamp and the bytes that are to be zero are those of a root record of the version.
fn is_framed(bytes: &[u8], version: u8) -> bool
    requires { length bytes.now ≡ 128 }
    ensures { IsTrue result ↔ IsFramed version bytes.now }
{
    bytes.starts_with(&STAMP)
        && are_zero(&bytes[13..16])
        && fits_version(version, &bytes[88..120])
        && are_zero(&bytes[120..128])
}

/// Whether the bytes are zero, where the version has no digests.
fn fits_version(version: u8, field: &[u8]) -> bool
    requires { length field.now ≡ 32 }
    ensures { IsTrue result ↔ FitsVersion version field.now }
{
    version != 1 || are_zero(field)
}

/// The root of the version that stands in the other bytes.
fn fields_of(bytes: &[u8], version: u8) -> Root
    requires size { length bytes.now ≡ 128 }
    requires version { IsVersion version }
    requires spelled { part 8 2 bytes.now ≡ to_be_bytes w16 version }
    ensures { Spells bytes.now result }
{
    Root {
        version,
        order: u16_of(&bytes[10..12]),
        level: level_of(&bytes[12..13]),
        blocks: u64_of(&bytes[16..24]),
        commit: u64_of(&bytes[24..32]),
        addr: u64_of(&bytes[32..40]),
        key: key_of(&bytes[40..72], &bytes[88..120], version),
        mapped: u64_of(&bytes[72..80]),
        head: u64_of(&bytes[80..88]),
    }
}

fn level_of(field: &[u8]) -> u8
    requires { length field.now ≡ 1 }
    ensures { field.now ≡ result ∷ [] }
{
    field[0]
}

/// The key of these bytes, with the digest in version 2.
fn key_of(field: &[u8], digest: &[u8], version: u8) -> Key
    requires field { length field.now ≡ 32 }
    requires digest { length digest.now ≡ 32 }
    ensures key { IsKeyOf version result }
    ensures own { field.now ≡ bare result }
    ensures digest { version ≡ 2 → digest.now ≡ digest_in result }
{
    if version == 2 {
        key_with_digest(field, digest)
    } else {
        plain_key(field)
    }
}

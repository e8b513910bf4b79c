ghost use Rattle.std.specs.Prelude.{◌≡◌, ◌⊎◌, ◌↔◌, IsTrue, length};
ghost use Rattle.sdbt_base.specs.Keys.{entry_size, key_size, most_entries, version_of};
ghost use Rattle.record_versions.specs.Versions.{IsVersion};

use sdbt_base::{Key, MAX_ORDER};

/// Whether there is such a version.
pub fn is_version(version: u8) -> bool
    ensures { IsTrue result ↔ IsVersion version }
{
    version == 1 || version == 2
}

/// The version of the node whose page a key seals: 2 where the key has a digest, else 1.
pub fn version_of(key: &Key) -> u8
    ensures value { result ≡ version_of key.now }
    ensures known { IsVersion result }
    ensures size { length key.now ≡ key_size result }
{
    has_size(key);
    if key.is_plain() { 1 } else { 2 }
}

/// Whether a key has as many bytes as those of the version: a digest exactly in version 2.
pub fn is_of_version(key: &Key, version: u8) -> bool
    ensures { IsTrue result ↔ (length key.now ≡ key_size version) }
{
    has_size(key);
    if version == 2 {
        !key.is_plain()
    } else {
        key.is_plain()
    }
}

/// A fact: a key has 32 bytes, and as many more where it has a digest.
pub(crate) fn has_size(key: &Key)
    ensures { (length key.now ≡ 32) ⊎ (length key.now ≡ 64) }
{
    let _bytes = key.bytes();
}

/// How many entries a node of the version has at most.
pub fn most_entries(version: u8) -> u16
    ensures { result ≡ most_entries version }
{
    if version == 2 { 48 } else { MAX_ORDER }
}

/// How many bytes an entry of the version has.
pub fn entry_size(version: u8) -> usize
    ensures { result ≡ entry_size version }
{
    if version == 2 { 80 } else { 48 }
}

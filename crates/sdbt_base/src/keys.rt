//! Keys: 32 bytes that seal one record.
ghost use Rattle.std.specs.Prelude.{◌≡◌, ◌⊎◌, ◌↔◌, ◌++◌, ℕ, List, IsTrue, length, nat_eq};
ghost use Rattle.std.specs.Cmp.{partial_equiv_from_equiv};
ghost use Rattle.std.specs.Cmp.Lexicographic.{pointwise, nat_list_eq_equiv};
ghost use Rattle.sdbt_base.specs.Keys.{bare, digest_of};

use std::marker::Model;

/// A key of 32 bytes, with the digest of the page that it seals where that is known. It has no `Debug` and no `Display`, so that
/// none is printed by accident.
#[derive(Clone, Copy, Default)]
pub struct Key {
    bytes: [u8; 32],
    digest: Option<[u8; 32]>,
}

impl Model for Key {
    ghost use Rattle.std.specs.Prelude.{ℕ, List};
    ghost use Rattle.sdbt_base.specs.Keys.{key_with, bare, digest_of, AreOfKey, bare_with, digest_with};

    ghost Value = { List ℕ };

    ghost view = { λ k. key_with k.bytes k.digest };

    ghost invariant = { λ k. AreOfKey k.bytes k.digest };

    ghost inverse = { λ key. record {
      bytes = bare key;
      digest = digest_of key;
    } };

    ghost inverse_ok = { λ k h i. record {
      bytes = bare_with k.bytes k.digest h i;
      digest = digest_with k.bytes k.digest h i;
    } };
}

impl Key {
    /// The key of these bytes, without a digest.
    pub fn from_bytes(bytes: [u8; 32]) -> Key
        ensures { result ≡ bytes }
    {
        Key {
            bytes,
            digest: None,
        }
    }

    /// Its bytes.
    pub fn bytes(&self) -> [u8; 32]
        ensures value { result ≡ bare self.now }
        ensures plain { length self.now ≡ 32 → result ≡ self.now }
        ensures len { (length self.now ≡ 32) ⊎ (length self.now ≡ 64) }
    {
        self.bytes
    }

    /// The key without its digest.
    pub fn bare(&self) -> Key
        ensures { result ≡ bare self.now }
    {
        Key::from_bytes(self.bytes)
    }

    /// The key with this digest.
    pub fn with_digest(self, digest: [u8; 32]) -> Key
        ensures { result ≡ bare self ++ digest }
    {
        let bytes = self.bytes;
        Key {
            bytes,
            digest: Some(digest),
        }
    }

    /// Whether it has no digest.
    pub fn is_plain(&self) -> bool
        ensures { IsTrue result ↔ length self.now ≡ 32 }
    {
        self.digest.is_none()
    }

    /// The digest of the page, where it is known.
    pub fn digest(&self) -> Option<[u8; 32]>
        ensures { result ≡ digest_of self.now }
    {
        self.digest
    }
}

impl PartialEq for Key {
    ghost eq = { pointwise nat_eq };

    ghost laws = { partial_equiv_from_equiv nat_list_eq_equiv };

    fn eq(&self, other: &Key) -> bool {
        self.bytes == other.bytes && self.digest == other.digest
    }
}

impl Eq for Key {
    ghost laws = { nat_list_eq_equiv };
}

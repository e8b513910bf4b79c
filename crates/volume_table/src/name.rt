//! Names of volumes.
ghost use Rattle.std.specs.Prelude.{◌≡◌, ◌↔◌, ◌≤◌, ◌-◌, ◌++◌, ℕ, List, Some, IfSome, IfNone, IsTrue, length, take, drop, replicate};
ghost use Rattle.volume_table.specs.Names.{IsName, name_bytes, IsNameByte, unpadded};

use record_fields::are_zero;
use std::marker::Model;

/// The most bytes of a name.
const LONGEST: usize = 47;

/// The name of a volume: 1 to 47 bytes of `a` to `z`, `0` to `9`, `_` and `-`.
#[derive(Clone, Copy, Default)]
pub struct Name {
    /// The name, and zeros behind it.
    bytes: [u8; LONGEST],
    len: u8,
}

impl Model for Name {
    ghost Value = { List ℕ };

    ghost view = { λ n. take n.len n.bytes };

    ghost invariant = { λ n. (n.len ≤ 47) × (length n.bytes ≡ 47) × (drop n.len n.bytes ≡ replicate (47 - n.len) 0) };

    ghost inverse = { λ name. record { bytes = name ++ replicate (47 - length name) 0; len = length name } };

    ghost inverse_ok = { λ a h. let known = unpadded a.bytes a.len h.0 h.1 h.2 in
        λ i. record { bytes = known.0 i; len = known.1 i } };
}

/// Whether a text can be a name.
pub fn is_name(text: &[u8]) -> bool
    ensures { IsTrue result ↔ IsName text.now }
{
    !text.is_empty() && text.len() <= LONGEST && text.iter().all(|byte| is_name_byte(*byte))
}

fn is_name_byte(byte: u8) -> bool
    ensures { IsTrue result ↔ IsNameByte byte }
{
    matches!(byte, b'a'..=b'z' | b'0'..=b'9' | b'_' | b'-')
}

impl Name {
    /// The name of this text, or `None` where it can't be one.
    pub fn new(text: &[u8]) -> Option<Name>
        ensures found { IfSome result (λ name. (name ≡ text.now) × IsName text.now) }
        ensures none { IfNone result (IsName text.now → ⊥) }
    {
        if !is_name(text) {
            return None;
        }
        let mut bytes = [0; LONGEST];
        bytes[..text.len()].copy_from_slice(text);
        Some(Name {
            bytes,
            len: text.len() as u8,
        })
    }

    /// The text of the name.
    pub fn text(&self) -> &[u8]
        ensures { result.now ≡ self.now }
    {
        &self.bytes[..self.len as usize]
    }

    /// Whether another is the same.
    pub fn is_same(&self, other: &Name) -> bool
        ensures { IsTrue result ↔ (self.now ≡ other.now) }
    {
        self.text() == other.text()
    }

    /// Writes its length and the name over the 48 bytes of `out`, and zeros behind it.
    pub(crate) fn put(&self, out: &mut [u8])
        requires { length out.old ≡ 48 }
        ensures spelled { out.new ≡ name_bytes self.now }
        ensures most { length self.now ≤ 47 }
    {
        let (field, rest) = out.split_at_mut(1);
        field.copy_from_slice(&[self.len]);
        rest.copy_from_slice(&self.bytes);
    }

    /// The name whose 48 bytes these are.
    pub(crate) fn of_field(field: &[u8]) -> Option<Name>
        requires { length field.now ≡ 48 }
        ensures found { IfSome result (λ name. IsName name × (field.now ≡ name_bytes name)) }
        ensures only { (name : List ℕ) → IsName name → field.now ≡ name_bytes name → result ≡ Some name }
    {
        let (_, rest) = field.split_at(1);
        let (text, zeros) = rest.split_at_checked(field[0] as usize)?;
        if are_zero(zeros) {
            Name::new(text)
        } else {
            None
        }
    }
}

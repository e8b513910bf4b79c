//! A volume, and its entry.
ghost use Rattle.std.specs.Prelude.{◌≡◌, ◌↔◌, ◌≤◌, ◌<◌, ◌^◌, ◌+◌, Some, IfSome, IsTrue, length};
ghost use Rattle.volume_table.specs.Tables.{volume_bytes, FitsEntry, IsInside, EndsBefore, Leads};
ghost use Rattle.volume_table.specs.declared.volume.Volume.{Volume};

use crate::name::Name;
use record_fields::u64_of;

/// A range of blocks with a name.
#[derive(Clone, Copy, Default)]
pub struct Volume {
    /// Its name.
    pub name: Name,
    /// Its first block: 1 or above.
    pub start: u64,
    /// How many blocks it has: 1 or more.
    pub count: u64,
}

impl Volume {
    /// Whether it has a block, and all that it has are those of a device of so many, but its first.
    pub(crate) fn is_inside(&self, blocks: u64) -> bool
        ensures { IsTrue result ↔ IsInside blocks self.now }
    {
        1 <= self.start
            && 1 <= self.count
            && self.count <= blocks
            && self.start <= blocks - self.count
    }

    /// Whether another begins behind it and has another name.
    pub(crate) fn leads(&self, other: &Volume) -> bool
        ensures { IsTrue result ↔ Leads self.now other.now }
    {
        self.ends_before(other) && !self.name.is_same(&other.name)
    }

    /// Whether another begins behind it.
    fn ends_before(&self, other: &Volume) -> bool
        ensures { IsTrue result ↔ EndsBefore self.now other.now }
    {
        self.start <= other.start && self.count <= other.start - self.start
    }

    /// Writes its entry over the 64 bytes of `out`.
    pub(crate) fn put(&self, out: &mut [u8])
        requires { length out.old ≡ 64 }
        ensures spelled { out.new ≡ volume_bytes self.now }
        ensures most { length self.now.name ≤ 47 }
    {
        let (field, rest) = out.split_at_mut(48);
        self.name.put(field);
        let (field, rest) = rest.split_at_mut(8);
        field.copy_from_slice(&self.start.to_be_bytes());
        rest.copy_from_slice(&self.count.to_be_bytes());
    }

    /// The volume whose entry the 64 bytes are.
    pub(crate) fn of_entry(entry: &[u8]) -> Option<Volume>
        requires { length entry.now ≡ 64 }
        ensures found { IfSome result (λ v. FitsEntry v × (entry.now ≡ volume_bytes v)) }
        ensures only { (v : Volume) → FitsEntry v → entry.now ≡ volume_bytes v → result ≡ Some v }
    {
        let name = Name::of_field(&entry[..48])?;
        Some(Volume {
            name,
            start: u64_of(&entry[48..56]),
            count: u64_of(&entry[56..64]),
        })
    }
}

//! The table in memory: where a volume is, where one could be, and what the table is with it or without it.
ghost use Rattle.std.specs.Prelude.{◌≡◌, ◌≢◌, ◌↔◌, ◌≤◌, ◌<◌, ◌+◌, ◌^◌, ◌⊎◌, ℕ, List, [], ◌++◌, ◌∷◌, All, Some, IfSome, IfNone, IsSomeAnd, IsTrue, length, slice_get};
ghost use Rattle.std.specs.List.{insert, remove};
ghost use Rattle.volume_table.specs.Names.{IsName};
ghost use Rattle.volume_table.specs.Tables.{IsTable, Follows, Lacks, FitsAt, IsLeastStart, IsPlaced, Leads};
ghost use Rattle.volume_table.specs.declared.volume.Volume.{Volume};

use crate::gaps::least_gap;
use crate::name::Name;
use crate::volume::Volume;
use arrayvec::ArrayVec;
use std::marker::Model;

/// The size of a table.
pub const BLOCK: usize = 4096;

/// The most volumes of a table.
pub const MOST: usize = 64;

/// The volumes of a device, in the order of their blocks.
#[derive(Drop)]
pub struct Table {
    volumes: ArrayVec<Volume, MOST>,
}

impl Model for Table {
    ghost Value = { List Volume };

    ghost view = { λ t. t.volumes.items };

    ghost invariant = { λ t. length t.volumes.items ≤ 64 };
}

impl Table {
    /// A table with no volume.
    pub fn new() -> Table
        ensures { result ≡ [] }
    {
        Table {
            volumes: ArrayVec::new(),
        }
    }

    /// Its volumes, in the order of their blocks.
    pub fn volumes(&self) -> &[Volume]
        ensures value { result.now ≡ self.now }
        ensures most { length result.now ≤ 64 }
    {
        self.volumes.as_slice()
    }

    /// The same table once more.
    pub fn duplicate(&self) -> Table
        ensures { result ≡ self.now }
    {
        let mut volumes = ArrayVec::new();
        let _ = volumes.try_extend_from_slice(self.volumes());
        Table { volumes }
    }

    /// The place of the volume of this name in the table, and the volume.
    pub fn find(&self, name: &Name) -> Option<(usize, Volume)>
        ensures found { IfSome result (λ it. (slice_get self.now it.0 ≡ Some it.1) × (it.1.name ≡ name.now)) }
        ensures none { IfNone result (Lacks self.now name.now) }
    {
        let volumes = self.volumes();
        let at = place_of(volumes, name)?;
        Some((at, volumes[at]))
    }

    /// Puts a new volume of so many blocks into the table of a device of `blocks`, with the least first
    /// block that it could have, and answers it; or `None` where there are 64 volumes already or no such
    /// block, and then the table is as before.
    pub fn put(&mut self, name: Name, count: u64, blocks: u64) -> Option<Volume>
        requires table { IsTable blocks self.old }
        requires name { IsName name }
        requires new { Lacks self.old name }
        requires count { 1 ≤ count }
        ensures placed { IfSome result (λ v. (v.name ≡ name) × (v.count ≡ count) × IsLeastStart blocks self.old count v.start) }
        ensures inserted { IfSome result (λ v. IsPlaced self.old v self.new) }
        ensures table { IsTable blocks self.new }
        ensures none { IfNone result ((length self.old ≡ 64) ⊎ ((start : ℕ) → FitsAt blocks self.old count start → ⊥)) }
        ensures unchanged { IfNone result (self.new ≡ self.old) }
    {
        if self.volumes().len() == MOST {
            return None;
        }
        let gap = least_gap(self.volumes(), count, blocks)?;
        let start = gap.start;
        self.insert(gap.at, Volume { name, start, count });
        Some(Volume { name, start, count })
    }

    fn insert(&mut self, at: usize, volume: Volume)
        requires place { at ≤ length self.old }
        requires room { length self.old < 64 }
        ensures { self.new ≡ insert self.old at volume }
    {
        self.volumes.insert(at, volume);
    }

    /// Takes the volume at this place out of the table.
    pub fn remove(&mut self, index: usize)
        requires { index < length self.old }
        ensures removed { self.new ≡ remove self.old index }
        ensures table { (blocks : ℕ) → IsTable blocks self.old → IsTable blocks self.new }
    {
        let _ = self.volumes.remove(index);
    }

    /// Whether a volume can stand behind all of the table.
    pub(crate) fn is_followed_by(&self, volume: &Volume, blocks: u64) -> bool
        requires { IsName volume.now.name }
        ensures { IsTrue result ↔ Follows blocks self.now volume.now }
    {
        volume.is_inside(blocks) && all_lead(self.volumes(), volume)
    }

    /// Puts a volume behind all others.
    pub(crate) fn push(&mut self, volume: Volume)
        requires { length self.old < 64 }
        ensures { self.new ≡ self.old ++ volume ∷ [] }
    {
        self.volumes.push(volume);
    }
}

/// The place of the volume of this name.
fn place_of(volumes: &[Volume], name: &Name) -> Option<usize>
    ensures found { IfSome result (λ at. IsSomeAnd (slice_get volumes.now at) (λ v. v.name ≡ name.now)) }
    ensures none { IfNone result (Lacks volumes.now name.now) }
{
    for (at, volume) in volumes.iter().enumerate() {
        if volume.name.is_same(name) {
            return Some(at);
        }
    }
    None
}

/// Whether all end before a volume begins, and have other names.
fn all_lead(volumes: &[Volume], volume: &Volume) -> bool
    ensures { IsTrue result ↔ All (λ a. Leads a volume.now) volumes.now }
{
    volumes.iter().all(|other| other.leads(volume))
}

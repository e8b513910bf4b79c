//! A table out of the bytes of block 0.
ghost use Rattle.std.specs.Prelude.{◌≡◌, ◌≢◌, ◌≤◌, List, Some, IfSome, IfNone, length, take};
ghost use Rattle.volume_table.specs.Tables.{IsTable, Follows, table_bytes, volume_bytes};
ghost use Rattle.volume_table.specs.declared.volume.Volume.{Volume};

use crate::table::{MOST, Table};
use crate::volume::Volume;
use record_fields::are_zero;

/// The size of an entry.
pub(crate) const ENTRY: usize = 64;

/// The table of a device of `blocks` whose 4,096 bytes these are, or `None` where they are that of none.
pub fn decode(bytes: &[u8], blocks: u64) -> Option<Table>
    requires { length bytes.now ≡ 4096 }
    ensures found { IfSome result (λ table. IsTable blocks table × (bytes.now ≡ table_bytes table)) }
    ensures none { IfNone result ((table : List Volume) → IsTable blocks table → bytes.now ≢ table_bytes table) }
    // What was encoded is decoded to the same table.
    ensures again { (table : List Volume) → IsTable blocks table → bytes.now ≡ table_bytes table → result ≡ Some table }
{
    let mut table = Table::new();
    for i in 0..MOST {
        let (_, rest) = bytes.split_at(ENTRY * i);
        if rest[0] == 0 {
            return if are_zero(rest) { Some(table) } else { None };
        }
        let volume = next_volume(&table, rest, blocks)?;
        table.push(volume);
    }
    Some(table)
}

/// The volume of the first entry, where it can stand behind all of a table.
fn next_volume(table: &Table, rest: &[u8], blocks: u64) -> Option<Volume>
    requires { 64 ≤ length rest.now }
    ensures found { IfSome result (λ v. Follows blocks table.now v × (take 64 rest.now ≡ volume_bytes v)) }
    ensures only { (v : Volume) → Follows blocks table.now v → take 64 rest.now ≡ volume_bytes v → result ≡ Some v }
{
    let (entry, _) = rest.split_at(ENTRY);
    let volume = Volume::of_entry(entry)?;
    if table.is_followed_by(&volume, blocks) {
        Some(volume)
    } else {
        None
    }
}

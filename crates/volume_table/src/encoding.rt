//! The bytes of a table.
ghost use Rattle.std.specs.Prelude.{◌≡◌, ◌≤◌, length};
ghost use Rattle.volume_table.specs.Tables.{table_bytes};
ghost use Rattle.volume_table.specs.declared.volume.Volume.{Volume};

use crate::decoding::ENTRY;
use crate::table::Table;
use crate::volume::Volume;

/// Writes a table over the 4,096 bytes of `out`.
pub fn encode(table: &Table, out: &mut [u8])
    requires { length out.old ≡ 4096 }
    ensures { out.new ≡ table_bytes table.now }
{
    put_entries(table.volumes(), out);
}

/// Writes the entries, and zeros behind them.
fn put_entries(volumes: &[Volume], out: &mut [u8])
    requires count { length volumes.now ≤ 64 }
    requires size { length out.old ≡ 4096 }
    ensures { out.new ≡ table_bytes volumes.now }
{
    for (i, volume) in volumes.iter().enumerate() {
        volume.put(&mut out[ENTRY * i..ENTRY * (i + 1)]);
    }
    out[ENTRY * volumes.len()..].fill(0);
}

ghost use Rattle.std.specs.Prelude.{◌≡◌, ℕ, ◌+◌, ◌-◌, ◌<◌, ◌≤◌, ◌++◌, ◌↔◌, IsTrue, drop, length, replicate};
ghost use Rattle.sdbt_base.specs.Keys.{most_entries};
ghost use Rattle.record_versions.specs.Versions.{IsVersion};
ghost use Rattle.node_codec.specs.Record.{DataRecord, NodeRecord, record_bytes, FitsNode, FitsRecord};

use crate::body::Entry;
use crate::entries::{are_in_range, put_entries, put_zeros_before};
use crate::head::{DATA, HEAD, Head, kind_of_node, put_head};
use record_versions::{is_version, most_entries};
use sdbt_base::{MAX_LEVEL, RECORD};

/// Writes the data record of `block` at `addr` over the 4,128 bytes of `out`, whatever they were. The
/// content is at most 4,096 bytes, and zeros follow it.
pub fn encode_block(addr: u64, block: u64, content: &[u8], out: &mut [u8])
    requires block { block < 1048576 }
    requires content { length content.now ≤ 4096 }
    requires size { length out.old ≡ 4128 }
    ensures record { (version : ℕ) → out.new ≡ record_bytes version addr (DataRecord block (content.now ++ replicate (4096 - length content.now) 0)) }
    ensures fits { (version : ℕ) → FitsRecord version addr (DataRecord block (content.now ++ replicate (4096 - length content.now) 0)) }
{
    encode_block_over(addr, block, content, RECORD, out);
}

/// The same over bytes that are zeros from the place `zeros` on: those that need not be written are left.
/// Behind head and content all are zeros then.
pub fn encode_block_over(addr: u64, block: u64, content: &[u8], zeros: usize, out: &mut [u8])
    requires block { block < 1048576 }
    requires content { length content.now ≤ 4096 }
    requires size { length out.old ≡ 4128 }
    requires zeros { drop zeros out.old ≡ replicate (4128 - zeros) 0 }
    ensures record { (version : ℕ) → out.new ≡ record_bytes version addr (DataRecord block (content.now ++ replicate (4096 - length content.now) 0)) }
    ensures zeros { drop (32 + length content.now) out.new ≡ replicate (4128 - (32 + length content.now)) 0 }
{
    let (front, payload) = out.split_at_mut(HEAD);
    let head = Head {
        addr,
        kind: DATA,
        level: 0,
        count: 0,
        block,
    };
    put_head(&head, front);
    let (start, rest) = payload.split_at_mut(content.len());
    start.copy_from_slice(content);
    put_zeros_before(zeros.saturating_sub(HEAD + content.len()), rest);
}

/// Whether a node of the version at `addr` can have this level and these entries: the level is 1 to 20, there are at most
/// 64 entries, in version 2 at most 48, their lows ascend strictly and are those of blocks, and each child has a lower
/// address and a key of the version, with a digest exactly in version 2.
pub fn fits_node(addr: u64, level: u8, version: u8, entries: &[Entry]) -> bool
    ensures { IsTrue result ↔ FitsNode version addr level entries.now }
{
    is_version(version)
        && (1..=MAX_LEVEL).contains(&level)
        && entries.len() <= most_entries(version) as usize
        && are_in_range(entries, addr, version)
}

/// Writes the node of `level` and `entries` at `addr`, in the version, over the 4,128 bytes of `out`, whatever they were.
pub fn encode_node(addr: u64, level: u8, version: u8, entries: &[Entry], out: &mut [u8])
    requires fits { FitsNode version addr level entries.now }
    requires size { length out.old ≡ 4128 }
    ensures record { out.new ≡ record_bytes version addr (NodeRecord level entries.now) }
    ensures fits { FitsRecord version addr (NodeRecord level entries.now) }
{
    let (front, payload) = out.split_at_mut(HEAD);
    let head = Head {
        addr,
        kind: kind_of_node(version),
        level,
        count: count_of(version, entries),
        block: 0,
    };
    put_head(&head, front);
    put_entries(version, entries, payload);
}

/// How many entries there are.
fn count_of(version: u8, entries: &[Entry]) -> u16
    requires version { IsVersion version }
    requires count { length entries.now ≤ most_entries version }
    ensures { result ≡ length entries.now }
{
    entries.len() as u16
}

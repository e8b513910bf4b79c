ghost use Rattle.std.specs.Prelude.{◌≡◌, ◌+◌, ◌-◌, ◌*◌, ◌<◌, ◌≤◌, ◌↔◌, All, List, [], IsTrue, IsFalse, drop, length, map, replicate, take};
ghost use Rattle.std.specs.List.{flat_map};
ghost use Rattle.std.specs.List.Sorted.{IsStrictlyIncreasing};
ghost use Rattle.sdbt_base.specs.Bytes.{IsBytes};
ghost use Rattle.sdbt_base.specs.Keys.{IsKeyOf, entry_size, key_size, most_entries};
ghost use Rattle.record_versions.specs.Versions.{IsVersion};
ghost use Rattle.node_codec.specs.Record.{entry_bytes, entries_bytes, AreSized};
ghost use Rattle.node_codec.specs.Parts.{IsEntry, IsWithin, FitsEntries};
ghost use Rattle.node_codec.specs.declared.body.Entry.{Entry};

use crate::body::Entry;
use arrayvec::ArrayVec;
use record_fields::{are_zero, u64_of};
use record_versions::{entry_size, is_key, is_of_version, key_with_digest, plain_key, put_key};
use sdbt_base::{Key, MAX_BLOCKS};

/// Writes zeros.
fn put_zeros(out: &mut [u8])
    ensures { out.new ≡ replicate (length out.old) 0 }
{
    out.fill(0);
}

/// Writes zeros where there are none already: from the place `zeros` on all are.
pub(crate) fn put_zeros_before(zeros: usize, out: &mut [u8])
    requires { drop zeros out.old ≡ replicate (length out.old - zeros) 0 }
    ensures { out.new ≡ replicate (length out.old) 0 }
{
    if zeros < out.len() {
        put_zeros(&mut out[..zeros]);
    } else {
        put_zeros(out);
    }
}

/// Writes an entry over as many bytes as one of its key has.
fn put_entry(entry: &Entry, out: &mut [u8])
    requires { length out.old ≡ length entry.now.key + 16 }
    ensures { out.new ≡ entry_bytes entry.now }
{
    let (field, rest) = out.split_at_mut(8);
    field.copy_from_slice(&entry.low.to_be_bytes());
    let (field, rest) = rest.split_at_mut(8);
    field.copy_from_slice(&entry.addr.to_be_bytes());
    put_key(&entry.key, rest);
}

/// The entry of the version that the bytes are.
fn entry_of(bytes: &[u8], version: u8) -> Entry
    requires { length bytes.now ≡ entry_size version }
    ensures spelled { bytes.now ≡ entry_bytes result }
    ensures entry { IsEntry version result }
{
    let (_, key) = bytes.split_at(16);
    Entry {
        low: u64_of(&bytes[0..8]),
        addr: u64_of(&bytes[8..16]),
        key: key_of(key, version),
    }
}

/// The key of the version that the bytes are.
fn key_of(field: &[u8], version: u8) -> Key
    requires { length field.now ≡ key_size version }
    ensures value { result ≡ field.now }
    ensures key { IsKeyOf version result }
{
    if version == 2 {
        key_in_two(field)
    } else {
        plain_key(field)
    }
}

/// The key with a digest that the bytes are.
fn key_in_two(field: &[u8]) -> Key
    requires { length field.now ≡ 64 }
    ensures value { result ≡ field.now }
    ensures bytes { IsBytes 64 result }
{
    let (bytes, digest) = field.split_at(32);
    key_with_digest(bytes, digest)
}

/// The bytes of the entry `i` in a payload.
fn place_of(payload: &[u8], i: usize, version: u8) -> &[u8]
    requires version { IsVersion version }
    requires size { length payload.now ≡ 4096 }
    requires count { i < most_entries version }
    ensures bytes { result.now ≡ take (entry_size version) (drop (entry_size version * i) payload.now) }
    ensures size { length result.now ≡ entry_size version }
{
    let size = entry_size(version);
    let start = size * i;
    let end = start + size;
    &payload[start..end]
}

/// Reads the first entries that stand in a payload, so many of them.
fn read_entries(payload: &[u8], count: usize, version: u8, entries: &mut ArrayVec<Entry, 64>)
    requires version { IsVersion version }
    requires count { count ≤ most_entries version }
    requires size { length payload.now ≡ 4096 }
    ensures count { length entries.new.items ≡ count }
    ensures spelled { take (entry_size version * count) payload.now ≡ flat_map entry_bytes entries.new.items }
    ensures entries { All (IsEntry version) entries.new.items }
{
    entries.clear();
    for i in 0..count {
        entries.push(entry_of(place_of(payload, i, version), version));
    }
}

/// Reads the entries that stand in a payload, so many of them, and answers whether they are those of a node of the version at
/// `addr`, and the bytes behind them zero. Else no entries are left.
pub(crate) fn entries_in(
    payload: &[u8],
    count: usize,
    addr: u64,
    version: u8,
    entries: &mut ArrayVec<Entry, 64>,
) -> bool
    requires version { IsVersion version }
    requires count { count ≤ most_entries version }
    requires size { length payload.now ≡ 4096 }
    ensures found { IsTrue result → (length entries.new.items ≡ count) × (payload.now ≡ entries_bytes version entries.new.items) × FitsEntries version addr entries.new.items }
    ensures only { (items : List Entry) → length items ≡ count → payload.now ≡ entries_bytes version items → FitsEntries version addr items → IsTrue result × (entries.new.items ≡ items) }
    ensures empty { IsFalse result → entries.new.items ≡ [] }
{
    read_entries(payload, count, version, entries);
    let rest = rest_behind(payload, count, version);
    if are_zero(rest) && are_in_range(entries.as_slice(), addr, version) {
        true
    } else {
        entries.clear();
        false
    }
}

/// The bytes behind so many entries.
fn rest_behind(payload: &[u8], count: usize, version: u8) -> &[u8]
    requires version { IsVersion version }
    requires count { count ≤ most_entries version }
    requires size { length payload.now ≡ 4096 }
    ensures { result.now ≡ drop (entry_size version * count) payload.now }
{
    let size = entry_size(version);
    let used = size * count;
    let (_, rest) = payload.split_at(used);
    rest
}

/// Writes the entries over the 4,096 bytes of `out`, and zeros behind them.
pub(crate) fn put_entries(version: u8, entries: &[Entry], out: &mut [u8])
    requires version { IsVersion version }
    requires count { length entries.now ≤ most_entries version }
    requires sized { AreSized version entries.now }
    requires size { length out.old ≡ 4096 }
    ensures spelled { out.new ≡ entries_bytes version entries.now }
    ensures keys { All (λ e. IsKeyOf version e.key) entries.now }
{
    for (i, entry) in entries.iter().enumerate() {
        put_at(entry, i, version, out);
    }
    put_zeros_behind(entries.len(), version, out);
}

/// Writes an entry where the entry `i` of a payload stands.
fn put_at(entry: &Entry, i: usize, version: u8, out: &mut [u8])
    requires version { IsVersion version }
    requires count { i < most_entries version }
    requires sized { length entry.now.key ≡ key_size version }
    requires size { length out.old ≡ 4096 }
    ensures front { take (entry_size version * i) out.new ≡ take (entry_size version * i) out.old }
    ensures spelled { take (entry_size version) (drop (entry_size version * i) out.new) ≡ entry_bytes entry.now }
    ensures key { IsKeyOf version entry.now.key }
{
    is_key(&entry.key);
    let size = entry_size(version);
    let start = size * i;
    let (_, rest) = out.split_at_mut(start);
    put_first(entry, size, rest);
}

/// Writes an entry of so many bytes over the first ones.
fn put_first(entry: &Entry, size: usize, out: &mut [u8])
    requires size { size ≡ length entry.now.key + 16 }
    requires room { size ≤ length out.old }
    ensures { take size out.new ≡ entry_bytes entry.now }
{
    let (place, _) = out.split_at_mut(size);
    put_entry(entry, place);
}

/// Writes zeros behind so many entries.
fn put_zeros_behind(count: usize, version: u8, out: &mut [u8])
    requires version { IsVersion version }
    requires count { count ≤ most_entries version }
    requires size { length out.old ≡ 4096 }
    ensures front { take (entry_size version * count) out.new ≡ take (entry_size version * count) out.old }
    ensures zeros { drop (entry_size version * count) out.new ≡ replicate (4096 - entry_size version * count) 0 }
{
    let size = entry_size(version);
    let start = size * count;
    let (_, rest) = out.split_at_mut(start);
    put_zeros(rest);
}

/// Whether the lows ascend strictly and are those of blocks, and the children stand before the address of the node under keys
/// of the version.
pub(crate) fn are_in_range(entries: &[Entry], addr: u64, version: u8) -> bool
    ensures { IsTrue result ↔ IsStrictlyIncreasing (map (λ e. e.low) entries.now) × All (IsWithin version addr) entries.now }
{
    let mut least = 0;
    for entry in entries.iter() {
        if entry.low < least || !is_within(entry, addr, version) {
            return false;
        }
        least = entry.low + 1;
    }
    true
}

/// Whether the low is that of a block, and the child stands before the address of the node under a key of the version.
fn is_within(entry: &Entry, addr: u64, version: u8) -> bool
    ensures { IsTrue result ↔ IsWithin version addr entry.now }
{
    entry.low < MAX_BLOCKS && entry.addr < addr && is_of_version(&entry.key, version)
}

//! From text to a certificate.
ghost use Rattle.std.specs.Prelude.{◌≡◌, ◌≢◌, ℕ, List, [], ◌∷◌, map, option_map, IfOk, MatchOption};
ghost use Rattle.serde_json.specs.Data.{Data, Members, member};
ghost use Rattle.serde_json.specs.View.{view, members_view};
ghost use Rattle.cert_maker.specs.Cert as specs;
ghost use Rattle.cert_maker.specs.Added.{traced, trace_of};
ghost use Rattle.cert_codec.specs.Text.{whole, row, numbers, array_of, added_json, never_json, cert_object, cert_json, Spells};
ghost use Rattle.cert_codec.specs.ReadBack.{IsReadBack, front_members, back_members, data_row, node_row};

use cert_maker::{Added, AddedList, Cert};
use sdbt_base::{Addrs, Memory, Unkept, UnkeptList};
use serde_json::Value;
use std::alloc::Global;
use std::collections::btree_map::Iter;

/// The certificate that the bytes of a line spell, without its line feed, and `None` where they spell none. They are JSON (RFC 8259)
/// as `serde_json` reads it: white space may stand anywhere, the members in any order, and of a member that is named more than
/// once the last one counts.
pub fn read_line(alloc: Global, bytes: &[u8]) -> Result<Option<Cert>, Memory>
    ensures { IfOk result (λ found. MatchOption found
        ((cert : specs.Cert) → ¬ Spells bytes.now cert)
        (λ cert. Spells bytes.now cert)) }
{
    match Value::from_slice(alloc, bytes) {
        Ok(value) => cert_in(alloc, &value),
        Err(fault) => if fault.is_memory() {
            Err(Memory)
        } else {
            Ok(None)
        },
    }
}

// The certificate that a value is.
fn cert_in(alloc: Global, value: &Value) -> Result<Option<Cert>, Memory>
    ensures { IfOk result (IsReadBack cert_json (view value.now)) }
{
    let Some(found) = members_in(value) else {
        return Ok(None);
    };
    let Some(base) = found.front.base.as_u64() else {
        return Ok(None);
    };
    let Some(commit) = found.front.commit.as_u64() else {
        return Ok(None);
    };
    let Some(head) = found.back.head.as_u64() else {
        return Ok(None);
    };
    let Some(root) = found.back.root.as_u64() else {
        return Ok(None);
    };
    let Some(added) = added_in(alloc, found.front.added)? else {
        return Ok(None);
    };
    let Some(gone) = gone_in(alloc, found.front.gone)? else {
        return Ok(None);
    };
    let Some(never) = never_in(alloc, found.back.never)? else {
        return Ok(None);
    };
    Ok(Some(Cert::from_parts(commit, base, head, root, added, gone, never)))
}

// The members of a certificate, in the order of their names: the first four, and the last three.
#[derive(Clone, Copy, Drop)]
struct Front<'v> {
    added: &'v Value,
    base: &'v Value,
    commit: &'v Value,
    gone: &'v Value,
}

#[derive(Clone, Copy, Drop)]
struct Back<'v> {
    head: &'v Value,
    never: &'v Value,
    root: &'v Value,
}

#[derive(Clone, Copy, Drop)]
struct Found<'v> {
    front: Front<'v>,
    back: Back<'v>,
}

// The first four members, which are taken off.
fn front_in<'v>(members: &mut Iter<'v, String, Value>) -> Option<Front<'v>>
    ensures { MatchOption result
        ((added base commit gone : Data) (rest : Members) → members_view members.old ≢ front_members added base commit gone rest)
        (λ f. members_view members.old ≡ front_members (view f.added.now) (view f.base.now) (view f.commit.now) (view f.gone.now) (members_view members.new)) }
{
    let added = next_named(members, "added")?;
    let base = next_named(members, "base")?;
    let commit = next_named(members, "commit")?;
    let gone = next_named(members, "gone")?;
    Some(Front {
        added,
        base,
        commit,
        gone,
    })
}

// The last three members, behind which there is none.
fn back_in<'v>(members: &mut Iter<'v, String, Value>) -> Option<Back<'v>>
    ensures { MatchOption result
        ((head never root : Data) → members_view members.old ≢ back_members head never root)
        (λ f. members_view members.old ≡ back_members (view f.head.now) (view f.never.now) (view f.root.now)) }
{
    let head = next_named(members, "head")?;
    let never = next_named(members, "never")?;
    let root = next_named(members, "root")?;
    if members.next().is_some() {
        return None;
    }
    Some(Back { head, never, root })
}

// The seven members of an object that has no others.
fn members_in(value: &Value) -> Option<Found<'_>>
    ensures { MatchOption result
        ((added base commit gone head never root : Data) → view value.now ≢ cert_object added base commit gone head never root)
        (λ f. view value.now ≡ cert_object (view f.front.added.now) (view f.front.base.now) (view f.front.commit.now) (view f.front.gone.now) (view f.back.head.now) (view f.back.never.now) (view f.back.root.now)) }
{
    let mut members = value.as_object()?.iter();
    let front = front_in(&mut members)?;
    let back = back_in(&mut members)?;
    Some(Found { front, back })
}

// The next member, if it has this name.
fn next_named<'v>(members: &mut Iter<'v, String, Value>, name: &str) -> Option<&'v Value>
    ensures { MatchOption result
        ((d : Data) (ms : Members) → members_view members.old ≢ member name.now d ms)
        (λ v. members_view members.old ≡ member name.now (view v.now) (members_view members.new)) }
{
    let (key, value) = members.next()?;
    if key.as_str() == name {
        Some(value)
    } else {
        None
    }
}

// Whole numbers, as each of the items is one.
fn numbers_in(alloc: Global, items: &[Value]) -> Result<Option<Addrs>, Memory>
    ensures { IfOk result (IsReadBack (map whole) (map view items.now)) }
{
    let mut found = Addrs::new(alloc);
    for item in items {
        let Some(n) = item.as_u64() else {
            return Ok(None);
        };
        found.push(n)?;
    }
    Ok(Some(found))
}

fn gone_in(alloc: Global, value: &Value) -> Result<Option<Addrs>, Memory>
    ensures { IfOk result (IsReadBack numbers (view value.now)) }
{
    match value.as_array() {
        Some(items) => numbers_in(alloc, items),
        None => Ok(None),
    }
}

// The number at the front, and what follows it.
fn first_number(items: &[Value]) -> Option<(u64, &[Value])>
    ensures { MatchOption result
        ((n : ℕ) (rest : List Data) → map view items.now ≢ whole n ∷ rest)
        (λ f. map view items.now ≡ whole f.0 ∷ map view f.1.now) }
{
    let (first, rest) = items.split_first()?;
    Some((first.as_u64()?, rest))
}

// A block and an address.
fn never_row(items: &[Value]) -> Option<Unkept>
    ensures { MatchOption result
        ((block addr : ℕ) → map view items.now ≢ whole block ∷ whole addr ∷ [])
        (λ page. map view items.now ≡ whole page.block ∷ whole page.addr ∷ []) }
{
    let (block, rest) = first_number(items)?;
    let (addr, rest) = first_number(rest)?;
    if rest.is_empty() {
        Some(Unkept { block, addr })
    } else {
        None
    }
}

fn never_item(value: &Value) -> Option<Unkept>
    ensures { IsReadBack never_json (view value.now) result }
{
    match value.as_array() {
        Some(items) => never_row(items),
        None => None,
    }
}

fn never_in(alloc: Global, value: &Value) -> Result<Option<UnkeptList>, Memory>
    ensures { IfOk result (IsReadBack (array_of never_json) (view value.now)) }
{
    let Some(items) = value.as_array() else {
        return Ok(None);
    };
    let mut found = UnkeptList::new(alloc);
    for item in items {
        let Some(page) = never_item(item) else {
            return Ok(None);
        };
        found.push(page)?;
    }
    Ok(Some(found))
}

// The block of a data record, which stands last.
fn data_block(items: &[Value]) -> Option<u64>
    ensures { MatchOption result
        ((block : ℕ) → map view items.now ≢ whole block ∷ [])
        (λ block. map view items.now ≡ whole block ∷ []) }
{
    let (block, rest) = first_number(items)?;
    if rest.is_empty() { Some(block) } else { None }
}

// An address, then 0 and a block, or 1 and the children.
fn added_row(alloc: Global, items: &[Value]) -> Result<Option<Added>, Memory>
    ensures { IfOk result (λ found. MatchOption found
        (((addr block : ℕ) → map view items.now ≢ data_row addr block) × ((addr : ℕ) (children : List ℕ) → map view items.now ≢ node_row addr children))
        (λ added. map view items.now ≡ map whole (row added.addr (trace_of added.block added.children)))) }
{
    let Some((addr, rest)) = first_number(items) else {
        return Ok(None);
    };
    let Some((kind, rest)) = first_number(rest) else {
        return Ok(None);
    };
    if kind == 0 {
        let Some(block) = data_block(rest) else {
            return Ok(None);
        };
        return Ok(Some(Added {
            addr,
            block: Some(block),
            children: Addrs::new(alloc),
        }));
    }
    if kind != 1 {
        return Ok(None);
    }
    let Some(children) = numbers_in(alloc, rest)? else {
        return Ok(None);
    };
    Ok(Some(Added {
        addr,
        block: None,
        children,
    }))
}

fn added_item(alloc: Global, value: &Value) -> Result<Option<Added>, Memory>
    ensures { IfOk result (λ found. IsReadBack added_json (view value.now) (option_map traced found)) }
{
    match value.as_array() {
        Some(items) => added_row(alloc, items),
        None => Ok(None),
    }
}

fn added_in(alloc: Global, value: &Value) -> Result<Option<AddedList>, Memory>
    ensures { IfOk result (IsReadBack (array_of added_json) (view value.now)) }
{
    let Some(items) = value.as_array() else {
        return Ok(None);
    };
    let mut found = AddedList::new(alloc);
    for item in items {
        let Some(added) = added_item(alloc, item)? else {
            return Ok(None);
        };
        found.push(added)?;
    }
    Ok(Some(found))
}

//! Pages and root records that a row makes or changes.
ghost use Rattle.std.specs.Prelude.{◌≤◌, IfOk};

use medium_trace::Pages;
use page_digest::digest_of;
use row_lines::{LineFault, byte, number, word};
use sdbt_base::{KeySlot, Memory, RECORD, ROOT};
use seal_record::seal;
use std::alloc::Global;
use std::str::SplitWhitespace;

/// Where the entries of a node, and the content of a data record, begin in a body.
const ENTRIES: usize = 32;

const CONTENT: usize = 32;

/// How long an entry is: its low and its child's address in eight bytes each, most significant first, and the child's key in 32.
const ENTRY: usize = 48;

/// How long an entry of a node of kind 3 is: behind the key stands the digest of the child's page, in 32 bytes.
const LONG_ENTRY: usize = 80;

/// The place of the last entry for which a body has room, from 0 on, and of the last that is so long.
const LAST_ENTRY: u64 = 84;

const LAST_LONG_ENTRY: u64 = 50;

/// The kind of a node of version 2.
const LONG_KIND: u8 = 3;

/// What an entry says.
#[derive(Clone, Copy)]
struct Child {
    low: u64,
    addr: u64,
    key: u8,
}

/// What is put into a page: its body, the byte that its key is made of, and how many children were put.
#[derive(Clone, Copy)]
struct Forged {
    body: [u8; RECORD],
    key: u8,
    children: u8,
}

/// Puts bytes at a place; what reaches beyond the end is left out.
pub(crate) fn put(into: &mut [u8], place: usize, bytes: &[u8]) {
    let (_, rest) = into.split_at_mut(place.min(into.len()));
    let count = bytes.len().min(rest.len());
    rest[..count].copy_from_slice(&bytes[..count]);
}

/// The page at an address; zeros where there is none.
pub(crate) fn page_at(pages: &Pages, addr: u64) -> [u8; RECORD] {
    if addr < pages.len() as u64 {
        *pages.at(addr as usize)
    } else {
        [0; RECORD]
    }
}

/// The page that these words say, at an address: `key`, `kind`, `addr`, `level`, `count`, `block` with a number each; `content HEX`;
/// `child LOW ADDR` for the next entry, whose key is that of its address; `entry PLACE LOW ADDR KEY` for one anywhere. Behind
/// `kind 3` an entry has the digest of its child's page, as that stands among the pages. What isn't said is a node at that address,
/// under the key of it, which counts its children.
pub(crate) fn page_of(
    alloc: Global,
    addr: u64,
    words: &mut SplitWhitespace<'_>,
    pages: &Pages,
) -> Result<[u8; RECORD], LineFault> {
    let mut forged = Forged::at(addr);
    for _ in 0..u64::MAX {
        let Some(field) = words.next() else {
            break;
        };
        forged.put(field, words, pages)?;
    }
    Ok(sealed(alloc, forged.key, &forged.body)?)
}

impl Forged {
    /// A node without an entry, under the key of its address.
    fn at(addr: u64) -> Forged {
        let mut body = [0; RECORD];
        put(&mut body, 0, b"SDBTREC1");
        put(&mut body, 8, &addr.to_be_bytes());
        put(&mut body, 16, &[2]);
        Forged {
            body,
            key: key_of(addr),
            children: 0,
        }
    }

    /// Puts what a word names.
    fn put(
        &mut self,
        field: &str,
        words: &mut SplitWhitespace<'_>,
        pages: &Pages,
    ) -> Result<(), LineFault> {
        if field == "key" {
            self.key = byte(words)?;
            Ok(())
        } else if field == "child" {
            self.put_child(words, pages)
        } else {
            put_field(&mut self.body, field, words, pages)
        }
    }

    /// Puts the next entry of a node, which then counts it.
    fn put_child(
        &mut self,
        words: &mut SplitWhitespace<'_>,
        pages: &Pages,
    ) -> Result<(), LineFault> {
        put_child(&mut self.body, u64::from(self.children), words, pages)?;
        self.children = self.children.saturating_add(1);
        put(&mut self.body, 19, &[self.children]);
        Ok(())
    }
}

/// The page of a body under the key that is this byte 32 times.
fn sealed(alloc: Global, key: u8, body: &[u8; RECORD]) -> Result<[u8; RECORD], Memory> {
    let mut page = [0; RECORD];
    let mut slot = KeySlot::new(alloc)?;
    slot.put([key; 32]);
    let _ = seal(&mut slot, body, &mut page);
    Ok(page)
}

/// The byte that the key of the page at an address is made of, where keys rise.
fn key_of(addr: u64) -> u8 {
    (addr % 200) as u8 + 1
}

/// Puts the next entry of a node.
fn put_child(
    body: &mut [u8; RECORD],
    place: u64,
    words: &mut SplitWhitespace<'_>,
    pages: &Pages,
) -> Result<(), LineFault> {
    let low = number(words)?;
    let addr = number(words)?;
    let key = key_of(addr);
    put_entry(body, place, &Child { low, addr, key }, pages)
}

/// Puts a field of a record.
fn put_field(
    body: &mut [u8; RECORD],
    field: &str,
    words: &mut SplitWhitespace<'_>,
    pages: &Pages,
) -> Result<(), LineFault> {
    if field == "content" {
        return put_hex(body, CONTENT, word(words)?);
    }
    let value = number(words)?;
    let bytes = value.to_be_bytes();
    if field == "entry" {
        let low = number(words)?;
        let addr = number(words)?;
        let key = byte(words)?;
        return put_entry(body, value, &Child { low, addr, key }, pages);
    }
    let (place, count) = match field {
        "addr" => (8, 8),
        "kind" => (16, 1),
        "level" => (17, 1),
        "count" => (18, 2),
        "block" => (24, 8),
        _ => return Err(LineFault::Unknown),
    };
    put(body, place, &bytes[8 - count..]);
    Ok(())
}

/// Puts an entry at a place, as long as those of the body's kind are.
fn put_entry(
    body: &mut [u8; RECORD],
    place: u64,
    child: &Child,
    pages: &Pages,
) -> Result<(), LineFault> {
    if body[16] != LONG_KIND {
        if place > LAST_ENTRY {
            return Err(LineFault::Unknown);
        }
        put_names(body, ENTRY * place as usize + ENTRIES, child);
        return Ok(());
    }
    if place > LAST_LONG_ENTRY {
        return Err(LineFault::Unknown);
    }
    let at = LONG_ENTRY * place as usize + ENTRIES;
    put_names(body, at, child);
    put(body, at + ENTRY, &digest_of(&page_at(pages, child.addr)));
    Ok(())
}

/// Puts what each entry has, from a place on.
fn put_names(body: &mut [u8; RECORD], at: usize, child: &Child)
    requires { at ≤ 4096 }
{
    put(body, at, &child.low.to_be_bytes());
    put(body, at + 8, &child.addr.to_be_bytes());
    put(body, at + 16, &[child.key; 32]);
}

/// The root record that these words say: `version`, `order`, `level`, `blocks`, `commit`, `addr`, `key`, `mapped` and `pages` with a
/// number each. In version 2 it has the digest of the page at `addr`, as that stands among the pages.
pub(crate) fn root_of(
    words: &mut SplitWhitespace<'_>,
    pages: &Pages,
) -> Result<[u8; ROOT], LineFault> {
    let mut record = [0; ROOT];
    put(&mut record, 0, b"SDBTROOT");
    put(&mut record, 8, &[0, 1]);
    let (mut version, mut node) = (1, 0);
    for _ in 0..u64::MAX {
        let Some(field) = words.next() else {
            break;
        };
        if field == "key" {
            put(&mut record, 40, &[byte(words)?; 32]);
        } else {
            let value = number(words)?;
            put_root_field(&mut record, field, value)?;
            if field == "version" {
                version = value;
            } else if field == "addr" {
                node = value;
            }
        }
    }
    if version == 2 {
        put(&mut record, 88, &digest_of(&page_at(pages, node)));
    }
    Ok(record)
}

/// Puts a number of a root record.
fn put_root_field(record: &mut [u8; ROOT], field: &str, value: u64) -> Result<(), LineFault> {
    let bytes = value.to_be_bytes();
    let (place, count) = match field {
        "version" => (8, 2),
        "order" => (10, 2),
        "level" => (12, 1),
        "blocks" => (16, 8),
        "commit" => (24, 8),
        "addr" => (32, 8),
        "mapped" => (72, 8),
        "pages" => (80, 8),
        _ => return Err(LineFault::Unknown),
    };
    put(record, place, &bytes[8 - count..]);
    Ok(())
}

/// Does what these words say to bytes: `put PLACE HEX` puts bytes at a place, `flip PLACE HEX` turns those of their bits that are set.
pub(crate) fn change(
    how: &str,
    into: &mut [u8],
    words: &mut SplitWhitespace<'_>,
) -> Result<(), LineFault> {
    let place = number(words)?.min(RECORD as u64) as usize;
    let digits = word(words)?;
    let mut bytes = [0; ROOT];
    let count = decoded(digits, &mut bytes)?;
    if how == "flip" {
        for (byte, other) in bytes.iter_mut().zip(into.iter().skip(place)) {
            *byte ^= *other;
        }
    } else if how != "put" {
        return Err(LineFault::Unknown);
    }
    put(into, place, &bytes[..count]);
    Ok(())
}

/// Puts the bytes that hex digits say at a place.
fn put_hex(into: &mut [u8], place: usize, digits: &str) -> Result<(), LineFault> {
    let mut bytes = [0; ROOT];
    let count = decoded(digits, &mut bytes)?;
    put(into, place, &bytes[..count]);
    Ok(())
}

/// How many bytes hex digits say, which are then the first of these; 128 at most.
fn decoded(digits: &str, bytes: &mut [u8; ROOT]) -> Result<usize, LineFault>
    ensures { IfOk result (λ count. count ≤ 128) }
{
    let count = digits.len() / 2;
    if count > ROOT || hex::decode_to_slice(digits, &mut bytes[..count]).is_err() {
        return Err(LineFault::Unknown);
    }
    Ok(count)
}

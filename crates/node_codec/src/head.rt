ghost use Rattle.std.specs.Prelude.{◌≡◌, ℕ, ◌^◌, ◌<◌, ◌↔◌, [], ◌∷◌, IsTrue, IfSome, Some, length};
ghost use Rattle.record_versions.specs.Versions.{IsVersion};
ghost use Rattle.node_codec.specs.Record.{head_bytes, kind_of_node};
ghost use Rattle.node_codec.specs.Parts.{bytes_of_head, IsFramed, SpellsHead, IsDataHead, IsNodeHead};

use record_fields::{are_zero, u16_of, u64_of};
use record_versions::most_entries;
use sdbt_base::{MAX_BLOCKS, MAX_LEVEL};

/// The size of a head.
pub(crate) const HEAD: usize = 32;

/// The first bytes of each record.
const STAMP: [u8; 8] = *b"SDBTREC1";

/// The kind of a data record.
pub(crate) const DATA: u8 = 1;

/// The kind of a node: 2 in version 1, and 3 in version 2.
pub(crate) fn kind_of_node(version: u8) -> u8
    requires { IsVersion version }
    ensures { result ≡ kind_of_node version }
{
    version + 1
}

/// The head of a record, but for its stamp and its zeros.
#[derive(Clone, Copy)]
pub(crate) struct Head {
    pub(crate) addr: u64,
    pub(crate) kind: u8,
    pub(crate) level: u8,
    pub(crate) count: u16,
    pub(crate) block: u64,
}

impl Head {
    /// Whether this is the head of a data record at `addr`.
    pub(crate) fn is_data(&self, addr: u64) -> bool
        ensures { IsTrue result ↔ IsDataHead addr self.now }
    {
        self.addr == addr
            && self.kind == DATA
            && self.level == 0
            && self.count == 0
            && self.block < MAX_BLOCKS
    }

    /// Whether this is the head of a node of the version at `addr`.
    pub(crate) fn is_node(&self, addr: u64, version: u8) -> bool
        requires { IsVersion version }
        ensures { IsTrue result ↔ IsNodeHead version addr self.now }
    {
        let kind = kind_of_node(version);
        let most = most_entries(version);
        self.addr == addr
            && self.kind == kind
            && (1..=MAX_LEVEL).contains(&self.level)
            && self.count <= most
            && self.block == 0
    }
}

/// Writes a head over the 32 bytes of `out`.
pub(crate) fn put_head(head: &Head, out: &mut [u8])
    requires { length out.old ≡ 32 }
    ensures { out.new ≡ bytes_of_head head.now }
{
    let (field, rest) = out.split_at_mut(8);
    field.copy_from_slice(&STAMP);
    let (field, rest) = rest.split_at_mut(8);
    field.copy_from_slice(&head.addr.to_be_bytes());
    let (field, rest) = rest.split_at_mut(1);
    field.copy_from_slice(&[head.kind]);
    let (field, rest) = rest.split_at_mut(1);
    field.copy_from_slice(&[head.level]);
    let (field, rest) = rest.split_at_mut(2);
    field.copy_from_slice(&head.count.to_be_bytes());
    let (field, rest) = rest.split_at_mut(4);
    field.copy_from_slice(&[0; 4]);
    rest.copy_from_slice(&head.block.to_be_bytes());
}

/// The head that the 32 bytes are, or `None` where its stamp or its zeros are not there.
pub(crate) fn head_of(bytes: &[u8]) -> Option<Head>
    requires { length bytes.now ≡ 32 }
    ensures found { IfSome result (λ head. bytes.now ≡ bytes_of_head head) }
    ensures only { (addr kind level count block : ℕ) → addr < 2 ^ 64 → count < 2 ^ 16 → block < 2 ^ 64 → bytes.now ≡ head_bytes addr kind level count block → result ≡ Some (record { addr = addr; kind = kind; level = level; count = count; block = block }) }
{
    let head = fields_of(bytes);
    if is_framed(bytes) { Some(head) } else { None }
}

fn is_framed(bytes: &[u8]) -> bool
    requires { length bytes.now ≡ 32 }
    ensures { IsTrue result ↔ IsFramed bytes.now }
{
    bytes.starts_with(&STAMP) && are_zero(&bytes[20..24])
}

fn fields_of(bytes: &[u8]) -> Head
    requires { length bytes.now ≡ 32 }
    ensures { SpellsHead bytes.now result }
{
    Head {
        addr: u64_of(&bytes[8..16]),
        kind: byte_of(&bytes[16..17]),
        level: byte_of(&bytes[17..18]),
        count: u16_of(&bytes[18..20]),
        block: u64_of(&bytes[24..32]),
    }
}

fn byte_of(field: &[u8]) -> u8
    requires { length field.now ≡ 1 }
    ensures { field.now ≡ result ∷ [] }
{
    field[0]
}

ghost use Rattle.std.specs.Prelude.{◌≡◌, ◌≢◌, ◌<◌, ℕ, List, [], Some, IfSome, IfNone, IsSomeAnd, drop, length};
ghost use Rattle.record_versions.specs.Versions.{IsVersion};
ghost use Rattle.node_codec.specs.declared.body.Entry.{Entry};
ghost use Rattle.node_codec.specs.Record.{Record, DataRecord, NodeRecord, FitsRecord, IsOfVersion, record_bytes, head_bytes, value_of, version_in};
ghost use Rattle.node_codec.specs.Parts.{HasParts};

use crate::body::{Body, Entry, NodeBody};
use crate::entries::entries_in;
use crate::head::{HEAD, head_of};
use arrayvec::ArrayVec;

/// What the 4,128 bytes say as a record at `addr`, or `None` where they are no record of that address in any version.
/// The content of a data record is the bytes from 32 on.
pub fn decode(body: &[u8], addr: u64) -> Option<Body>
    requires { length body.now ≡ 4128 }
    ensures found { IfSome result (λ b. FitsRecord (version_in b) addr (value_of b (drop 32 body.now)) × (body.now ≡ record_bytes (version_in b) addr (value_of b (drop 32 body.now)))) }
    ensures none { IfNone result ((version : ℕ) (value : Record) → IsVersion version → FitsRecord version addr value → body.now ≢ record_bytes version addr value) }
    // What was encoded is decoded to the same value.
    ensures again { (version : ℕ) (value : Record) → IsVersion version → FitsRecord version addr value → body.now ≡ record_bytes version addr value → IsSomeAnd result (λ b. (value_of b (drop 32 body.now) ≡ value) × IsOfVersion version b) }
{
    match decode_block(body, addr) {
        Some(block) => Some(Body::Block { block }),
        None => decode_any_node(body, addr),
    }
}

/// The node whose record at `addr` the 4,128 bytes are, in the version that their kind says.
fn decode_any_node(body: &[u8], addr: u64) -> Option<Body>
    requires { length body.now ≡ 4128 }
    ensures found { IfSome result (λ b. FitsRecord (version_in b) addr (value_of b (drop 32 body.now)) × (body.now ≡ record_bytes (version_in b) addr (value_of b (drop 32 body.now)))) }
    ensures none { IfNone result ((version level : ℕ) (items : List Entry) → IsVersion version → FitsRecord version addr (NodeRecord level items) → body.now ≢ record_bytes version addr (NodeRecord level items)) }
    ensures again { (version level : ℕ) (items : List Entry) → IsVersion version → FitsRecord version addr (NodeRecord level items) → body.now ≡ record_bytes version addr (NodeRecord level items) → IsSomeAnd result (λ b. (value_of b (drop 32 body.now) ≡ NodeRecord level items) × IsOfVersion version b) }
{
    let version = version_of_kind(body);
    let mut entries = ArrayVec::new();
    match decode_node(body, addr, version, &mut entries) {
        Some(level) => Some(Body::Node {
            node: NodeBody {
                level,
                version,
                entries,
            },
        }),
        None => None,
    }
}

/// The version of the nodes of this kind.
fn version_of_kind(body: &[u8]) -> u8
    requires { length body.now ≡ 4128 }
    ensures known { IsVersion result }
    ensures only { (version addr level : ℕ) (items : List Entry) → IsVersion version → body.now ≡ record_bytes version addr (NodeRecord level items) → result ≡ version }
{
    let kind = body[16];
    if kind == 3 { 2 } else { 1 }
}

/// The level of the node of the version whose record at `addr` the 4,128 bytes are, or `None` where they are no node record of
/// that address in that version. The entries of the node are then in `entries`, whatever was there; of no node there are none.
pub fn decode_node(
    body: &[u8],
    addr: u64,
    version: u8,
    entries: &mut ArrayVec<Entry, 64>,
) -> Option<u8>
    requires size { length body.now ≡ 4128 }
    requires version { IsVersion version }
    ensures found { IfSome result (λ level. FitsRecord version addr (NodeRecord level entries.new.items) × (body.now ≡ record_bytes version addr (NodeRecord level entries.new.items))) }
    ensures none { IfNone result ((level : ℕ) (items : List Entry) → FitsRecord version addr (NodeRecord level items) → body.now ≢ record_bytes version addr (NodeRecord level items)) }
    // What was encoded is decoded to the same node.
    ensures again { (level : ℕ) (items : List Entry) → FitsRecord version addr (NodeRecord level items) → body.now ≡ record_bytes version addr (NodeRecord level items) → (result ≡ Some level) × (entries.new.items ≡ items) }
    ensures empty { IfNone result (entries.new.items ≡ []) }
{
    let (front, payload) = body.split_at(HEAD);
    node_of(front, payload, addr, version, entries)
}

/// The same, of the two parts of the bytes.
fn node_of(
    front: &[u8],
    payload: &[u8],
    addr: u64,
    version: u8,
    entries: &mut ArrayVec<Entry, 64>,
) -> Option<u8>
    requires front { length front.now ≡ 32 }
    requires payload { length payload.now ≡ 4096 }
    requires version { IsVersion version }
    ensures found { IfSome result (λ level. FitsRecord version addr (NodeRecord level entries.new.items) × HasParts version addr front.now payload.now (NodeRecord level entries.new.items)) }
    ensures again { (level : ℕ) (items : List Entry) → FitsRecord version addr (NodeRecord level items) → HasParts version addr front.now payload.now (NodeRecord level items) → (result ≡ Some level) × (entries.new.items ≡ items) }
    ensures empty { IfNone result (entries.new.items ≡ []) }
{
    entries.clear();
    let head = head_of(front)?;
    if !head.is_node(addr, version) {
        return None;
    }
    entries_in(payload, head.count as usize, addr, version, entries).then_some(head.level)
}

/// The number of the block whose data record at `addr` the 4,128 bytes are, or `None` where they are no data record of that
/// address. It is the same in each version. The content is the bytes from 32 on.
pub fn decode_block(body: &[u8], addr: u64) -> Option<u64>
    requires { length body.now ≡ 4128 }
    ensures found { (version : ℕ) → IfSome result (λ block. FitsRecord version addr (DataRecord block (drop 32 body.now)) × (body.now ≡ record_bytes version addr (DataRecord block (drop 32 body.now)))) }
    ensures none { (version : ℕ) → IfNone result ((block : ℕ) (content : List ℕ) → FitsRecord version addr (DataRecord block content) → body.now ≢ record_bytes version addr (DataRecord block content)) }
    // What was encoded is decoded to the same block.
    ensures again { (version block : ℕ) (content : List ℕ) → FitsRecord version addr (DataRecord block content) → body.now ≡ record_bytes version addr (DataRecord block content) → result ≡ Some block }
{
    let (front, _) = body.split_at(HEAD);
    block_of(front, addr)
}

/// The same, of the head.
fn block_of(front: &[u8], addr: u64) -> Option<u64>
    requires { length front.now ≡ 32 }
    ensures found { IfSome result (λ block. (block < 1048576) × (front.now ≡ head_bytes addr 1 0 0 block)) }
    ensures again { (block : ℕ) → block < 1048576 → front.now ≡ head_bytes addr 1 0 0 block → result ≡ Some block }
{
    let head = head_of(front)?;
    head.is_data(addr).then_some(head.block)
}

ghost use Rattle.std.specs.Prelude.{◌≡◌, length, take, drop};
ghost use Rattle.std.specs.List.{concat};
ghost use Rattle.sdbt_base.specs.Keys.{IsKeyOf};
ghost use Rattle.root_codec.specs.RootRecord.{FitsRoot, root_bytes, root_fields};

use crate::root::Root;
use record_versions::{is_key, put_digest};

/// The first bytes of each root record.
pub(crate) const STAMP: [u8; 8] = *b"SDBTROOT";

/// Writes the root record of `root` over the 128 bytes of `out`.
pub fn encode_root(root: &Root, out: &mut [u8])
    requires fits { FitsRoot root.now }
    requires size { length out.old ≡ 128 }
    ensures record { out.new ≡ root_bytes root.now }
    ensures key { IsKeyOf root.now.version root.now.key }
{
    let (front, back) = out.split_at_mut(40);
    put_front(root, front);
    put_back(root, back);
    is_key(&root.key);
}

/// Writes what stands before the key: the stamp, the version, what the device is, its commit and the address of its root node.
fn put_front(root: &Root, out: &mut [u8])
    requires { length out.old ≡ 40 }
    ensures { out.new ≡ concat (take 8 (root_fields root.now)) }
{
    let (field, rest) = out.split_at_mut(8);
    field.copy_from_slice(&STAMP);
    let (field, rest) = rest.split_at_mut(2);
    field.copy_from_slice(&(root.version as u16).to_be_bytes());
    let (field, rest) = rest.split_at_mut(2);
    field.copy_from_slice(&root.order.to_be_bytes());
    let (field, rest) = rest.split_at_mut(1);
    field.copy_from_slice(&[root.level]);
    let (field, rest) = rest.split_at_mut(3);
    field.copy_from_slice(&[0; 3]);
    let (field, rest) = rest.split_at_mut(8);
    field.copy_from_slice(&root.blocks.to_be_bytes());
    let (field, rest) = rest.split_at_mut(8);
    field.copy_from_slice(&root.commit.to_be_bytes());
    rest.copy_from_slice(&root.addr.to_be_bytes());
}

/// Writes the key and what stands behind it: how many blocks are mapped, the head, the digest and zeros.
fn put_back(root: &Root, out: &mut [u8])
    requires { length out.old ≡ 88 }
    ensures { out.new ≡ concat (drop 8 (root_fields root.now)) }
{
    let (field, rest) = out.split_at_mut(32);
    field.copy_from_slice(&root.key.bytes());
    let (field, rest) = rest.split_at_mut(8);
    field.copy_from_slice(&root.mapped.to_be_bytes());
    let (field, rest) = rest.split_at_mut(8);
    field.copy_from_slice(&root.head.to_be_bytes());
    let (field, rest) = rest.split_at_mut(32);
    put_digest(&root.key, field);
    rest.copy_from_slice(&[0; 8]);
}

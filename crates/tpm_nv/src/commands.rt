//! Commands.
ghost use Rattle.std.specs.Prelude.{◌≡◌, ◌++◌, length};
ghost use Rattle.std.specs.Int.{w16, w32, to_be_bytes};
ghost use Rattle.tpm_nv.specs.Messages.{head_bytes, authorized, read_public_bytes, read_bytes, write_bytes};

use crate::index::Index;

/// How many bytes an index has: those of a root record.
pub const DATA: usize = 128;

/// The size of the command that asks what an index is.
pub const READ_PUBLIC_COMMAND: usize = 14;

/// The size of the command that reads an index.
pub const READ_COMMAND: usize = 35;

/// The size of the command that writes an index.
pub const WRITE_COMMAND: usize = 163;

/// The tag of messages without a session (TPM_ST_NO_SESSIONS).
pub(crate) const NO_SESSIONS: u16 = 0x8001;

/// The tag of messages with sessions (TPM_ST_SESSIONS).
pub(crate) const SESSIONS: u16 = 0x8002;

const NV_READ_PUBLIC: u32 = 0x169;

const NV_READ: u32 = 0x14e;

const NV_WRITE: u32 = 0x137;

/// The session of an empty password, with its size before it.
const PASSWORD: [u8; 13] = [0, 0, 0, 9, 0x40, 0, 0, 9, 0, 0, 0, 0, 0];

/// Writes the command that asks what an index is.
pub fn put_read_public(index: Index, out: &mut [u8; READ_PUBLIC_COMMAND])
    ensures { out.new ≡ read_public_bytes index }
{
    let (head, rest) = out.split_at_mut(10);
    put_head(NO_SESSIONS, 14, NV_READ_PUBLIC, head);
    rest.copy_from_slice(&index.handle().to_be_bytes());
}

/// Writes the command that reads the 128 bytes of an index.
pub fn put_read(index: Index, out: &mut [u8; READ_COMMAND])
    ensures { out.new ≡ read_bytes index }
{
    let (head, rest) = out.split_at_mut(10);
    put_head(SESSIONS, 35, NV_READ, head);
    let (field, rest) = rest.split_at_mut(21);
    put_authorized(index, field);
    let (field, rest) = rest.split_at_mut(2);
    field.copy_from_slice(&128u16.to_be_bytes());
    rest.copy_from_slice(&0u16.to_be_bytes());
}

/// Writes the command that puts these 128 bytes in an index.
#[tactic(auto, unfolding(crate::specs::Fields::sized))]
pub fn put_write(index: Index, bytes: &[u8; DATA], out: &mut [u8; WRITE_COMMAND])
    ensures { out.new ≡ write_bytes index bytes.now }
{
    let (head, rest) = out.split_at_mut(10);
    put_head(SESSIONS, 163, NV_WRITE, head);
    let (field, rest) = rest.split_at_mut(21);
    put_authorized(index, field);
    let (field, rest) = rest.split_at_mut(2);
    field.copy_from_slice(&128u16.to_be_bytes());
    let (field, rest) = rest.split_at_mut(128);
    field.copy_from_slice(bytes);
    rest.copy_from_slice(&0u16.to_be_bytes());
}

#[tactic(auto, unfolding(crate::specs::Messages::head_bytes))]
fn put_head(tag: u16, size: u32, code: u32, out: &mut [u8])
    requires { length out.old ≡ 10 }
    ensures { out.new ≡ head_bytes tag size code }
{
    let (field, rest) = out.split_at_mut(2);
    field.copy_from_slice(&tag.to_be_bytes());
    let (field, rest) = rest.split_at_mut(4);
    field.copy_from_slice(&size.to_be_bytes());
    rest.copy_from_slice(&code.to_be_bytes());
}

#[tactic(auto, unfolding(crate::specs::Messages::authorized))]
fn put_authorized(index: Index, out: &mut [u8])
    requires { length out.old ≡ 21 }
    ensures { out.new ≡ authorized index }
{
    let (field, rest) = out.split_at_mut(4);
    field.copy_from_slice(&index.handle().to_be_bytes());
    let (field, rest) = rest.split_at_mut(4);
    field.copy_from_slice(&index.handle().to_be_bytes());
    rest.copy_from_slice(&PASSWORD);
}

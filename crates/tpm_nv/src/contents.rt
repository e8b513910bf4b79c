//! Replies to the commands that read and write an index.
ghost use Rattle.std.specs.Prelude.{◌≡◌, ◌↔◌, ◌∷◌, ℕ, List, [], Option, IfOk, IfErr, IfSome, IsOk, IsOkAnd, IsSomeAnd, IsTrue, length};
ghost use Rattle.tpm_nv.specs.Fields.{sized};
ghost use Rattle.tpm_nv.specs.Messages.{IsWritten, with_session};
ghost use Rattle.tpm_nv.specs.Replies.{IsCause, SaysContent, IsContent, held_by};

use crate::commands::{DATA, SESSIONS};
use crate::fields::{take_sized, take_u32};
use crate::heads::{Failure, body_of};

/// The code of an index that was never written (TPM_RC_NV_UNINITIALIZED).
const NV_UNINITIALIZED: u32 = 0x14a;

/// The session behind the parameters of a reply: no nonce, it goes on, an empty password.
const SESSION: [u8; 5] = [0, 0, 1, 0, 0];

/// What a reply with no parameters carries: their size, and the session.
const WRITTEN: [u8; 9] = [0, 0, 0, 0, 0, 0, 1, 0, 0];

/// What an index holds.
#[derive(Clone, Copy)]
pub enum Content<'a> {
    /// Nothing, since it was never written.
    Unwritten,
    /// Its 128 bytes.
    Bytes(&'a [u8]),
}

/// What the reply to the command that reads an index says that it holds.
pub fn read_data(reply: &[u8]) -> Result<Content<'_>, Failure>
    ensures found { IfOk result (λ content. SaysContent reply.now (held_by content)) }
    ensures failed { IfErr result (λ failure. IsCause (IsContent reply.now) reply.now failure) }
    // What a reply says is read as that.
    ensures again { (held : Option (List ℕ)) → SaysContent reply.now held → IsOkAnd result (λ content. held_by content ≡ held) }
{
    match body_of(reply, SESSIONS) {
        Ok(body) => match bytes_in(body) {
            Some(bytes) => Ok(Content::Bytes(bytes)),
            None => Err(Failure::Malformed),
        },
        Err(failure) => {
            if failure == Failure::Code(NV_UNINITIALIZED) {
                Ok(Content::Unwritten)
            } else {
                Err(failure)
            }
        }
    }
}

/// The 128 bytes that a reply carries.
fn bytes_in(body: &[u8]) -> Option<&[u8]>
    ensures found { IfSome result (λ bytes. (length bytes.now ≡ 128) × (body.now ≡ with_session (sized bytes.now))) }
    ensures only { (bytes : List ℕ) → length bytes ≡ 128 → body.now ≡ with_session (sized bytes) → IsSomeAnd result (λ found. found.now ≡ bytes) }
{
    let (size, rest) = take_u32(body)?;
    let (bytes, rest) = take_sized(rest)?;
    if size == 130 && bytes.len() == DATA && is_session(rest) {
        Some(bytes)
    } else {
        None
    }
}

/// Whether a reply carries a session alone from here on.
fn is_session(rest: &[u8]) -> bool
    ensures { IsTrue result ↔ (rest.now ≡ 0 ∷ 0 ∷ 1 ∷ 0 ∷ 0 ∷ []) }
{
    rest == SESSION.as_slice()
}

/// Whether the reply to the command that writes an index says that it was done; else why it wasn't.
pub fn read_written(reply: &[u8]) -> Result<(), Failure>
    ensures written { IsOk result ↔ IsWritten reply.now }
    ensures failed { IfErr result (λ failure. IsCause (IsWritten reply.now) reply.now failure) }
{
    let body = body_of(reply, SESSIONS)?;
    if is_written(body) {
        Ok(())
    } else {
        Err(Failure::Malformed)
    }
}

/// Whether a reply carries no parameters, and a session.
fn is_written(body: &[u8]) -> bool
    ensures { IsTrue result ↔ (body.now ≡ with_session []) }
{
    body == WRITTEN.as_slice()
}

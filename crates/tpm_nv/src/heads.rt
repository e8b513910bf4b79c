//! The ten bytes that every reply begins with, and what follows them.
ghost use Rattle.std.specs.Prelude.{◌≡◌, ◌≢◌, ◌<◌, ◌^◌, ℕ, List, Some, IfSome, IfNone, IfOk, IfErr, IsOkAnd, IsSomeAnd, length};
ghost use Rattle.tpm_nv.specs.Messages.{IsReply};
ghost use Rattle.tpm_nv.specs.Replies.{FitsHead, bytes_of, IsCause, IsDone};
ghost use Rattle.tpm_nv.specs.declared.heads.Head.{Head};

use crate::commands::NO_SESSIONS;
use crate::fields::{take_u16, take_u32};

/// The size of the head of a reply.
pub const HEAD: usize = 10;

/// The most bytes of a reply.
pub const REPLY: usize = 4096;

/// The head of a reply.
#[derive(Clone, Copy, PartialEq, Eq)]
pub struct Head {
    /// Whether sessions follow.
    pub tag: u16,
    /// The bytes of the reply, with the head: 10 to 4,096.
    pub size: u32,
    /// What came of the command: 0 where it was done.
    pub code: u32,
}

/// Why a reply says nothing that was waited for.
#[derive(Clone, Copy, Debug, PartialEq, Eq)]
pub enum Failure {
    /// The TPM's own code (part 2, TPM_RC).
    Code(u32),
    /// It is none of the replies to the command.
    Malformed,
}

/// The head that the first ten bytes of a reply are, or `None` where it can't have such a size.
#[tactic(auto, unfolding(crate::specs::Messages::head_bytes))]
pub fn read_head(bytes: &[u8]) -> Option<Head>
    requires { length bytes.now ≡ 10 }
    ensures found { IfSome result (λ head. FitsHead head × (bytes.now ≡ bytes_of head)) }
    ensures none { IfNone result ((head : Head) → FitsHead head → bytes.now ≢ bytes_of head) }
    // What a head spells is read as that head.
    ensures again { (head : Head) → FitsHead head → bytes.now ≡ bytes_of head → result ≡ Some head }
{
    let (tag, rest) = take_u16(bytes)?;
    let (size, rest) = take_u32(rest)?;
    let (code, _) = take_u32(rest)?;
    if (HEAD as u32..=REPLY as u32).contains(&size) {
        Some(Head { tag, size, code })
    } else {
        None
    }
}

/// What a reply of this tag carries where the command was done; else why it wasn't.
pub(crate) fn body_of(reply: &[u8], tag: u16) -> Result<&[u8], Failure>
    ensures found { IfOk result (λ body. IsReply tag 0 body.now reply.now) }
    ensures failed { IfErr result (λ failure. IsCause (IsDone tag reply.now) reply.now failure) }
    ensures again { (body : List ℕ) → IsReply tag 0 body reply.now → IsOkAnd result (λ found. found.now ≡ body) }
{
    let Some((head, body)) = parts_of(reply) else {
        return Err(Failure::Malformed);
    };
    if head.code == 0 {
        if head.tag == tag {
            return Ok(body);
        }
        return Err(Failure::Malformed);
    }
    if head.tag == NO_SESSIONS && body.is_empty() {
        return Err(Failure::Code(head.code));
    }
    Err(Failure::Malformed)
}

/// The head of a reply and what it carries, or `None` where the bytes are no reply.
fn parts_of(reply: &[u8]) -> Option<(Head, &[u8])>
    ensures fits { IfSome result (λ parts. FitsHead parts.0) }
    ensures found { IfSome result (λ parts. IsReply parts.0.tag parts.0.code parts.1.now reply.now) }
    ensures only { (tag code : ℕ) (body : List ℕ) → tag < 2 ^ 16 → code < 2 ^ 32 → IsReply tag code body reply.now
        → IsSomeAnd result (λ parts. (parts.0.tag ≡ tag) × (parts.0.code ≡ code) × (parts.1.now ≡ body)) }
{
    let (front, body) = reply.split_at_checked(HEAD)?;
    let head = read_head(front)?;
    if head.size as usize == reply.len() {
        Some((head, body))
    } else {
        None
    }
}

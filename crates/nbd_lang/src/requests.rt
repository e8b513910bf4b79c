//! Requests.
ghost use Rattle.std.specs.Prelude.{◌≡◌, ◌+◌, ◌<◌, ◌↔◌, ◌++◌, nat_lt, IsTrue, length};
ghost use Rattle.std.specs.Int.{w32, to_be_bytes};
ghost use Rattle.nbd_lang.specs.Requests.{FitsRequestKind, FitsRequest, request_number, request_head};
ghost use Rattle.nbd_lang.specs.Refusals.{refusal};

use crate::fields::u32_of;
use crate::replies::Outcome;
use record_fields::{u16_of, u64_of};

/// How many bytes each request begins with: the number 0x25609513.
pub const REQUEST_MAGIC: usize = 4;

/// How many bytes stand behind these and before a write's bytes.
pub const REQUEST_HEAD: usize = 24;

/// The most bytes that a read or a write may have.
pub const LONGEST: u32 = 33_554_432;

/// What a request asks for.
#[derive(Clone, Copy, Debug, PartialEq, Eq)]
pub enum RequestKind {
    /// The bytes of a range.
    Read,
    /// To put bytes into a range.
    Write,
    /// To make what was written and trimmed the device's, and to end.
    Disconnect,
    /// To make what was written and trimmed the device's.
    Flush,
    /// To forget a range.
    Trim,
    /// Something that is not served: the request's number, above 4.
    Other(u16),
}

/// A request without a write's bytes.
#[derive(Clone, Copy, Debug, PartialEq, Eq)]
pub struct Request {
    /// Its flags, of which none is served.
    pub flags: u16,
    /// What it asks for.
    pub kind: RequestKind,
    /// What the client knows its reply by.
    pub cookie: u64,
    /// Where its range begins, in bytes.
    pub offset: u64,
    /// How many bytes its range has.
    pub length: u32,
}

/// Whether a request begins with the four bytes.
pub fn is_request(bytes: &[u8]) -> bool
    requires { length bytes.now ≡ 4 }
    ensures { IsTrue result ↔ (bytes.now ≡ to_be_bytes w32 0x25609513) }
{
    u32_of(bytes) == 0x2560_9513
}

/// The request whose 24 bytes these are, behind the four that each request begins with. All spell
/// one.
pub fn read_request(bytes: &[u8]) -> Request
    requires { length bytes.now ≡ 24 }
    ensures spelled { to_be_bytes w32 0x25609513 ++ bytes.now ≡ request_head result }
    ensures fits { FitsRequest result }
{
    Request {
        flags: u16_of(&bytes[0..2]),
        kind: kind_of(u16_of(&bytes[2..4])),
        cookie: u64_of(&bytes[4..12]),
        offset: u64_of(&bytes[12..20]),
        length: u32_of(&bytes[20..24]),
    }
}

/// The kind with a number.
fn kind_of(number: u16) -> RequestKind
    ensures number { request_number result ≡ number }
    ensures fits { FitsRequestKind result }
{
    match number {
        0 => RequestKind::Read,
        1 => RequestKind::Write,
        2 => RequestKind::Disconnect,
        3 => RequestKind::Flush,
        4 => RequestKind::Trim,
        other => RequestKind::Other(other),
    }
}

impl Request {
    /// Why it is refused on a device of `size` bytes, by its head alone, before anything is done.
    pub fn refusal(&self, size: u64) -> Option<Outcome>
        ensures { result ≡ refusal size self.now }
    {
        match self.kind {
            RequestKind::Disconnect => None,
            RequestKind::Other(_) => Some(Outcome::Invalid),
            _ if self.flags != 0 => Some(Outcome::Invalid),
            RequestKind::Read if self.is_long() || self.passes(size) => Some(Outcome::Invalid),
            RequestKind::Write if self.is_long() => Some(Outcome::Invalid),
            RequestKind::Write if self.passes(size) => Some(Outcome::NoSpace),
            RequestKind::Trim if self.passes(size) => Some(Outcome::Invalid),
            _ => None,
        }
    }

    /// Whether it has more bytes than a read or a write may have.
    fn is_long(&self) -> bool
        ensures { result ≡ nat_lt 33554432 self.now.length }
    {
        self.length > LONGEST
    }

    /// Whether its range passes the end of a device of `size` bytes.
    fn passes(&self, size: u64) -> bool
        ensures { result ≡ nat_lt size (self.now.offset + self.now.length) }
    {
        self.offset > size || self.length as u64 > size - self.offset
    }
}

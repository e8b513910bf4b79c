//! Replies to requests.
ghost use Rattle.std.specs.Prelude.{◌≡◌, ◌≤◌, length, drop};
ghost use Rattle.nbd_lang.specs.Replies.{reply_bytes, outcome_number};

/// How many bytes stand before a read's bytes.
pub const REPLY_HEAD: usize = 16;

/// How a request went: what a reply calls its error.
#[derive(Clone, Copy, Debug, PartialEq, Eq)]
pub enum Outcome {
    /// It was done: no error.
    Done,
    /// The device is damaged there: EIO.
    Damaged,
    /// No memory was given: ENOMEM.
    NoMemory,
    /// It can't be asked for: EINVAL.
    Invalid,
    /// There is no room: ENOSPC.
    NoSpace,
}

/// Writes the head of a reply over the first 16 bytes of `out`. A read's bytes stand behind it.
pub fn write_reply_head(outcome: Outcome, cookie: u64, out: &mut [u8])
    requires { 16 ≤ length out.old }
    ensures { out.new ≡ reply_bytes
        (record { outcome = outcome; cookie = cookie; bytes = drop 16 out.old }) }
{
    out[..4].copy_from_slice(&0x6744_6698u32.to_be_bytes());
    out[4..8].copy_from_slice(&number_of(outcome).to_be_bytes());
    out[8..16].copy_from_slice(&cookie.to_be_bytes());
}

/// The number of an outcome, as errors have them on Linux.
fn number_of(outcome: Outcome) -> u32
    ensures { result ≡ outcome_number outcome }
{
    match outcome {
        Outcome::Done => 0,
        Outcome::Damaged => 5,
        Outcome::NoMemory => 12,
        Outcome::Invalid => 22,
        Outcome::NoSpace => 28,
    }
}

//! Answers to options.
ghost use Rattle.std.specs.Prelude.{◌≡◌, ◌≤◌, take};
ghost use Rattle.nbd_lang.specs.Options.{option_number};
ghost use Rattle.nbd_lang.specs.Answers.{answer_number, option_reply, export_answer};

use crate::greeting::ClientFlags;
use crate::options::OptionKind;

/// How many bytes a reply to an option has.
pub const OPTION_REPLY: usize = 20;

/// How many bytes the answer has, at most, after which requests are served.
pub const EXPORT_ANSWER: usize = 134;

/// That there are flags, that a flush is served, and that a trim is.
const TRANSMISSION_FLAGS: u16 = 37;

/// What is replied to an option after which no request is served.
#[derive(Clone, Copy, Debug, PartialEq, Eq)]
pub enum Answer {
    /// It is done.
    Acknowledged,
    /// It is not known.
    Unsupported,
}

/// Writes the reply to an option of this kind.
pub fn write_option_reply(kind: OptionKind, answer: Answer, out: &mut [u8; OPTION_REPLY])
    ensures { out.new ≡ option_reply kind answer }
{
    let (field, rest) = out.split_at_mut(8);
    field.copy_from_slice(&0x0003_e889_0455_65a9u64.to_be_bytes());
    let (field, rest) = rest.split_at_mut(4);
    field.copy_from_slice(&number_of(kind).to_be_bytes());
    let (field, rest) = rest.split_at_mut(4);
    field.copy_from_slice(&number_of_answer(answer).to_be_bytes());
    rest.copy_from_slice(&0u32.to_be_bytes());
}

/// Writes the answer after which requests are served, on a device of `size` bytes, and answers how
/// many bytes it has: fewer where the client wants no zeros.
pub fn write_export_answer(size: u64, flags: ClientFlags, out: &mut [u8; EXPORT_ANSWER]) -> usize
    ensures answer { take result out.new ≡ export_answer size flags.no_zeroes }
    ensures within { result ≤ 134 }
{
    out[..8].copy_from_slice(&size.to_be_bytes());
    out[8..10].copy_from_slice(&TRANSMISSION_FLAGS.to_be_bytes());
    out[10..].copy_from_slice(&[0; 124]);
    if flags.no_zeroes { 10 } else { EXPORT_ANSWER }
}

/// The number of a kind of option.
fn number_of(kind: OptionKind) -> u32
    ensures { result ≡ option_number kind }
{
    match kind {
        OptionKind::Export => 1,
        OptionKind::Abort => 2,
        OptionKind::Other(number) => number,
    }
}

/// The number of an answer.
fn number_of_answer(answer: Answer) -> u32
    ensures { result ≡ answer_number answer }
{
    match answer {
        Answer::Acknowledged => 1,
        Answer::Unsupported => 0x8000_0001,
    }
}

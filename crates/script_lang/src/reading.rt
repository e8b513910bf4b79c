//! Reading replies back.

ghost use Rattle.std.specs.Prelude.{◌≡◌, ◌≢◌, [], ◌++◌, codes, true, flat_map, ◌<◌, ◌↔◌, ◌^◌, ℕ, List, Some, IfSome, IfNone, IsSomeAnd, IsTrue, take, ◌≤◌};
ghost use Rattle.script_lang.specs.Replies as replies;
ghost use Rattle.script_lang.specs.Replies.{Reply as Answer, said, FitsBlock, text_of, line_of, is_refusal, IsReply, IsFront, IsTrimmed, IsWords, hex_or_dash};
ghost use Rattle.text_lines.specs.Lines.{HasNone};
ghost use Rattle.std.specs.Fmt.{decimal};
ghost use Rattle.std.specs.List.{AllByRecursion};
ghost use Rattle.std.specs.Bool.{OnTrue, OnFalse};

use crate::replies::Reply;
use crate::words::{is_text, number_before, parse_hex, parse_number};
use crate::writing::is_hex_of;
use sdbt_base::BLOCK;

/// The reply that a line gives, without its line feed; None for a line that is no reply's text. What a block holds comes to the
/// front of the buffer, of which nothing else is kept.
pub fn read_reply(line: &[u8], buffer: &mut [u8; BLOCK]) -> Option<Reply>
    ensures found { IfSome result (λ reply. IsReply (said reply buffer.new) × (line.now ≡ text_of (said reply buffer.new))) }
    ensures fits { IfSome result FitsBlock }
    ensures none { IfNone result ((answer : Answer) → IsReply answer → line.now ≢ text_of answer) }
    // A text is one reply's, so what was written is read back.
    ensures same { (answer : Answer) → IsReply answer → line.now ≡ text_of answer
        → IsSomeAnd result (λ reply. said reply buffer.new ≡ answer) }
{
    find_reply(line, buffer)
}

/// Whether the text of a reply says that its line was refused: it is outside the grammar, out of turn or out of range, or too few
/// pages were free.
#[tactic(auto, unfolding(crate::specs::Replies::text_of))]
pub fn is_refusal_text(text: &[u8]) -> bool
    ensures answers { (answer : Answer) → text.now ≡ text_of answer → result ≡ is_refusal answer }
    // And no other text is.
    ensures only { IsTrue result → (answer : Answer) × (text.now ≡ text_of answer) × (is_refusal answer ≡ true) }
{
    is_text(text, b"bad")
        || is_text(text, b"unmounted")
        || is_text(text, b"already mounted")
        || is_text(text, b"not empty")
        || is_text(text, b"no device")
        || is_text(text, b"already upgraded")
        || is_text(text, b"range")
        || is_text(text, b"full")
}

/// The text of a reply is one line.
pub fn replies_are_lines()
    ensures { (answer : Answer) → HasNone 10 (text_of answer) }
{}

/// A list of replies is determined by its lines.
pub fn replies_are_determined()
    ensures { (first second : List Answer) → AllByRecursion IsReply first → AllByRecursion IsReply second
        → flat_map line_of first ≡ flat_map line_of second → first ≡ second }
{}

/// A reply whose text the line is.
fn find_reply(line: &[u8], buffer: &mut [u8; BLOCK]) -> Option<Reply>
    ensures found { IfSome result (λ reply. IsReply (said reply buffer.new) × (line.now ≡ text_of (said reply buffer.new))) }
    ensures fits { IfSome result FitsBlock }
    ensures none { IfNone result ((answer : Answer) → IsReply answer → line.now ≢ text_of answer) }
{
    if let Some(reply) = read_words(line) {
        return Some(reply);
    }
    if let Some(reply) = read_content(line, buffer) {
        return Some(reply);
    }
    if let Some(reply) = read_mounted(line) {
        return Some(reply);
    }
    if let Some(reply) = read_committed(line) {
        return Some(reply);
    }
    if let Some(reply) = read_upgraded(line) {
        return Some(reply);
    }
    if let Some(reply) = read_stat(line) {
        return Some(reply);
    }
    read_seized(line)
}

/// A reply that is words alone.
#[tactic(auto, unfolding(crate::specs::Replies::text_of))]
fn read_words(line: &[u8]) -> Option<Reply>
    ensures found { IfSome result (λ reply. (buffer : List ℕ) → IsReply (said reply buffer) × (line.now ≡ text_of (said reply buffer))) }
    ensures fits { IfSome result FitsBlock }
    ensures none { IfNone result ((answer : Answer) → IsWords answer → line.now ≢ text_of answer) }
{
    // A pattern of so many texts takes the prover a minute; this chain takes it seconds.
    if is_text(line, b"formatted") {
        Some(Reply::Formatted)
    } else if is_text(line, b"ok") {
        Some(Reply::Done)
    } else if is_text(line, b"dropped") {
        Some(Reply::Dropped)
    } else if is_text(line, b"erased") {
        Some(Reply::Erased)
    } else if is_text(line, b"bad") {
        Some(Reply::Bad)
    } else if is_text(line, b"unmounted") {
        Some(Reply::Unmounted)
    } else if is_text(line, b"already mounted") {
        Some(Reply::AlreadyMounted)
    } else if is_text(line, b"not empty") {
        Some(Reply::NotEmpty)
    } else if is_text(line, b"no device") {
        Some(Reply::NoDevice)
    } else if is_text(line, b"already upgraded") {
        Some(Reply::AlreadyUpgraded)
    } else if is_text(line, b"range") {
        Some(Reply::Range)
    } else if is_text(line, b"full") {
        Some(Reply::Full)
    } else {
        None
    }
}

/// `data HEX`, in lower case and without trailing zero bytes, or `data -`.
#[tactic(auto, unfolding(crate::specs::Replies::text_of))]
fn read_content(line: &[u8], buffer: &mut [u8; BLOCK]) -> Option<Reply>
    ensures found { IfSome result (λ reply. IsReply (said reply buffer.new) × (line.now ≡ text_of (said reply buffer.new))) }
    ensures fits { IfSome result FitsBlock }
    ensures none { IfNone result ((bytes : List ℕ) → IsFront bytes → line.now ≢ text_of (replies.Content bytes)) }
{
    let digits = line.strip_prefix(b"data ".as_slice())?;
    let count = parse_front(digits, buffer)?;
    Some(Reply::Content { count })
}

/// The front of a block that a text gives, and how many bytes it has.
fn parse_front(text: &[u8], buffer: &mut [u8; BLOCK]) -> Option<usize>
    ensures found { IfSome result (λ count. IsFront (take count buffer.new) × (text.now ≡ hex_or_dash (take count buffer.new))) }
    ensures fits { IfSome result (λ count. count ≤ 4096) }
    ensures none { IfNone result ((bytes : List ℕ) → IsFront bytes → text.now ≢ hex_or_dash bytes) }
{
    if is_text(text, b"-") {
        return Some(0);
    }
    let count = parse_hex(text, buffer)?;
    let bytes = &buffer[..count];
    if ends_in_zero(bytes) {
        return None;
    }
    // Digits may be of either case, and are printed in lower case.
    if is_hex_of(text, bytes) {
        Some(count)
    } else {
        None
    }
}

/// Whether the last of some bytes is a zero.
fn ends_in_zero(bytes: &[u8]) -> bool
    ensures zero { OnTrue result (IsTrimmed bytes.now → ⊥) }
    ensures trimmed { OnFalse result (IsTrimmed bytes.now) }
{
    matches!(bytes, [.., 0])
}

/// `mounted C`
#[tactic(auto, unfolding(crate::specs::Replies::text_of))]
fn read_mounted(line: &[u8]) -> Option<Reply>
    ensures found { IfSome result (λ reply. (buffer : List ℕ) → IsReply (said reply buffer) × (line.now ≡ text_of (said reply buffer))) }
    ensures fits { IfSome result FitsBlock }
    ensures none { IfNone result ((number : ℕ) → number < 2 ^ 64 → line.now ≢ text_of (replies.Mounted number)) }
{
    let number = parse_number(line.strip_prefix(b"mounted ".as_slice())?)?;
    Some(Reply::Mounted { number })
}

/// `committed C`
#[tactic(auto, unfolding(crate::specs::Replies::text_of))]
fn read_committed(line: &[u8]) -> Option<Reply>
    ensures found { IfSome result (λ reply. (buffer : List ℕ) → IsReply (said reply buffer) × (line.now ≡ text_of (said reply buffer))) }
    ensures fits { IfSome result FitsBlock }
    ensures none { IfNone result ((number : ℕ) → number < 2 ^ 64 → line.now ≢ text_of (replies.Committed number)) }
{
    let number = parse_number(line.strip_prefix(b"committed ".as_slice())?)?;
    Some(Reply::Committed { number })
}

/// `upgraded C`
#[tactic(auto, unfolding(crate::specs::Replies::text_of))]
fn read_upgraded(line: &[u8]) -> Option<Reply>
    ensures found { IfSome result (λ reply. (buffer : List ℕ) → IsReply (said reply buffer) × (line.now ≡ text_of (said reply buffer))) }
    ensures fits { IfSome result FitsBlock }
    ensures none { IfNone result ((number : ℕ) → number < 2 ^ 64 → line.now ≢ text_of (replies.Upgraded number)) }
{
    let number = parse_number(line.strip_prefix(b"upgraded ".as_slice())?)?;
    Some(Reply::Upgraded { number })
}

/// `stat mapped K commit C`
#[tactic(auto, unfolding(crate::specs::Replies::text_of))]
fn read_stat(line: &[u8]) -> Option<Reply>
    ensures found { IfSome result (λ reply. (buffer : List ℕ) → IsReply (said reply buffer) × (line.now ≡ text_of (said reply buffer))) }
    ensures fits { IfSome result FitsBlock }
    ensures none { IfNone result ((mapped number : ℕ) → mapped < 2 ^ 64 → number < 2 ^ 64 → line.now ≢ text_of (replies.Stat mapped number)) }
{
    let (mapped, rest) = number_before(line.strip_prefix(b"stat mapped ".as_slice())?)?;
    let number = parse_number(rest.strip_prefix(b"commit ".as_slice())?)?;
    Some(Reply::Stat { mapped, number })
}

/// `seized pages P nodes X blocks Y`
#[tactic(auto, unfolding(crate::specs::Replies::text_of))]
fn read_seized(line: &[u8]) -> Option<Reply>
    ensures found { IfSome result (λ reply. (buffer : List ℕ) → IsReply (said reply buffer) × (line.now ≡ text_of (said reply buffer))) }
    ensures fits { IfSome result FitsBlock }
    ensures none { IfNone result ((pages nodes blocks : ℕ) → pages < 2 ^ 64 → nodes < 2 ^ 64 → blocks < 2 ^ 64
        → line.now ≢ text_of (replies.Seized pages nodes blocks)) }
{
    let (pages, rest) = number_before(line.strip_prefix(b"seized pages ".as_slice())?)?;
    let (nodes, blocks) = nodes_and_blocks(rest)?;
    Some(Reply::Seized {
        pages,
        nodes,
        blocks,
    })
}

/// `nodes X blocks Y`
fn nodes_and_blocks(text: &[u8]) -> Option<(u64, u64)>
    ensures found { IfSome result (λ parts. (parts.0 < 2 ^ 64) × (parts.1 < 2 ^ 64)
        × (text.now ≡ codes "nodes " ++ (decimal parts.0 ++ (codes " blocks " ++ decimal parts.1)))) }
    ensures none { IfNone result ((nodes blocks : ℕ) → nodes < 2 ^ 64 → blocks < 2 ^ 64
        → text.now ≢ codes "nodes " ++ (decimal nodes ++ (codes " blocks " ++ decimal blocks))) }
{
    let (nodes, rest) = number_before(text.strip_prefix(b"nodes ".as_slice())?)?;
    let blocks = parse_number(rest.strip_prefix(b"blocks ".as_slice())?)?;
    Some((nodes, blocks))
}

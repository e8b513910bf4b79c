//! Writing replies.
ghost use Rattle.std.specs.Prelude.{◌≡◌, ◌≤◌, ◌+◌, ◌++◌, ℕ, List, [], length};
ghost use Rattle.arrayvec.specs.ArrayVec.{array_vec_len};
ghost use Rattle.volume_lines.specs.Replies.{line_of, text_of, said, IsWords};

use crate::replies::Reply;
use arrayvec::ArrayVec;
use sdbt_base::{BLOCK, Sink, SinkFault};

/// Room for a line without content: the longest has 31 bytes.
const WORDS: usize = 40;

/// Writes replies.
#[derive(Drop)]
pub struct ReplyWriter {
    /// Writes what blocks hold.
    contents: script_lang::ReplyWriter,
}

impl ReplyWriter {
    ghost use Rattle.std.specs.Prelude.{OnOk, OnErr};
    ghost use Rattle.sdbt_base.specs.Faults.{Tells};
    ghost use Rattle.sdbt_base.specs.Told.{Got, GotPart};
    ghost use Rattle.script_lang.specs.Lines.{blank_line};
    ghost use Rattle.volume_lines.specs.Replies.{FitsBlock, CanWrite};

    /// A writer with a buffer of its own, of some 8 KB.
    pub fn new() -> ReplyWriter
        ensures { result.contents.line ≡ blank_line }
    {
        ReplyWriter {
            contents: script_lang::ReplyWriter::new(),
        }
    }

    /// Puts the line of a reply, whose bytes stand at the front of a buffer, with its line feed. At a fault a first part of it
    /// was put.
    pub fn write<O: Sink>(
        &mut self,
        reply: &Reply,
        buffer: &[u8; BLOCK],
        sink: &mut O,
    ) -> Result<(), SinkFault>
        requires fits { FitsBlock reply.now }
        requires trimmed { CanWrite (said reply.now buffer.now) }
        ensures put { OnOk result (Got (O.written sink.old) (line_of (said reply.now buffer.now)) (O.written sink.new)) }
        ensures part { OnErr result (GotPart (O.written sink.old) (line_of (said reply.now buffer.now)) (O.written sink.new)) }
        ensures count { O.faults sink.old ≤ O.faults sink.new }
        ensures cause { Tells result (O.faults sink.old) (O.faults sink.new) }
    {
        if let Reply::Content { count } = reply {
            let content = script_lang::Reply::Content { count: *count };
            return self.contents.write(&content, buffer, sink);
        }
        sink.put(words_line(reply).as_slice())
    }
}

/// The line of a reply that gives no content.
fn words_line(reply: &Reply) -> ArrayVec<u8, WORDS>
    requires { IsWords reply.now }
    ensures { (buffer : List ℕ) → result.items ≡ line_of (said reply.now buffer) }
{
    let mut line = ArrayVec::new();
    push_words(&mut line, reply);
    push_text(&mut line, b"\n");
    line
}

/// Puts the text of a reply that gives no content into an empty line.
#[tactic(auto, unfolding(crate::specs::Replies::text_of))]
fn push_words(line: &mut ArrayVec<u8, WORDS>, reply: &Reply)
    requires words { IsWords reply.now }
    requires empty { line.old.items ≡ [] }
    ensures text { (buffer : List ℕ) → line.new.items ≡ text_of (said reply.now buffer) }
    ensures room { length line.new.items ≤ 30 }
{
    match reply {
        Reply::Destroyed { number } => {
            push_text(line, b"destroyed ");
            push_text(line, itoa::Buffer::new().format(*number).as_bytes());
        }
        Reply::Committed { number } => {
            push_text(line, b"committed ");
            push_text(line, itoa::Buffer::new().format(*number).as_bytes());
        }
        Reply::Created => push_text(line, b"created"),
        Reply::Exists => push_text(line, b"exists"),
        Reply::NoRoom => push_text(line, b"no room"),
        Reply::Unknown => push_text(line, b"unknown"),
        Reply::Done => push_text(line, b"ok"),
        Reply::Range => push_text(line, b"range"),
        Reply::Full => push_text(line, b"full"),
        Reply::Uncommitted => push_text(line, b"destroyed uncommitted"),
        Reply::Bad => push_text(line, b"bad"),
        Reply::Content { .. } => unreachable!(),
    }
}

/// Puts a text at the end of a line that has room for it.
fn push_text(line: &mut ArrayVec<u8, WORDS>, text: &[u8])
    requires { array_vec_len line.old + length text.now ≤ 40 }
    ensures { line.new.items ≡ line.old.items ++ text.now }
{
    let _ = line.try_extend_from_slice(text);
}

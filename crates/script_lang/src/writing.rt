//! Writing replies: the line is built in a buffer of fixed size, which is used again and again.

ghost use Rattle.std.specs.Prelude.{◌≡◌, ◌+◌, ◌*◌, ◌≤◌, [], ◌++◌, length, OnOk, OnErr, IsTrue, ◌↔◌};
ghost use Rattle.hex.specs.Hex.{encode_lower};

use crate::line_buffer::LineBuffer;
use crate::replies::Reply;
use sdbt_base::{BLOCK, Sink, SinkFault};

/// Room for the hex digits of a block.
const DIGITS: usize = 8192;

/// Writes replies.
#[derive(Drop)]
pub struct ReplyWriter {
    line: LineBuffer,
}

impl ReplyWriter {
    ghost use Rattle.sdbt_base.specs.Faults.{Tells};
    ghost use Rattle.sdbt_base.specs.Told.{Got, GotPart};
    ghost use Rattle.script_lang.specs.Lines.{blank_line};
    ghost use Rattle.script_lang.specs.Replies.{line_of, text_of, said, FitsBlock, CanWrite, hex_or_dash};

    /// A writer with a buffer of its own, of some 8 KB.
    pub fn new() -> ReplyWriter
        ensures { result.line ≡ blank_line }
    {
        ReplyWriter {
            line: LineBuffer::new(),
        }
    }

    /// Leaves nothing of the lines that were written.
    pub fn wipe(&mut self)
        ensures { self.new.line ≡ blank_line }
    {
        self.line.wipe();
    }

    /// Puts the line of a reply, whose bytes stand at the front of a buffer, with its line feed. At a fault a first part of it
    /// was put.
    pub fn write<O: Sink>(
        &mut self,
        reply: &Reply,
        buffer: &[u8; BLOCK],
        sink: &mut O,
    ) -> Result<(), SinkFault>
        requires fits { FitsBlock reply.now }
        requires trimmed { CanWrite (said reply.now buffer.now) }
        ensures put { OnOk result (Got (O.written sink.old) (line_of (said reply.now buffer.now)) (O.written sink.new)) }
        ensures part { OnErr result (GotPart (O.written sink.old) (line_of (said reply.now buffer.now)) (O.written sink.new)) }
        ensures count { O.faults sink.old ≤ O.faults sink.new }
        ensures cause { Tells result (O.faults sink.old) (O.faults sink.new) }
    {
        self.line.clear();
        self.push_reply(reply, buffer);
        self.line.push(b"\n");
        sink.put(self.line.text())
    }

    /// Puts the text of a reply into an empty line.
    #[inline(always)]
    #[tactic(auto, unfolding(crate::specs::Replies::text_of))]
    fn push_reply(&mut self, reply: &Reply, buffer: &[u8; BLOCK])
        requires fits { FitsBlock reply.now }
        requires empty { self.old.line.text ≡ [] }
        ensures text { self.new.line.text ≡ text_of (said reply.now buffer.now) }
        ensures room { length self.new.line.text ≤ 8299 }
    {
        match reply {
            Reply::Mounted { number } => {
                self.line.push(b"mounted ");
                self.line.push_number(*number);
            }
            Reply::Content { count } => {
                self.line.push(b"data ");
                self.push_hex(&buffer[..*count]);
            }
            Reply::Committed { number } => {
                self.line.push(b"committed ");
                self.line.push_number(*number);
            }
            Reply::Upgraded { number } => {
                self.line.push(b"upgraded ");
                self.line.push_number(*number);
            }
            Reply::Stat { mapped, number } => {
                self.line.push(b"stat mapped ");
                self.line.push_number(*mapped);
                self.line.push(b" commit ");
                self.line.push_number(*number);
            }
            Reply::Seized {
                pages,
                nodes,
                blocks,
            } => {
                self.line.push(b"seized pages ");
                self.line.push_number(*pages);
                self.line.push(b" nodes ");
                self.line.push_number(*nodes);
                self.line.push(b" blocks ");
                self.line.push_number(*blocks);
            }
            Reply::Formatted => self.line.push(b"formatted"),
            Reply::Done => self.line.push(b"ok"),
            Reply::Dropped => self.line.push(b"dropped"),
            Reply::Erased => self.line.push(b"erased"),
            Reply::Bad => self.line.push(b"bad"),
            Reply::Unmounted => self.line.push(b"unmounted"),
            Reply::AlreadyMounted => self.line.push(b"already mounted"),
            Reply::NotEmpty => self.line.push(b"not empty"),
            Reply::NoDevice => self.line.push(b"no device"),
            Reply::AlreadyUpgraded => self.line.push(b"already upgraded"),
            Reply::Range => self.line.push(b"range"),
            Reply::Full => self.line.push(b"full"),
        }
    }

    /// Puts bytes in hex at the end of a line that has room for them, and a dash for none.
    fn push_hex(&mut self, bytes: &[u8])
        requires block { length bytes.now ≤ 4096 }
        requires room { length self.old.line.text + 8192 ≤ 8300 }
        ensures text { self.new.line.text ≡ self.old.line.text ++ hex_or_dash bytes.now }
        ensures short { length self.new.line.text ≤ length self.old.line.text + 8192 }
    {
        if bytes.is_empty() {
            self.line.push(b"-");
        } else {
            self.line.push_hex(bytes);
        }
    }
}

/// Whether a text is the hex digits of bytes, in lower case.
pub fn is_hex_of(text: &[u8], bytes: &[u8]) -> bool
    requires { length bytes.now ≤ 4096 }
    ensures { IsTrue result ↔ (text.now ≡ encode_lower bytes.now) }
{
    let mut digits = [0; DIGITS];
    let digits = &mut digits[..2 * bytes.len()];
    hex_digits::encode_lower(bytes, digits);
    let digits: &[u8] = digits;
    text == digits
}

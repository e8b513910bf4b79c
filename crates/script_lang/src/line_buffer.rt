//! A line that is built in a buffer of fixed size.

ghost use Rattle.std.specs.Prelude.{◌≡◌, ◌+◌, ◌*◌, ◌≤◌, ℕ, List, [], ◌++◌, length};
ghost use Rattle.std.specs.Fmt.{decimal};
ghost use Rattle.hex.specs.Hex.{encode_lower};
ghost use Rattle.script_lang.specs.Lines.{blank_line};

use std::marker::Model;

/// Room for each line of a reply: the longest has `data `, two digits for each byte of a block, and
/// a line feed.
const LINE: usize = 8300;

/// The text of a line, of at most `LINE` bytes.
#[derive(Drop)]
pub(crate) struct LineBuffer {
    bytes: [u8; LINE],
    len: usize,
    // the greatest length of a line that was cleared
    used: usize,
}

impl Model for LineBuffer {
    ghost use Rattle.script_lang.specs.Lines.{IsRoom, Line, line_in};

    ghost Value = { Line };

    ghost view = { λ l. line_in l.len l.bytes };

    // Behind the line, and behind those that were cleared, nothing was ever written.
    ghost invariant = { λ l. IsRoom l.len l.used l.bytes };
}

impl LineBuffer {
    /// An empty line.
    pub(crate) fn new() -> LineBuffer
        ensures { result ≡ blank_line }
    {
        LineBuffer {
            bytes: [0; LINE],
            len: 0,
            used: 0,
        }
    }

    /// The text of the line.
    pub(crate) fn text(&self) -> &[u8]
        ensures { result.now ≡ self.now.text }
    {
        &self.bytes[..self.len]
    }

    /// Makes the line empty.
    pub(crate) fn clear(&mut self)
        ensures { self.new.text ≡ [] }
    {
        if self.used < self.len {
            self.used = self.len;
        }
        self.len = 0;
    }

    /// Makes the line empty, and leaves nothing of it nor of those before it.
    pub(crate) fn wipe(&mut self)
        ensures { self.new ≡ blank_line }
    {
        self.clear();
        self.bytes[..self.used].fill(0);
        self.used = 0;
    }

    /// Puts a text at the end of a line that has room for it.
    pub(crate) fn push(&mut self, text: &[u8])
        requires { length self.old.text + length text.now ≤ 8300 }
        ensures { self.new.text ≡ self.old.text ++ text.now }
    {
        let end = self.len + text.len();
        self.bytes[self.len..end].copy_from_slice(text);
        self.len = end;
    }

    /// Puts the decimal digits of a number at the end of a line that has room for 20.
    pub(crate) fn push_number(&mut self, number: u64)
        requires { length self.old.text + 20 ≤ 8300 }
        ensures text { self.new.text ≡ self.old.text ++ decimal number }
        ensures short { length self.new.text ≤ length self.old.text + 20 }
    {
        let end = self.len + count_digits(number);
        itoa::write_digits(number, &mut self.bytes, end);
        self.len = end;
    }

    /// Puts the lower-case hex digits of bytes at the end of a line that has room for them.
    pub(crate) fn push_hex(&mut self, bytes: &[u8])
        requires { length self.old.text + 2 * length bytes.now ≤ 8300 }
        ensures text { self.new.text ≡ self.old.text ++ encode_lower bytes.now }
        ensures len { length self.new.text ≡ length self.old.text + 2 * length bytes.now }
    {
        let end = self.len + 2 * bytes.len();
        hex_digits::encode_lower(bytes, &mut self.bytes[self.len..end]);
        self.len = end;
    }
}

/// How many decimal digits a number has.
fn count_digits(number: u64) -> usize
    ensures { result ≡ length (decimal number) }
{
    match number.checked_ilog10() {
        Some(power) => power as usize + 1,
        None => 1,
    }
}

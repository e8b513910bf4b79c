//! The bytes of a line whose line feed has not come yet.
ghost use Rattle.std.specs.Prelude.{◌≡◌, ◌↔◌, ℕ, List, [], ◌++◌, None, Some, IsTrue, option_copied};
ghost use Rattle.line_run.specs.Pending.{IsPending};

use std::marker::Model;

/// The greatest length of a line whose bytes stay. No longer line is in the grammar.
const MAX_LINE: usize = 8300;

/// What has come of a line: its bytes, or only that there are more than `MAX_LINE` of them.
#[derive(Drop)]
pub struct Pending {
    bytes: [u8; MAX_LINE],
    len: usize,
    is_overlong: bool,
}

impl Model for Pending {
    ghost use Rattle.std.specs.Prelude.{◌≡◌, ◌≤◌, ℕ, List, [], None, Some, Option, IsTrue, take, if◌then◌else◌};

    ghost Value = { Option (List ℕ) };

    ghost view = { λ p. if p.is_overlong then None else Some (take p.len p.bytes) };

    ghost invariant = { λ p. p.len ≤ 8300 };
}

impl Pending {
    ghost use Rattle.std.specs.Borrow.{sem};
    ghost use Rattle.std.specs.Io.BufRead.{Rests};
    ghost use Rattle.line_run.specs.contracts.pending.Pending.{the_row};
    ghost use Rattle.line_run.specs.Uncopied.{IsUncopied};

    /// Nothing of a line.
    pub fn new() -> Pending
        ensures { IsPending result [] }
    {
        Pending {
            bytes: [0; MAX_LINE],
            len: 0,
            is_overlong: false,
        }
    }

    /// Whether nothing of a line has come.
    pub fn is_empty(&self) -> bool
        ensures { (line : List ℕ) → IsPending self.now line → IsTrue result ↔ (line ≡ []) }
    {
        self.len == 0 && !self.is_overlong
    }

    /// More bytes of the line. Those of a line that grows past `MAX_LINE` are let go.
    pub fn push(&mut self, piece: &[u8])
        ensures { (line : List ℕ) → IsPending self.old line → IsPending self.new (line ++ piece.now) }
    {
        if self.is_overlong || piece.len() > MAX_LINE - self.len {
            self.is_overlong = true;
            return;
        }
        let end = self.len + piece.len();
        self.bytes[self.len..end].copy_from_slice(piece);
        self.len = end;
    }

    /// The bytes of the line, or None where there are more than `MAX_LINE`.
    pub fn line(&self) -> Option<&[u8]>
        ensures { option_copied result ≡ self.now }
    {
        if self.is_overlong {
            None
        } else {
            Some(&self.bytes[..self.len])
        }
    }

    /// The bytes of the line, which ends with these, or None where there are more than `MAX_LINE`. A line of which nothing had come
    /// is not copied.
    pub fn complete<'a>(&'a mut self, end: &'a [u8]) -> Option<&'a [u8]>
        ensures line { (line : List ℕ) → IsPending self.old line → IsPending (option_copied result) (line ++ end.now) }
        // What is kept behind it, once the bytes that it answers are let go.
        ensures* kept { sem 𝓛 (Rests the_row self.entry (IsUncopied end.now self.old)) }
    {
        if self.is_empty() && end.len() <= MAX_LINE {
            return Some(end);
        }
        self.push(end);
        self.line()
    }

    /// Nothing of the next line yet.
    pub fn clear(&mut self)
        ensures { IsPending self.new [] }
    {
        self.len = 0;
        self.is_overlong = false;
    }
}

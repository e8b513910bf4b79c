//! The words of a row's lines.
use sdbt_base::Memory;
use std::alloc::{AllocError, AllocFailed};
use std::str::SplitWhitespace;

/// Why a line of a row can't be done.
#[derive(Clone, Copy, Debug, PartialEq, Eq)]
pub enum LineFault {
    /// It is none of a row's lines.
    Unknown,
    /// No memory was given.
    Memory,
}

impl From<Memory> for LineFault {
    fn from(_: Memory) -> LineFault {
        LineFault::Memory
    }
}

impl From<medium_trace::Memory> for LineFault {
    fn from(_: medium_trace::Memory) -> LineFault {
        LineFault::Memory
    }
}

impl From<AllocError> for LineFault {
    fn from(_: AllocError) -> LineFault {
        LineFault::Memory
    }
}

impl<T: Drop> From<AllocFailed<T>> for LineFault {
    fn from(_failed: AllocFailed<T>) -> LineFault {
        LineFault::Memory
    }
}

/// The next word.
pub fn word<'a>(words: &mut SplitWhitespace<'a>) -> Result<&'a str, LineFault> {
    words.next().ok_or(LineFault::Unknown)
}

/// The next word, which is a number.
pub fn number(words: &mut SplitWhitespace<'_>) -> Result<u64, LineFault> {
    word(words)?.parse().ok().ok_or(LineFault::Unknown)
}

/// The next word, which is a byte.
pub fn byte(words: &mut SplitWhitespace<'_>) -> Result<u8, LineFault> {
    word(words)?.parse().ok().ok_or(LineFault::Unknown)
}

/// There are no more words.
pub fn end(words: &mut SplitWhitespace<'_>) -> Result<(), LineFault> {
    match words.next() {
        Some(_) => Err(LineFault::Unknown),
        None => Ok(()),
    }
}

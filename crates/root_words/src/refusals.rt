//! Why a word stands for no root record.

ghost use Rattle.std.specs.Prelude.{◌≡◌};
ghost use Rattle.root_words.specs.declared.refusals.NotSpelled.TheVariants.{Memory};

use std::alloc::AllocError;
use std::{fmt, io};

/// Why a file gives no root record.
#[derive(Debug, Drop)]
pub enum NoRecord {
    /// It can't be opened, or not be read to its end.
    Io(io::Error),
    /// It doesn't have 128 bytes.
    Length,
}

/// Why the words of a command line can't be handed on.
#[derive(Debug, Drop)]
pub enum NotSpelled<'a> {
    /// The file of this name gives no root record.
    File { name: &'a str, why: NoRecord },
    /// No memory was given.
    Memory,
}

impl fmt::Display for NoRecord {
    ghost use Rattle.root_words.specs.Texts.{no_record_text};

    ghost output = { no_record_text };

    fn fmt<W: fmt::Write>(&self, f: &mut fmt::Formatter<W>) -> fmt::Result {
        match self {
            NoRecord::Io(error) => write!(f, "{error}"),
            NoRecord::Length => write!(f, "a root record has 128 bytes, and this file hasn't"),
        }
    }
}

impl From<AllocError> for NotSpelled<'_> {
    ghost from_gives = { λ error told. told ≡ Memory };

    fn from(_error: AllocError) -> Self {
        NotSpelled::Memory
    }
}

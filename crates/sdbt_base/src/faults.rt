//! The answers of a call that could not be done.

ghost use Rattle.std.specs.Prelude.{Some, codes};

use std::alloc::{AllocError, AllocFailed};
use std::error::Error;
use std::fmt;

/// No memory was given. It is the one answer that has no cause in a contract.
#[derive(Clone, Copy, Debug, PartialEq, Eq)]
pub struct Memory;

/// A source could not be read.
#[derive(Clone, Copy, Debug, PartialEq, Eq)]
pub struct SourceFault;

/// A sink could not be written, or not whole.
#[derive(Clone, Copy, Debug, PartialEq, Eq)]
pub struct SinkFault;

/// A tape gave no key.
#[derive(Clone, Copy, Debug, PartialEq, Eq)]
pub struct TapeFault;

/// The medium or the root cell failed.
#[derive(Clone, Copy, Debug, PartialEq, Eq)]
pub struct PlatformFault;

impl fmt::Display for Memory {
    ghost output = { λ _. Some (codes "out of memory") };

    fn fmt<W: fmt::Write>(&self, f: &mut fmt::Formatter<W>) -> fmt::Result {
        write!(f, "out of memory")
    }
}

impl fmt::Display for SourceFault {
    ghost output = { λ _. Some (codes "the input could not be read") };

    fn fmt<W: fmt::Write>(&self, f: &mut fmt::Formatter<W>) -> fmt::Result {
        write!(f, "the input could not be read")
    }
}

impl fmt::Display for SinkFault {
    ghost output = { λ _. Some (codes "the output could not be written") };

    fn fmt<W: fmt::Write>(&self, f: &mut fmt::Formatter<W>) -> fmt::Result {
        write!(f, "the output could not be written")
    }
}

impl fmt::Display for TapeFault {
    ghost output = { λ _. Some (codes "no key could be drawn") };

    fn fmt<W: fmt::Write>(&self, f: &mut fmt::Formatter<W>) -> fmt::Result {
        write!(f, "no key could be drawn")
    }
}

impl fmt::Display for PlatformFault {
    ghost output = { λ _. Some (codes "the medium or the root cell failed") };

    fn fmt<W: fmt::Write>(&self, f: &mut fmt::Formatter<W>) -> fmt::Result {
        write!(f, "the medium or the root cell failed")
    }
}

impl Error for Memory {}

impl Error for SourceFault {}

impl Error for SinkFault {}

impl Error for TapeFault {}

impl Error for PlatformFault {}

impl From<AllocError> for Memory {
    fn from(_: AllocError) -> Memory {
        Memory
    }
}

impl<T: Drop> From<AllocFailed<T>> for Memory {
    fn from(_failed: AllocFailed<T>) -> Memory {
        Memory
    }
}

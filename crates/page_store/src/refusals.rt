use std::error::Error;
use std::fmt;

/// Why no root was answered.
#[derive(Clone, Copy, Debug, PartialEq, Eq)]
pub enum CurrentRefusal {
    /// The cell is full, and what it holds is no root record, or one of more pages than there are.
    BadRoot,
    /// The platform failed.
    PlatformFault,
}

/// Why no record was answered.
#[derive(Clone, Copy, Debug, PartialEq, Eq)]
pub enum FetchRefusal {
    /// What was read at the address is not the record that was wanted there.
    BadRecord {
        /// The address.
        addr: u64,
    },
    /// The platform failed.
    PlatformFault,
}

/// Why no record was appended.
#[derive(Clone, Copy, Debug, PartialEq, Eq)]
pub enum AppendFault {
    /// No key was drawn, so nothing was handed over.
    TapeFault,
    /// The platform failed. The page may have been handed over.
    PlatformFault,
}

impl fmt::Display for CurrentRefusal {
    ghost use Rattle.std.specs.Prelude.{Some};
    ghost use Rattle.page_store.specs.Texts.{current_text};

    ghost output = { λ refusal. Some (current_text refusal) };

    fn fmt<W: fmt::Write>(&self, f: &mut fmt::Formatter<W>) -> fmt::Result {
        match self {
            CurrentRefusal::BadRoot => write!(f, "bad root"),
            CurrentRefusal::PlatformFault => write!(f, "the medium or the root cell failed"),
        }
    }
}

impl fmt::Display for FetchRefusal {
    ghost use Rattle.std.specs.Prelude.{Some};
    ghost use Rattle.page_store.specs.Texts.{fetch_text};

    ghost output = { λ refusal. Some (fetch_text refusal) };

    fn fmt<W: fmt::Write>(&self, f: &mut fmt::Formatter<W>) -> fmt::Result {
        match self {
            FetchRefusal::BadRecord { addr } => write!(f, "bad record {addr}"),
            FetchRefusal::PlatformFault => write!(f, "the medium or the root cell failed"),
        }
    }
}

impl fmt::Display for AppendFault {
    ghost use Rattle.std.specs.Prelude.{Some};
    ghost use Rattle.page_store.specs.Texts.{append_text};

    ghost output = { λ fault. Some (append_text fault) };

    fn fmt<W: fmt::Write>(&self, f: &mut fmt::Formatter<W>) -> fmt::Result {
        match self {
            AppendFault::TapeFault => write!(f, "no key could be drawn"),
            AppendFault::PlatformFault => write!(f, "the medium or the root cell failed"),
        }
    }
}

impl Error for CurrentRefusal {}

impl Error for FetchRefusal {}

impl Error for AppendFault {}

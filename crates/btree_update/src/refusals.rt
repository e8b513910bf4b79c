use page_store::FetchRefusal;
use std::alloc::{AllocError, AllocFailed};
use std::error::Error;
use std::fmt;

/// Why not all is at hand that an update may need.
#[derive(Clone, Copy, Debug, PartialEq, Eq)]
pub enum ReadyRefusal {
    /// What was read at the address is not the node that was wanted there.
    BadRecord {
        /// The address.
        addr: u64,
    },
    /// The platform failed.
    PlatformFault,
    /// There was no memory.
    Memory,
}

impl From<FetchRefusal> for ReadyRefusal {
    ghost use Rattle.std.specs.Prelude.{◌≡◌};
    ghost use Rattle.btree_update.specs.Refusals.{refused};

    ghost from_gives = { λ fetch ready. ready ≡ refused fetch };

    fn from(fetch: FetchRefusal) -> ReadyRefusal {
        match fetch {
            FetchRefusal::BadRecord { addr } => ReadyRefusal::BadRecord { addr },
            FetchRefusal::PlatformFault => ReadyRefusal::PlatformFault,
        }
    }
}

impl From<AllocError> for ReadyRefusal {
    ghost use Rattle.std.specs.Prelude.{◌≡◌};
    ghost use Rattle.btree_update.specs.declared.refusals.ReadyRefusal.{ReadyRefusal};

    ghost from_gives = { λ refused ready. ready ≡ ReadyRefusal.Memory };

    fn from(_: AllocError) -> ReadyRefusal {
        ReadyRefusal::Memory
    }
}

impl<T: Drop> From<AllocFailed<T>> for ReadyRefusal {
    ghost use Rattle.std.specs.Prelude.{◌≡◌};
    ghost use Rattle.btree_update.specs.declared.refusals.ReadyRefusal.{ReadyRefusal};

    ghost from_gives = { λ refused ready. ready ≡ ReadyRefusal.Memory };

    fn from(_: AllocFailed<T>) -> ReadyRefusal {
        ReadyRefusal::Memory
    }
}

impl fmt::Display for ReadyRefusal {
    ghost use Rattle.std.specs.Prelude.{Some};
    ghost use Rattle.btree_update.specs.Texts.{ready_text};

    ghost output = { λ refusal. Some (ready_text refusal) };

    fn fmt<W: fmt::Write>(&self, f: &mut fmt::Formatter<W>) -> fmt::Result {
        match self {
            ReadyRefusal::BadRecord { addr } => write!(f, "bad record {addr}"),
            ReadyRefusal::PlatformFault => write!(f, "the medium or the root cell failed"),
            ReadyRefusal::Memory => write!(f, "out of memory"),
        }
    }
}

impl Error for ReadyRefusal {}

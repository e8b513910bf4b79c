ghost use Rattle.btree_walk.specs.Refusals.{refused};

use page_store::FetchRefusal;
use sdbt_base::Memory;
use std::error::Error;
use std::fmt;

/// Why a tree was not listed.
#[derive(Clone, Copy, Debug, PartialEq, Eq)]
pub enum WalkRefusal {
    /// What was read at the address is not the node that was wanted there.
    BadRecord {
        /// The address.
        addr: u64,
    },
    /// The platform failed.
    PlatformFault,
    /// No memory was given for the list.
    Memory,
}

impl From<FetchRefusal> for WalkRefusal {
    ghost use Rattle.std.specs.Prelude.{◌≡◌};
    ghost use Rattle.btree_walk.specs.Refusals.{refused};

    ghost from_gives = { λ fetch walk. walk ≡ refused fetch };

    fn from(fetch: FetchRefusal) -> WalkRefusal {
        match fetch {
            FetchRefusal::BadRecord { addr } => WalkRefusal::BadRecord { addr },
            FetchRefusal::PlatformFault => WalkRefusal::PlatformFault,
        }
    }
}

impl From<Memory> for WalkRefusal {
    ghost use Rattle.std.specs.Prelude.{◌≡◌};
    ghost use Rattle.btree_walk.specs.declared.refusals.WalkRefusal.{WalkRefusal};

    ghost from_gives = { λ memory walk. walk ≡ WalkRefusal.Memory };

    fn from(_: Memory) -> WalkRefusal {
        WalkRefusal::Memory
    }
}

impl fmt::Display for WalkRefusal {
    ghost use Rattle.std.specs.Prelude.{Some};
    ghost use Rattle.btree_walk.specs.Texts.{walk_text};

    ghost output = { λ refusal. Some (walk_text refusal) };

    fn fmt<W: fmt::Write>(&self, f: &mut fmt::Formatter<W>) -> fmt::Result {
        match self {
            WalkRefusal::BadRecord { addr } => write!(f, "bad record {addr}"),
            WalkRefusal::PlatformFault => write!(f, "the medium or the root cell failed"),
            WalkRefusal::Memory => write!(f, "out of memory"),
        }
    }
}

impl Error for WalkRefusal {}

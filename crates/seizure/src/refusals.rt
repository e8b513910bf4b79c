//! Why there is no report.
use page_store::CurrentRefusal;
use sdbt_base::{Memory, PlatformFault};
use thiserror::Error;

/// Why there is no report.
#[derive(Clone, Copy, Debug, PartialEq, Eq, Error)]
pub enum SeizeRefusal {
    /// The cell is full, and what it holds is no root record, or one of more pages than there are.
    #[error("bad root")]
    BadRoot,
    /// The platform failed.
    #[error("the medium or the root cell failed")]
    PlatformFault,
    /// No memory was given.
    #[error("out of memory")]
    Memory,
}

impl From<Memory> for SeizeRefusal {
    ghost use Rattle.std.specs.Prelude.{◌≡◌};
    ghost use Rattle.seizure.specs.declared.refusals.SeizeRefusal.{SeizeRefusal};

    ghost from_gives = { λ memory refusal. refusal ≡ SeizeRefusal.Memory };

    fn from(_: Memory) -> SeizeRefusal {
        SeizeRefusal::Memory
    }
}

impl From<PlatformFault> for SeizeRefusal {
    ghost use Rattle.std.specs.Prelude.{◌≡◌};
    ghost use Rattle.seizure.specs.declared.refusals.SeizeRefusal.{SeizeRefusal};

    ghost from_gives = { λ fault refusal. refusal ≡ SeizeRefusal.PlatformFault };

    fn from(_: PlatformFault) -> SeizeRefusal {
        SeizeRefusal::PlatformFault
    }
}

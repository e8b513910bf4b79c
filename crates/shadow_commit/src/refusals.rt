use page_store::AppendFault;
use sdbt_base::Memory;
use std::alloc::AllocError;
use std::error::Error;
use std::fmt;

/// Why a commit was not prepared.
#[derive(Clone, Copy, Debug, PartialEq, Eq)]
pub enum CommitRefusal {
    /// There are more nodes in memory than free pages. Nothing was begun.
    Full {
        /// How many nodes are in memory.
        needed: u64,
        /// How many pages are free.
        free: u64,
    },
    /// No memory was given. Nothing was begun.
    Memory,
    /// No key was drawn. Pages may have been handed over.
    TapeFault,
    /// The platform failed. Pages may have been handed over.
    PlatformFault,
}

impl From<Memory> for CommitRefusal {
    ghost use Rattle.std.specs.Prelude.{◌≡◌};
    ghost use Rattle.shadow_commit.specs.declared.refusals.CommitRefusal.{CommitRefusal};

    ghost from_gives = { λ memory refusal. refusal ≡ CommitRefusal.Memory };

    fn from(_: Memory) -> CommitRefusal {
        CommitRefusal::Memory
    }
}

impl From<AllocError> for CommitRefusal {
    ghost use Rattle.std.specs.Prelude.{◌≡◌};
    ghost use Rattle.shadow_commit.specs.declared.refusals.CommitRefusal.{CommitRefusal};

    ghost from_gives = { λ memory refusal. refusal ≡ CommitRefusal.Memory };

    fn from(_: AllocError) -> CommitRefusal {
        CommitRefusal::Memory
    }
}

impl From<AppendFault> for CommitRefusal {
    ghost use Rattle.std.specs.Prelude.{◌≡◌};
    ghost use Rattle.shadow_commit.specs.Refusals.{refused};

    ghost from_gives = { λ fault refusal. refusal ≡ refused fault };

    fn from(fault: AppendFault) -> CommitRefusal {
        match fault {
            AppendFault::TapeFault => CommitRefusal::TapeFault,
            AppendFault::PlatformFault => CommitRefusal::PlatformFault,
        }
    }
}

impl fmt::Display for CommitRefusal {
    ghost use Rattle.std.specs.Prelude.{Some};
    ghost use Rattle.shadow_commit.specs.Texts.{commit_text};

    ghost output = { λ refusal. Some (commit_text refusal) };

    fn fmt<W: fmt::Write>(&self, f: &mut fmt::Formatter<W>) -> fmt::Result {
        match self {
            CommitRefusal::Full { needed, free } => {
                write!(f, "{needed} pages are needed and {free} are free")
            }
            CommitRefusal::Memory => write!(f, "out of memory"),
            CommitRefusal::TapeFault => write!(f, "no key could be drawn"),
            CommitRefusal::PlatformFault => write!(f, "the medium or the root cell failed"),
        }
    }
}

impl Error for CommitRefusal {}

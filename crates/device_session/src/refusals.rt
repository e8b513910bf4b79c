//! What a session answers where a call wasn't done, and to a commit.
use page_store::{CurrentRefusal, FetchRefusal};
use sdbt_base::{Memory, PlatformFault};
use thiserror::Error;

/// Why no session was opened.
#[derive(Clone, Copy, Debug, PartialEq, Eq, Drop, Error)]
pub enum MountRefusal {
    /// There is no device.
    #[error("no device")]
    NoDevice,
    /// The root cell holds no root record that can be served.
    #[error("bad root")]
    BadRoot,
    /// The platform failed.
    #[error("the medium or the root cell failed")]
    PlatformFault,
    /// No memory was given.
    #[error("out of memory")]
    Memory,
}

/// Why a block was not read.
#[derive(Clone, Copy, Debug, PartialEq, Eq, Drop, Error)]
pub enum ReadRefusal {
    /// The device has no such block.
    #[error("there is no such block")]
    Range,
    /// The page at this address is not the record that belongs there.
    #[error("bad record {addr}")]
    BadRecord {
        /// The address.
        addr: u64,
    },
    /// The platform failed.
    #[error("the medium or the root cell failed")]
    PlatformFault,
}

/// Why a block was not written.
#[derive(Clone, Copy, Debug, PartialEq, Eq, Drop, Error)]
pub enum WriteRefusal {
    /// The device has no such block.
    #[error("there is no such block")]
    Range,
    /// The medium has no free page.
    #[error("the medium has no free page")]
    Full,
    /// No memory was given.
    #[error("out of memory")]
    Memory,
    /// The page at this address is not the record that belongs there, or it is the root node's and the
    /// tree has another number of entries than the root record says.
    #[error("bad record {addr}")]
    BadRecord {
        /// The address.
        addr: u64,
    },
    /// The platform failed.
    #[error("the medium or the root cell failed")]
    PlatformFault,
    /// No key was drawn.
    #[error("no key could be drawn")]
    TapeFault,
}

/// Why a block was not trimmed.
#[derive(Clone, Copy, Debug, PartialEq, Eq, Drop, Error)]
pub enum TrimRefusal {
    /// The device has no such block.
    #[error("there is no such block")]
    Range,
    /// No memory was given.
    #[error("out of memory")]
    Memory,
    /// The page at this address is not the record that belongs there, or it is the root node's and the
    /// tree has another number of entries than the root record says.
    #[error("bad record {addr}")]
    BadRecord {
        /// The address.
        addr: u64,
    },
    /// The platform failed.
    #[error("the medium or the root cell failed")]
    PlatformFault,
}

/// What a commit answers that did not fail.
#[derive(Clone, Copy, Debug, PartialEq, Eq)]
pub enum CommitReply {
    /// The session's changes are the device's.
    Committed {
        /// The commit number of the device now.
        number: u64,
    },
    /// The medium has fewer free pages than the commit needs. Nothing changed.
    Full {
        /// How many pages the commit needs.
        needed: u64,
        /// How many pages are free.
        free: u64,
    },
}

/// Why a commit failed. The session is over.
#[derive(Clone, Copy, Debug, PartialEq, Eq, Drop, Error)]
pub enum CommitFault {
    /// The platform failed.
    #[error("the medium or the root cell failed")]
    PlatformFault,
    /// No key was drawn.
    #[error("no key could be drawn")]
    TapeFault,
    /// The ledger failed.
    #[error("the ledger could not be written")]
    LedgerFault,
    /// No memory was given.
    #[error("out of memory")]
    Memory,
}

impl From<CurrentRefusal> for MountRefusal {
    ghost use Rattle.std.specs.Prelude.{◌≡◌};
    ghost use Rattle.device_session.specs.Refusals.{mount_refused};

    ghost from_gives = { λ current mount. mount ≡ mount_refused current };

    fn from(current: CurrentRefusal) -> MountRefusal {
        match current {
            CurrentRefusal::BadRoot => MountRefusal::BadRoot,
            CurrentRefusal::PlatformFault => MountRefusal::PlatformFault,
        }
    }
}

impl From<Memory> for MountRefusal {
    ghost use Rattle.std.specs.Prelude.{◌≡◌};
    ghost use Rattle.device_session.specs.declared.refusals.MountRefusal.{MountRefusal};

    ghost from_gives = { λ memory mount. mount ≡ MountRefusal.Memory };

    fn from(_: Memory) -> MountRefusal {
        MountRefusal::Memory
    }
}

impl From<FetchRefusal> for ReadRefusal {
    ghost use Rattle.std.specs.Prelude.{◌≡◌};
    ghost use Rattle.device_session.specs.Refusals.{read_refused};

    ghost from_gives = { λ fetch read. read ≡ read_refused fetch };

    fn from(fetch: FetchRefusal) -> ReadRefusal {
        match fetch {
            FetchRefusal::BadRecord { addr } => ReadRefusal::BadRecord { addr },
            FetchRefusal::PlatformFault => ReadRefusal::PlatformFault,
        }
    }
}

impl From<PlatformFault> for CommitFault {
    ghost use Rattle.std.specs.Prelude.{◌≡◌};
    ghost use Rattle.device_session.specs.declared.refusals.CommitFault.{CommitFault};

    ghost from_gives = { λ fault commit. commit ≡ CommitFault.PlatformFault };

    fn from(_: PlatformFault) -> CommitFault {
        CommitFault::PlatformFault
    }
}

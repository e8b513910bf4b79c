//! Why a device was not made, not upgraded, or not erased.
use crate::copying::CopyRefusal;
use crate::publishing::PublishFault;
use btree_walk::WalkRefusal;
use page_store::{AppendFault, CurrentRefusal};
use sdbt_base::Memory;
use thiserror::Error;

/// Why no device was made.
#[derive(Clone, Copy, Debug, PartialEq, Eq, Drop, Error)]
pub enum FormatRefusal {
    /// There is a device already.
    #[error("there is a device already")]
    NotEmpty,
    /// The medium has no free page.
    #[error("the medium has no free page")]
    Full,
    /// No memory was given.
    #[error("out of memory")]
    Memory,
    /// No key was drawn.
    #[error("no key could be drawn")]
    TapeFault,
    /// The platform failed.
    #[error("the medium or the root cell failed")]
    PlatformFault,
    /// The ledger failed.
    #[error("the ledger could not be written")]
    LedgerFault,
}

/// Why a device was not upgraded.
#[derive(Clone, Copy, Debug, PartialEq, Eq, Drop, Error)]
pub enum UpgradeRefusal {
    /// There is no device.
    #[error("no device")]
    NoDevice,
    /// The root cell holds no root record that can be served.
    #[error("bad root")]
    BadRoot,
    /// The device is of version 2.
    #[error("the device is of version 2 already")]
    AlreadyUpgraded,
    /// The medium has fewer free pages than the upgrade needs.
    #[error("{needed} pages are needed and {free} are free")]
    Full {
        /// One page for each mapped block, and one for each node over them.
        needed: u64,
        /// How many pages are free.
        free: u64,
    },
    /// The page at this address is not the record that belongs there, or it is the root node's and the
    /// tree has another number of entries than the root record says.
    #[error("bad record {addr}")]
    BadRecord {
        /// The address.
        addr: u64,
    },
    /// No memory was given.
    #[error("out of memory")]
    Memory,
    /// No key was drawn.
    #[error("no key could be drawn")]
    TapeFault,
    /// The platform failed.
    #[error("the medium or the root cell failed")]
    PlatformFault,
    /// The ledger failed.
    #[error("the ledger could not be written")]
    LedgerFault,
}

impl From<CurrentRefusal> for UpgradeRefusal {
    ghost use Rattle.std.specs.Prelude.{◌≡◌};
    ghost use Rattle.device_core.specs.Surveying.{unseen};

    ghost from_gives = { λ refusal upgrade. upgrade ≡ unseen refusal };

    fn from(refusal: CurrentRefusal) -> UpgradeRefusal {
        match refusal {
            CurrentRefusal::BadRoot => UpgradeRefusal::BadRoot,
            CurrentRefusal::PlatformFault => UpgradeRefusal::PlatformFault,
        }
    }
}

impl From<WalkRefusal> for UpgradeRefusal {
    ghost use Rattle.std.specs.Prelude.{◌≡◌};
    ghost use Rattle.device_core.specs.Surveying.{unlisted};

    ghost from_gives = { λ refusal upgrade. upgrade ≡ unlisted refusal };

    fn from(refusal: WalkRefusal) -> UpgradeRefusal {
        match refusal {
            WalkRefusal::BadRecord { addr } => UpgradeRefusal::BadRecord { addr },
            WalkRefusal::PlatformFault => UpgradeRefusal::PlatformFault,
            WalkRefusal::Memory => UpgradeRefusal::Memory,
        }
    }
}

impl From<Memory> for UpgradeRefusal {
    ghost use Rattle.std.specs.Prelude.{◌≡◌};
    ghost use Rattle.device_core.specs.declared.refusals.UpgradeRefusal.{UpgradeRefusal};

    ghost from_gives = { λ memory upgrade. upgrade ≡ UpgradeRefusal.Memory };

    fn from(_: Memory) -> UpgradeRefusal {
        UpgradeRefusal::Memory
    }
}

impl From<CopyRefusal> for UpgradeRefusal {
    ghost use Rattle.std.specs.Prelude.{◌≡◌};
    ghost use Rattle.device_core.specs.Rewriting.{uncopied};

    ghost from_gives = { λ refusal upgrade. upgrade ≡ uncopied refusal };

    fn from(refusal: CopyRefusal) -> UpgradeRefusal {
        match refusal {
            CopyRefusal::BadRecord { addr } => UpgradeRefusal::BadRecord { addr },
            CopyRefusal::TapeFault => UpgradeRefusal::TapeFault,
            CopyRefusal::PlatformFault => UpgradeRefusal::PlatformFault,
        }
    }
}

impl From<AppendFault> for UpgradeRefusal {
    ghost use Rattle.std.specs.Prelude.{◌≡◌};
    ghost use Rattle.device_core.specs.Rewriting.{unbuilt};

    ghost from_gives = { λ fault upgrade. upgrade ≡ unbuilt fault };

    fn from(fault: AppendFault) -> UpgradeRefusal {
        match fault {
            AppendFault::TapeFault => UpgradeRefusal::TapeFault,
            AppendFault::PlatformFault => UpgradeRefusal::PlatformFault,
        }
    }
}

impl From<PublishFault> for UpgradeRefusal {
    ghost use Rattle.std.specs.Prelude.{◌≡◌};
    ghost use Rattle.device_core.specs.Rewriting.{unpublished};

    ghost from_gives = { λ fault upgrade. upgrade ≡ unpublished fault };

    fn from(fault: PublishFault) -> UpgradeRefusal {
        match fault {
            PublishFault::Ledger => UpgradeRefusal::LedgerFault,
            PublishFault::Platform => UpgradeRefusal::PlatformFault,
        }
    }
}

/// Why no device was erased.
#[derive(Clone, Copy, Debug, PartialEq, Eq, Drop, Error)]
pub enum EraseRefusal {
    /// There is no device.
    #[error("no device")]
    NoDevice,
    /// The platform failed.
    #[error("the medium or the root cell failed")]
    PlatformFault,
}

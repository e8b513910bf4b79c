//! The cell of a root record in an index of a TPM: 128 bytes of its non-volatile memory, which one command replaces, and
//! no command gives back after that.
//!
//! Never written, or 128 zeros, it is an empty cell. Each replacement is read back before it is answered.
#![tactic(auto)]

mod faults;
mod in_tpm;
mod look_in_tpm;
mod opening;
mod std_tpm;
mod tpm_calls;
mod tpm_cell;

pub use faults::{CellRefusal, TpmFault};
pub use in_tpm::InTpm;
pub use look_in_tpm::LookInTpm;
pub use opening::{TPM_DEVICE, TpmNotReady, open_in_tpm, view_in_tpm};
pub use std_tpm::{StdTpm, open_tpm};
pub use tpm_calls::TpmCalls;
pub use tpm_cell::TpmCell;

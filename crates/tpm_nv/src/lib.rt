//! Commands to the non-volatile memory of a TPM 2.0 and the replies to them, as bytes: what an index
//! is, what its 128 bytes are, and new ones in their place. Nothing is sent here.
//!
//! The source is the Trusted Platform Module Library: part 2 for the structures (TPMS_NV_PUBLIC,
//! TPMA_NV, TPMS_AUTH_COMMAND), part 3 for the commands (TPM2_NV_ReadPublic, TPM2_NV_Read,
//! TPM2_NV_Write). All numbers have their highest byte first.
#![tactic(auto)]

mod attributes;
mod cells;
mod commands;
mod contents;
mod fields;
mod heads;
mod index;
mod laws;
mod public;

pub use attributes::Attribute;
pub use cells::{BadIndex, OnTpm, parse_cell};
pub use commands::{
    DATA, READ_COMMAND, READ_PUBLIC_COMMAND, WRITE_COMMAND, put_read, put_read_public, put_write,
};
pub use contents::{Content, read_data, read_written};
pub use heads::{Failure, HEAD, Head, REPLY, read_head};
pub use index::Index;
pub use laws::one_spelling;
pub use public::{Fault, Public, Refusal, read_public};

//! Why an index can't be a cell, and why one failed.
ghost use Rattle.std.specs.Prelude.{◌≡◌};
ghost use Rattle.std.specs.Option.{option_map};
ghost use Rattle.tpm_cell.specs.Texts.{reason_text, word_text};

use std::error::Error;
use std::{fmt, io};
use tpm_nv::{Attribute, Failure, Fault};

/// Why a call on a cell in a TPM failed.
#[derive(Clone, Copy, Debug)]
pub enum TpmFault {
    /// The command could not be sent, or no reply came.
    Io(io::Error),
    /// The reply is none of those that were waited for.
    Reply(Failure),
    /// The index holds something else than was written to it.
    Unkept,
}

/// Why an index of a TPM can't be a cell.
#[derive(Clone, Copy, Debug)]
pub enum CellRefusal {
    /// The device file can't be opened.
    Io(io::Error),
    /// The file is no character device, so no TPM is behind it.
    NoDevice,
    /// There is no index of this handle.
    Absent(u32),
    /// The index is none in which a root record can stand.
    Unusable(Fault),
    /// The TPM didn't say what the index is, or what it holds.
    Failed(TpmFault),
}

impl fmt::Display for TpmFault {
    ghost use Rattle.tpm_cell.specs.Texts.{fault_text};

    ghost output = { fault_text };

    fn fmt<W: fmt::Write>(&self, f: &mut fmt::Formatter<W>) -> fmt::Result {
        match self {
            TpmFault::Io(error) => write!(f, "{error}"),
            TpmFault::Reply(Failure::Code(code)) => match reason_of(*code) {
                Some(reason) => write!(f, "reply 0x{code:x}, {reason}"),
                None => write!(f, "reply 0x{code:x}"),
            },
            TpmFault::Reply(Failure::Malformed) => write!(f, "no reply of a TPM"),
            TpmFault::Unkept => write!(f, "the index does not hold what was written to it"),
        }
    }
}

impl fmt::Display for CellRefusal {
    ghost use Rattle.tpm_cell.specs.Texts.{refusal_text};

    ghost output = { refusal_text };

    fn fmt<W: fmt::Write>(&self, f: &mut fmt::Formatter<W>) -> fmt::Result {
        match self {
            CellRefusal::Io(error) => write!(f, "{error}"),
            CellRefusal::NoDevice => write!(f, "no character device"),
            CellRefusal::Absent(handle) => write!(
                f,
                "no such index: define it by tpm2_nvdefine 0x{handle:x} -C o -s 128 -a 'authread|authwrite|no_da'"
            ),
            CellRefusal::Unusable(Fault::Size(size)) => {
                write!(f, "an index of {size} bytes, and not of 128")
            }
            CellRefusal::Unusable(Fault::Kind(kind)) => {
                write!(f, "an index of type {kind}, and not an ordinary one")
            }
            CellRefusal::Unusable(Fault::Lacks(attribute)) => {
                write!(f, "an index without {}", word_of(*attribute))
            }
            CellRefusal::Unusable(Fault::Has(attribute)) => {
                write!(f, "an index with {}", word_of(*attribute))
            }
            CellRefusal::Failed(fault) => write!(f, "{fault}"),
        }
    }
}

impl Error for TpmFault {}

impl Error for CellRefusal {}

// What a code of the TPM means (part 2, TPM_RC), where it says more than that the TPM is to be asked again.
fn reason_of(code: u32) -> Option<&'static str>
    ensures { option_map (λ text. text.now) result ≡ reason_text code }
{
    match code {
        0x100 => Some("the TPM is not started up"),
        0x101 => Some("the TPM is in failure mode"),
        0x148 => Some("the index is locked"),
        0x149 => Some("the index can't be read by its password"),
        0x98e | 0x9a2 => Some("the index has another password than the empty one"),
        _ => None,
    }
}

// The word that the tools of tpm2-tools have for an attribute.
fn word_of(attribute: Attribute) -> &'static str
    ensures { result.now ≡ word_text attribute }
{
    match attribute {
        Attribute::AuthWrite => "authwrite",
        Attribute::WriteLocked => "writelocked",
        Attribute::WriteDefine => "writedefine",
        Attribute::WriteStClear => "write_stclear",
        Attribute::GlobalLock => "globallock",
        Attribute::AuthRead => "authread",
        Attribute::Orderly => "orderly",
        Attribute::ClearStClear => "clear_stclear",
        Attribute::ReadLocked => "readlocked",
        Attribute::ReadStClear => "read_stclear",
    }
}

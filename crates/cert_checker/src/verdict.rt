//! What the checker answers.
ghost use Rattle.std.specs.Prelude.{◌≡◌};
ghost use Rattle.cert_checker.specs.Refused.{refused_by};

use sdbt_base::{Addrs, Memory};
use thiserror::Error;

/// What an accepted ledger says of the device.
#[derive(Drop)]
pub struct Verdict {
    /// The number of the last commit.
    pub commit: u64,
    /// The live addresses, ascending: those that the trace of the ledger reaches from the root record's node, and no others.
    pub live: Addrs,
    /// How many addresses the ledger says are gone or were never kept. None of them is live.
    pub deleted: u64,
}

/// Why a ledger isn't accepted.
#[derive(Clone, Copy, Debug, PartialEq, Eq, Error)]
pub enum CheckRefusal {
    /// The first rule that is broken, 1 to 10, and the number that shows it.
    #[error("rule {number} is broken, as {value} shows")]
    Rule {
        /// The rule.
        number: u8,
        /// The number of the certificate (rule 1), its base (rule 2), an address (rules 3 to 9), or the number of the root
        /// record's commit (rule 10).
        value: u64,
    },
    /// No memory was given.
    #[error("out of memory")]
    Memory,
}

impl From<Memory> for CheckRefusal {
    ghost use Rattle.std.specs.Prelude.{◌≡◌};
    ghost use Rattle.cert_checker.specs.declared.verdict.CheckRefusal.{CheckRefusal};

    ghost from_gives = { λ memory refusal. refusal ≡ CheckRefusal.Memory };

    fn from(_: Memory) -> CheckRefusal {
        CheckRefusal::Memory
    }
}

/// Refuses by a rule where there is a value that shows it broken.
pub(crate) fn refuse(number: u8, value: Option<u64>) -> Result<(), CheckRefusal>
    ensures { result ≡ refused_by number value }
{
    match value {
        Some(value) => Err(CheckRefusal::Rule { number, value }),
        None => Ok(()),
    }
}

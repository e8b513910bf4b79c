//! Why a ledger could not be judged, or isn't accepted.
ghost use Rattle.std.specs.Prelude.{◌≡◌};

use cert_checker::CheckRefusal;
use sdbt_base::Memory;
use thiserror::Error;

/// Why a ledger isn't accepted, or could not be judged.
#[derive(Clone, Copy, Debug, PartialEq, Eq, Error)]
pub enum JudgeRefusal {
    /// The first rule that is broken, 1 to 10, and the number that shows it.
    #[error("rule {number} is broken, as {value} shows")]
    Rule {
        /// The rule.
        number: u8,
        /// The number that shows it broken, as [`CheckRefusal`] says.
        value: u64,
    },
    /// The input failed.
    #[error("the input could not be read")]
    Source,
    /// 2^32 bytes were taken and the end of the input was not seen.
    #[error("the input is too long")]
    Limit,
    /// No memory was given.
    #[error("out of memory")]
    Memory,
}

impl From<Memory> for JudgeRefusal {
    ghost use Rattle.std.specs.Prelude.{◌≡◌};
    ghost use Rattle.ledger_check.specs.declared.refusals.JudgeRefusal.{JudgeRefusal};

    ghost from_gives = { λ memory refusal. refusal ≡ JudgeRefusal.Memory };

    fn from(_: Memory) -> JudgeRefusal {
        JudgeRefusal::Memory
    }
}

impl From<CheckRefusal> for JudgeRefusal {
    ghost use Rattle.std.specs.Prelude.{◌≡◌};
    ghost use Rattle.ledger_check.specs.Refused.{refused_as};

    ghost from_gives = { λ refused refusal. refusal ≡ refused_as refused };

    fn from(refused: CheckRefusal) -> JudgeRefusal {
        match refused {
            CheckRefusal::Rule { number, value } => JudgeRefusal::Rule { number, value },
            CheckRefusal::Memory => JudgeRefusal::Memory,
        }
    }
}

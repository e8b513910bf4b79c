//! Reads a ledger from its input, and has it judged.
ghost use Rattle.std.specs.Prelude.{◌≤◌, ◌+◌};
ghost use Rattle.sdbt_base.specs.Faults.{TellsOf};
ghost use Rattle.ledger_check.specs.Judging.{FromInput, IsRead, Judged};

use crate::reader::LedgerReader;
use crate::refusals::JudgeRefusal;
use cert_checker::{Checker, Verdict};
use root_codec::Root;
use sdbt_base::{MAX_INPUT, Source};
use std::alloc::Global;

/// The most that one take asks for.
const PIECE: usize = 4096;

/// Judges the ledger that an input gives, whoever made it, for a root record. Each of its lines that spells a certificate is one,
/// other lines are skipped, and a last line may lack its line feed. It is accepted only after it was read to its end, and refused
/// by `Rule` with the first broken rule; by `Source` where the input failed; by `Limit` at 2^32 bytes; or by `Memory`, which comes only
/// where something was taken, and not at the limit: an empty ledger is refused by the last rule.
pub fn judge<I: Source>(alloc: Global, input: &mut I, root: &Root) -> Result<Verdict, JudgeRefusal>
    ensures judged { Judged root.now (I.left input.old) (I.left input.new) result }
    // An input that is at its end is asked no more.
    ensures ended { I.ends input.new ≤ I.ends input.old + 1 }
    ensures cause { TellsOf JudgeRefusal.Source result (I.faults input.old) (I.faults input.new) }
    ensures count { I.faults input.old ≤ I.faults input.new }
{
    let checker = read_ledger(alloc, input)?;
    Ok(checker.conclude(alloc, root)?)
}

/// A checker that was fed the ledger that an input gives.
fn read_ledger<I: Source>(alloc: Global, input: &mut I) -> Result<Checker, JudgeRefusal>
    ensures read { FromInput IsRead (I.left input.old) (I.left input.new) result }
    ensures ended { I.ends input.new ≤ I.ends input.old + 1 }
    ensures cause { TellsOf JudgeRefusal.Source result (I.faults input.old) (I.faults input.new) }
    ensures count { I.faults input.old ≤ I.faults input.new }
{
    let mut reader = LedgerReader::new(alloc);
    let mut piece = [0; PIECE];
    let mut left = MAX_INPUT;
    'takes: loop {
        let room = left.min(PIECE as u64) as usize;
        let Ok(count) = input.take(&mut piece[..room]) else {
            return Err(JudgeRefusal::Source);
        };
        if count == 0 {
            return Ok(reader.finish(alloc)?);
        }
        left -= count as u64;
        if left == 0 {
            return Err(JudgeRefusal::Limit);
        }
        reader.read(alloc, &piece[..count])?;
    }
}

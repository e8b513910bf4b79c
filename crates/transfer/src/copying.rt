//! The copying of blocks from one session to another, and its commit.
ghost use Rattle.std.specs.Prelude.{◌≡◌, ◌≢◌, ◌-◌, ◌*◌, ◌<◌, ◌≤◌, ◌∷◌, [], ℕ, true, All, None, Some, Err, IfErr, IfOk, IsOk, OnOk, length};
ghost use Rattle.sdbt_base.specs.Rises.{MayRiseBy};
ghost use Rattle.device_course.specs.States.{around};
ghost use Rattle.device_session.specs.Open.{blocks_of, is_touched, needed_by};
ghost use Rattle.session_calls.specs.Along.{Along, Drawn, drawn_by};
ghost use Rattle.session_calls.specs.Carrying.{Carries, IsReady};
ghost use Rattle.transfer.specs.Counts.{counts};
ghost use Rattle.transfer.specs.Halts.{Blames};
ghost use Rattle.sdbt_base.specs.Arrays.{Device, Session as OpenSession, mounted};
ghost use Rattle.device_course.specs.States.{IsAt};
ghost use Rattle.transfer.specs.Copies.{copied, copy_block};
ghost use Rattle.transfer.specs.Moving.{Commits, Copies};
ghost use Rattle.transfer.specs.Refusals.{IsOfCopy};
ghost use Rattle.transfer.specs.Running.{HasNumber, IsNumberOf, IsOfCommit, MeetsWrong, alone};
ghost use Rattle.transfer.specs.Whole.{CopiesTree};

use crate::halts::Halt;
use crate::sides::{read_source, write_target};
use device_session::{CommitReply, Session};
use platform::Platform;
use sdbt_base::{BLOCK, Sink, Tape};
use session_calls::{DeviceStop, commit_session};

/// Writes to one session what another one reads of each of these blocks, in their order.
pub(crate) fn copy_blocks<P: Platform, Q: Platform, T: Tape>(
    blocks: &[u64],
    source: &mut Session,
    target: &mut Session,
    from: &mut P,
    to: &mut Q,
    tape: &mut T,
) -> Result<(), Halt>
    requires source { IsReady P.tells (alone P.Platform from.old) source.old }
    requires target { IsReady Q.tells (alone Q.Platform to.old) target.old }
    requires within { All (λ block. block < blocks_of source.old) blocks.now }
    requires alike { blocks_of target.old ≡ blocks_of source.old }
    ensures from { (any : Drawn) → Along P.Platform 0 (21 * length blocks.now) from.old from.new any any source.old source.new }
    ensures to { Along Q.Platform (length blocks.now) (40 * length blocks.now) to.old to.new (drawn_by T.Tape tape.old) (drawn_by T.Tape tape.new) target.old target.new }
    ensures blame { (output ledger : ℕ) → Blames (counts (P.faults from.old) (Q.faults to.old) (T.faults tape.old) output ledger)
        (counts (P.faults from.new) (Q.faults to.new) (T.faults tape.new) output ledger) result }
    ensures wrong { IfErr result (MeetsWrong P.tells Q.tells ⊥ (Unit {0}) (P.history from.new).present (Q.history to.new).present) }
    ensures leads { P.tells → Q.tells → (device there : Device) (array other : OpenSession) → IsAt (P.history from.old).present (Some source.old) (mounted device array)
        → IsAt (Q.history to.old).present (Some target.old) (mounted there other)
        → Copies (P.history from.new).present (Q.history to.new).present source.new target.new device there array
        (copied array.contents blocks.now other) result }
    ensures full { result ≡ Err Halt.Full → (0 < length blocks.now) × (Q.head to.new ≡ Q.capacity to.new) }
    // Memory is wanted for a block only where a page is free for it.
    ensures room { result ≡ Err (Halt.To DeviceStop.Memory) → Q.head to.new < Q.capacity to.new }
    ensures behind { IfErr result IsOfCopy }
    // On any pages: a look-up of each comes to one content on both, and the first session keeps its tree.
    ensures copies { (source.new.grove ≡ source.old.grove)
        × OnOk result (CopiesTree P.tells Q.tells (P.history from.old).present (Q.history to.old).present (Q.history to.new).present source.old target.old target.new blocks.now) }
{
    let mut content = [0; BLOCK];
    for block in blocks {
        copy_block(*block, source, target, from, to, tape, &mut content)?;
    }
    Ok(())
}

/// Writes to one session what another one reads of a block, by way of `content`.
fn copy_block<P: Platform, Q: Platform, T: Tape>(
    block: u64,
    source: &mut Session,
    target: &mut Session,
    from: &mut P,
    to: &mut Q,
    tape: &mut T,
    content: &mut [u8],
) -> Result<(), Halt>
    requires size { length content.old ≡ 4096 }
    requires source { IsReady P.tells (alone P.Platform from.old) source.old }
    requires target { IsReady Q.tells (alone Q.Platform to.old) target.old }
    requires within { block < blocks_of source.old }
    requires alike { blocks_of target.old ≡ blocks_of source.old }
    ensures from { (any : Drawn) → Along P.Platform 0 21 from.old from.new any any source.old source.new }
    ensures to { Along Q.Platform 1 40 to.old to.new (drawn_by T.Tape tape.old) (drawn_by T.Tape tape.new) target.old target.new }
    ensures blame { (output ledger : ℕ) → Blames (counts (P.faults from.old) (Q.faults to.old) (T.faults tape.old) output ledger)
        (counts (P.faults from.new) (Q.faults to.new) (T.faults tape.new) output ledger) result }
    ensures wrong { IfErr result (MeetsWrong P.tells Q.tells ⊥ (Unit {0}) (P.history from.new).present (Q.history to.new).present) }
    ensures leads { P.tells → Q.tells → (device there : Device) (array other : OpenSession) → IsAt (P.history from.old).present (Some source.old) (mounted device array)
        → IsAt (Q.history to.old).present (Some target.old) (mounted there other)
        → Copies (P.history from.new).present (Q.history to.new).present source.new target.new device there array
        (copy_block array.contents other block) result }
    ensures full { result ≡ Err Halt.Full → Q.head to.new ≡ Q.capacity to.new }
    ensures room { result ≡ Err (Halt.To DeviceStop.Memory) → Q.head to.new < Q.capacity to.new }
    ensures behind { IfErr result IsOfCopy }
    // On any pages: a look-up of it comes to one content on both, and the first session keeps its tree.
    ensures copies { (source.new.grove ≡ source.old.grove)
        × OnOk result (CopiesTree P.tells Q.tells (P.history from.old).present (Q.history to.old).present (Q.history to.new).present source.old target.old target.new (block ∷ [])) }
    ensures size { length content.new ≡ 4096 }
{
    read_source(source, from, block, content)?;
    match write_target(target, to, tape, block, content) {
        Ok(()) => Ok(()),
        Err(halt) => Err(halt),
    }
}

/// Makes the changes of a session the device's, and answers its commit number.
pub(crate) fn commit_target<Q: Platform, T: Tape, L: Sink>(
    target: Session,
    to: &mut Q,
    tape: &mut T,
    ledger: &mut L,
) -> Result<u64, Halt>
    requires target { IsReady Q.tells (around Q.Platform T.Tape L.Sink to.old tape.old ledger.old) target }
    ensures carries { Carries Q.tells (around Q.Platform T.Tape L.Sink to.old tape.old ledger.old)
        (around Q.Platform T.Tape L.Sink to.new tape.new ledger.new) target None (IsOk result) }
    // On any pages: the number is that of the root record there.
    ensures number { Q.tells → IfOk result (HasNumber (Q.history to.new).present) }
    ensures blame { (from output : ℕ) → Blames (counts from (Q.faults to.old) (T.faults tape.old) output (L.faults ledger.old))
        (counts from (Q.faults to.new) (T.faults tape.new) output (L.faults ledger.new)) result }
    ensures full { result ≡ Err Halt.Full → Q.capacity to.old - Q.head to.old < needed_by target }
    // Each other halt comes only where something was changed, and enough pages are free.
    ensures room { IfErr result (λ halt. halt ≢ Halt.Full → (is_touched target ≡ true) × (needed_by target ≤ Q.capacity to.old - Q.head to.old)) }
    ensures wrong { IfErr result IsOfCommit }
    ensures unread { Q.tells → (Q.reads to.new ≡ Q.reads to.old) × MayRiseBy 2 (Q.changes to.old) (Q.changes to.new) }
    ensures leads { Q.tells → (there : Device) (other : OpenSession) → IsAt (Q.history to.old).present (Some target) (mounted there other)
        → Commits (Q.history to.old) (Q.history to.new) there other result }
{
    match commit_session(target, to, tape, ledger) {
        Ok(done) => number_of(&done.reply),
        Err(stop) => Err(Halt::To(stop)),
    }
}

/// The number that a commit answered, or the halt where too few pages are free.
fn number_of(reply: &CommitReply) -> Result<u64, Halt>
    ensures { IsNumberOf reply.now result }
{
    match reply {
        CommitReply::Committed { number } => Ok(*number),
        CommitReply::Full { .. } => Err(Halt::Full),
    }
}

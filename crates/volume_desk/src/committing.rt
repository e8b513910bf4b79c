//! Commits, and destroys volumes.
ghost use Rattle.std.specs.Prelude.{◌≡◌, ◌+◌, ℕ, List, IsOk, IfOk, IfSome};
ghost use Rattle.sdbt_base.specs.Counts.{counts};
ghost use Rattle.device_course.specs.States.{around};
ghost use Rattle.device_session.specs.Open.{IsOpen, blocks_of};
ghost use Rattle.device_course.specs.Held.{Held};
ghost use Rattle.session_calls.specs.Along.{drawn_by};
ghost use Rattle.session_calls.specs.Blame.{IsBlamed};
ghost use Rattle.volume_table.specs.Tables.{IsTable};
ghost use Rattle.volume_table.specs.declared.volume.Volume.{Volume};
ghost use Rattle.volume_lines.specs.Lines as lines;
ghost use Rattle.volume_lines.specs.Replies.{IsWords};
ghost use Rattle.session_calls.specs.Calling.{Calls};
ghost use Rattle.session_calls.specs.Carrying.{Carries, IsReady};
ghost use Rattle.volume_desk.specs.Causes.{AnswersAlong, TakesOver, answer_in, sizes};
ghost use Rattle.volume_desk.specs.Drawing.{Spends, TakesDrew, tally};
ghost use Rattle.volume_desk.specs.Reads.{reads_out};
ghost use Rattle.sdbt_base.specs.Rises.{MayRiseBy};
ghost use Rattle.volume_desk.specs.Syncs.{changes_in};
ghost use Rattle.volume_desk.specs.Turns.{IsHeld, ServesAs, TakesOut, commit_reply, destroy_reply, goes_on};

use crate::changing::change;
use crate::serving::Answered;
use device_session::{CommitReply, Session};
use platform::Platform;
use sdbt_base::{Sink, Tape};
use session_calls::{DeviceStop, commit_session};
use volume_lines::Reply;
use volume_table::{Name, Table};

/// Makes all changes the device's, where enough pages are free.
pub(crate) fn commit<P: Platform, T: Tape, L: Sink>(
    session: Session,
    platform: &mut P,
    tape: &mut T,
    ledger: &mut L,
) -> Result<Answered, DeviceStop>
    requires ready { IsReady P.tells (around P.Platform T.Tape L.Sink platform.old tape.old ledger.old) session }
    ensures carries { Carries P.tells (around P.Platform T.Tape L.Sink platform.old tape.old ledger.old)
        (around P.Platform T.Tape L.Sink platform.new tape.new ledger.new) session (goes_on result) (IsOk result) }
    ensures blame { IsBlamed (counts (P.faults platform.old) (T.faults tape.old) 0 0 (L.faults ledger.old))
        (counts (P.faults platform.new) (T.faults tape.new) 0 0 (L.faults ledger.new)) result }
    ensures words { IfOk result (λ done. IsWords done.reply) }
    ensures serves { P.tells → (entry : Held) (table : List Volume) (buffer : List ℕ)
        → IsHeld (P.history platform.old).present (P.head platform.old) session table entry
        → ServesAs (around P.Platform T.Tape L.Sink platform.old tape.old ledger.old)
        (around P.Platform T.Tape L.Sink platform.new tape.new ledger.new) table table buffer entry lines.Commit result }
    // On any pages: why it is answered so.
    ensures any { (table : List Volume) (buffer : List ℕ) → AnswersAlong P.tells (P.history platform.old) (P.history platform.new) session (goes_on result)
        (sizes (blocks_of session) (P.head platform.new) (P.capacity platform.new)) table table lines.Commit buffer (answer_in result) }
    // Which keys it draws, each for a page, and that it reads no page.
    ensures spends { (table : List Volume) (buffer : List ℕ) → Spends P.tells tape.old tape.new (tally (T.drawn tape.old) (P.head platform.old)) (tally (T.drawn tape.new) (P.head platform.new))
        (P.reads platform.old) (P.reads platform.new) table lines.Commit buffer (answer_in result) }
    ensures changes { P.tells → (buffer : List ℕ) → MayRiseBy (changes_in lines.Commit buffer (answer_in result)) (P.changes platform.old) (P.changes platform.new) }
{
    match commit_session(session, platform, tape, ledger) {
        Ok(done) => Ok(Answered {
            reply: reply_to_commit(&done.reply),
            session: done.session,
        }),
        Err(stop) => Err(stop),
    }
}

fn reply_to_commit(reply: &CommitReply) -> Reply
    ensures { result ≡ commit_reply reply.now }
{
    match reply {
        CommitReply::Committed { number } => Reply::Committed { number: *number },
        CommitReply::Full { .. } => Reply::Full,
    }
}

/// Destroys a volume: writes the table without it, trims all its blocks, and commits that.
pub(crate) fn destroy<P: Platform, T: Tape, L: Sink>(
    table: &mut Table,
    first: Session,
    platform: &mut P,
    tape: &mut T,
    ledger: &mut L,
    name: &Name,
) -> Result<Answered, DeviceStop>
    requires ready { IsReady P.tells (around P.Platform T.Tape L.Sink platform.old tape.old ledger.old) first }
    requires table { IsTable (blocks_of first) table.old }
    ensures carries { Carries P.tells (around P.Platform T.Tape L.Sink platform.old tape.old ledger.old)
        (around P.Platform T.Tape L.Sink platform.new tape.new ledger.new) first (goes_on result) (IsOk result) }
    ensures blame { IsBlamed (counts (P.faults platform.old) (T.faults tape.old) 0 0 (L.faults ledger.old))
        (counts (P.faults platform.new) (T.faults tape.new) 0 0 (L.faults ledger.new)) result }
    ensures table { IsTable (blocks_of first) table.new }
    ensures words { IfOk result (λ done. IsWords done.reply) }
    ensures serves { P.tells → (entry : Held) (buffer : List ℕ)
        → IsHeld (P.history platform.old).present (P.head platform.old) first table.old entry
        → ServesAs (around P.Platform T.Tape L.Sink platform.old tape.old ledger.old)
        (around P.Platform T.Tape L.Sink platform.new tape.new ledger.new) table.old table.new buffer entry (lines.Destroy name.now) result }
    // On any pages: why it is answered so.
    ensures any { (buffer : List ℕ) → AnswersAlong P.tells (P.history platform.old) (P.history platform.new) first (goes_on result)
        (sizes (blocks_of first) (P.head platform.new) (P.capacity platform.new)) table.old table.new (lines.Destroy name.now) buffer (answer_in result) }
    // Which keys it draws, each for a page, and how many pages it reads.
    ensures spends { (buffer : List ℕ) → Spends P.tells tape.old tape.new (tally (T.drawn tape.old) (P.head platform.old)) (tally (T.drawn tape.new) (P.head platform.new))
        (P.reads platform.old) (P.reads platform.new) table.old (lines.Destroy name.now) buffer (answer_in result) }
    ensures changes { P.tells → (buffer : List ℕ) → MayRiseBy (changes_in (lines.Destroy name.now) buffer (answer_in result)) (P.changes platform.old) (P.changes platform.new) }
{
    let mut session = first;
    let refused = match take_out(table, &mut session, platform, tape, name) {
        Ok(refused) => refused,
        Err(stop) => return Err(stop),
    };
    if let Some(reply) = refused {
        return Ok(Answered { session, reply });
    }
    match commit_session(session, platform, tape, ledger) {
        Ok(done) => Ok(Answered {
            reply: reply_to_destroy(&done.reply),
            session: done.session,
        }),
        Err(stop) => Err(stop),
    }
}

fn reply_to_destroy(reply: &CommitReply) -> Reply
    ensures { result ≡ destroy_reply reply.now }
{
    match reply {
        CommitReply::Committed { number } => Reply::Destroyed { number: *number },
        CommitReply::Full { .. } => Reply::Uncommitted,
    }
}

/// Writes the table without a volume, and trims all its blocks; or answers why not.
fn take_out<P: Platform, T: Tape>(
    table: &mut Table,
    session: &mut Session,
    platform: &mut P,
    tape: &mut T,
    name: &Name,
) -> Result<Option<Reply>, DeviceStop>
    requires open { IsOpen session.old (P.head platform.old) }
    requires table { IsTable (blocks_of session.old) table.old }
    ensures calls { Calls P.Platform (1 + blocks_of session.old) (reads_out table.old name.now result) platform.old platform.new (drawn_by T.Tape tape.old) (drawn_by T.Tape tape.new) session.old session.new result }
    ensures table { IsTable (blocks_of session.old) table.new }
    ensures words { IfOk result (λ refused. IfSome refused IsWords) }
    ensures turns { P.tells → (entry : Held) (buffer : List ℕ) → IsHeld (P.history platform.old).present (P.head platform.old) session.old table.old entry
        → TakesOut (P.history platform.new).present (P.head platform.new) (P.capacity platform.old) table.old table.new session.new entry name.now buffer result }
    // On any pages: why it is answered so.
    ensures any { (buffer : List ℕ) → TakesOver P.tells (P.history platform.old).present (P.history platform.new).present session.old session.new
        (sizes (blocks_of session.old) (P.head platform.new) (P.capacity platform.new)) table.old table.new name.now buffer result }
    // Which keys it draws, each for a page.
    ensures drew { (buffer : List ℕ) → IfOk result (TakesDrew (tally (T.drawn tape.old) (P.head platform.old)) (tally (T.drawn tape.new) (P.head platform.new)) name.now buffer) }
{
    let Some((at, volume)) = table.find(name) else {
        return Ok(Some(Reply::Unknown));
    };
    if platform.head() == platform.capacity() {
        return Ok(Some(Reply::Full));
    }
    table.remove(at);
    match change(session, platform, tape, table, &volume) {
        Ok(()) => Ok(None),
        Err(stop) => Err(stop),
    }
}

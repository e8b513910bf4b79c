//! Serves a line.
ghost use Rattle.std.specs.Prelude.{◌≡◌, ◌+◌, ℕ, List, IsOk, IfErr, IfOk};
ghost use Rattle.sdbt_base.specs.Counts.{counts};
ghost use Rattle.device_course.specs.States.{around};
ghost use Rattle.device_session.specs.Open.{IsOpen, blocks_of};
ghost use Rattle.device_course.specs.Held.{Held};
ghost use Rattle.session_calls.specs.Along.{drawn_by};
ghost use Rattle.session_calls.specs.Blame.{IsBlamed};
ghost use Rattle.volume_table.specs.Tables.{IsTable};
ghost use Rattle.volume_lines.specs.Grammar.{Spells};
ghost use Rattle.volume_lines.specs.Lines.{FitsBlock as FitsLine, asked};
ghost use Rattle.volume_lines.specs.Replies.{CanWrite, FitsBlock, said};
ghost use Rattle.volume_terms.specs.Turn.{Serves};
ghost use Rattle.session_calls.specs.Calling.{Calls};
ghost use Rattle.session_calls.specs.Carrying.{Carries, IsReady};
ghost use Rattle.volume_desk.specs.Causes.{AnswersAlong, AnswersOver, answer_in, sizes};
ghost use Rattle.volume_desk.specs.Drawing.{Spends, tally};
ghost use Rattle.volume_desk.specs.Reads.{reads_in};
ghost use Rattle.sdbt_base.specs.Rises.{MayRiseBy};
ghost use Rattle.volume_desk.specs.Syncs.{changes_in};
ghost use Rattle.volume_desk.specs.Turns.{HasPages, IsHeld, IsOfBlocks, ServesAs, TurnsTo, goes_on};

use crate::blocks::{read, trim, write};
use crate::committing::{commit, destroy};
use crate::creating::create;
use device_session::Session;
use platform::Platform;
use sdbt_base::{BLOCK, Sink, Tape};
use session_calls::DeviceStop;
use volume_lines::{Line, Reply};
use volume_table::Table;

/// What lines are served with beside a session.
#[derive(Drop)]
pub struct Desk {
    /// The table that block 0 of the session spells.
    pub table: Table,
    /// What a write writes, and what a read reads.
    pub buffer: [u8; BLOCK],
}

/// A session that goes on behind a line, and the reply to the line.
#[derive(Drop)]
pub struct Answered {
    /// The session.
    pub session: Session,
    /// The reply, whose bytes stand at the front of the buffer.
    pub reply: Reply,
}

/// Serves a line over a session, which goes on where there is a reply.
pub fn serve_line<P: Platform, T: Tape, L: Sink>(
    desk: &mut Desk,
    first: Session,
    platform: &mut P,
    tape: &mut T,
    ledger: &mut L,
    line: &Line,
) -> Result<Answered, DeviceStop>
    requires ready { IsReady P.tells (around P.Platform T.Tape L.Sink platform.old tape.old ledger.old) first }
    requires table { IsTable (blocks_of first) desk.old.table }
    requires spelled { (text : List ℕ) × Spells text (asked line.now desk.old.buffer) }
    requires fits { FitsLine line.now }
    ensures carries { Carries P.tells (around P.Platform T.Tape L.Sink platform.old tape.old ledger.old)
        (around P.Platform T.Tape L.Sink platform.new tape.new ledger.new) first (goes_on result) (IsOk result) }
    ensures blame { IsBlamed (counts (P.faults platform.old) (T.faults tape.old) 0 0 (L.faults ledger.old))
        (counts (P.faults platform.new) (T.faults tape.new) 0 0 (L.faults ledger.new)) result }
    ensures table { IsTable (blocks_of first) desk.new.table }
    ensures written { IfOk result (λ done. CanWrite (said done.reply desk.new.buffer)) }
    ensures short { IfOk result (λ done. FitsBlock done.reply) }
    ensures serves { P.tells → (entry : Held) → IsHeld (P.history platform.old).present (P.head platform.old) first desk.old.table entry
        → ServesAs (around P.Platform T.Tape L.Sink platform.old tape.old ledger.old)
        (around P.Platform T.Tape L.Sink platform.new tape.new ledger.new) desk.old.table desk.new.table desk.new.buffer entry
        (asked line.now desk.old.buffer) result }
    // On any pages: why it is answered so.
    ensures any { AnswersAlong P.tells (P.history platform.old) (P.history platform.new) first (goes_on result)
        (sizes (blocks_of first) (P.head platform.new) (P.capacity platform.new)) desk.old.table desk.new.table
        (asked line.now desk.old.buffer) desk.new.buffer (answer_in result) }
    // Which keys it draws, each for a page, and how many pages it reads.
    ensures spends { Spends P.tells tape.old tape.new (tally (T.drawn tape.old) (P.head platform.old)) (tally (T.drawn tape.new) (P.head platform.new))
        (P.reads platform.old) (P.reads platform.new) desk.old.table (asked line.now desk.old.buffer) desk.new.buffer (answer_in result) }
    // How often it syncs all pages, or replaces the root record.
    ensures changes { P.tells → MayRiseBy (changes_in (asked line.now desk.old.buffer) desk.new.buffer (answer_in result)) (P.changes platform.old) (P.changes platform.new) }
{
    match line {
        Line::Commit => return commit(first, platform, tape, ledger),
        Line::Destroy { name } => {
            return destroy(&mut desk.table, first, platform, tape, ledger, name);
        }
        _ => {}
    }
    let mut session = first;
    match serve_blocks(desk, &mut session, platform, tape, line) {
        Ok(reply) => Ok(Answered { session, reply }),
        Err(stop) => Err(stop),
    }
}

/// Serves a line that makes no commit.
fn serve_blocks<P: Platform, T: Tape>(
    desk: &mut Desk,
    session: &mut Session,
    platform: &mut P,
    tape: &mut T,
    line: &Line,
) -> Result<Reply, DeviceStop>
    requires open { IsOpen session.old (P.head platform.old) }
    requires table { IsTable (blocks_of session.old) desk.old.table }
    requires spelled { (text : List ℕ) × Spells text (asked line.now desk.old.buffer) }
    requires fits { FitsLine line.now }
    requires kind { IsOfBlocks line.now }
    ensures calls { Calls P.Platform (1 + blocks_of session.old) (reads_in desk.old.table (asked line.now desk.old.buffer) desk.new.buffer result) platform.old platform.new
        (drawn_by T.Tape tape.old) (drawn_by T.Tape tape.new) session.old session.new result }
    ensures table { IsTable (blocks_of session.old) desk.new.table }
    ensures left { IfErr result (λ stop. desk.new.table ≡ desk.old.table) }
    ensures written { IfOk result (λ reply. CanWrite (said reply desk.new.buffer)) }
    ensures short { IfOk result FitsBlock }
    ensures turns { P.tells → (entry : Held) → IsHeld (P.history platform.old).present (P.head platform.old) session.old desk.old.table entry
        → TurnsTo (P.history platform.new).present (P.head platform.new) desk.new.table session.new entry
        (λ reply next. Serves (P.capacity platform.old) desk.old.table entry (asked line.now desk.old.buffer) reply next)
        (HasPages (P.capacity platform.old) entry (asked line.now desk.old.buffer)) desk.new.buffer result }
    // On any pages: why it is answered so.
    ensures any { AnswersOver P.tells (P.history platform.old).present (P.history platform.new).present session.old session.new
        (sizes (blocks_of session.old) (P.head platform.new) (P.capacity platform.new)) desk.old.table desk.new.table
        (asked line.now desk.old.buffer) desk.new.buffer result }
    // Which keys it draws, each for a page, and how many pages it reads.
    ensures spends { Spends P.tells tape.old tape.new (tally (T.drawn tape.old) (P.head platform.old)) (tally (T.drawn tape.new) (P.head platform.new))
        (P.reads platform.old) (P.reads platform.new) desk.old.table (asked line.now desk.old.buffer) desk.new.buffer result }
{
    match line {
        Line::Create { name, count } => {
            create(&mut desk.table, session, platform, tape, name, *count)
        }
        Line::Read { name, block } => {
            read(
                &desk.table,
                &mut desk.buffer,
                session,
                platform,
                name,
                *block,
            )
        }
        Line::Write { name, block, count } => {
            let content = &desk.buffer[..*count];
            write(&desk.table, session, platform, tape, name, *block, content)
        }
        Line::Trim { name, block } => trim(&desk.table, session, platform, name, *block),
        Line::Commit | Line::Destroy { .. } => unreachable!(),
    }
}

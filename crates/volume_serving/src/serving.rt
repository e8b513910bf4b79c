//! Serves lines.
ghost use Rattle.std.specs.Prelude.{◌≡◌, ◌≤◌, ◌∷◌, [], ◌++◌, ℕ, List, Option, None, Some, IfErr, IfNone, IfOk, IfSome, IsOk, OnOk, option_copied, ◌+◌};
ghost use Rattle.sdbt_base.specs.Counts.{counts};
ghost use Rattle.text_lines.specs.Lines.{whole_lines_of, rest_of, last_line as line_at_end};
ghost use Rattle.device_course.specs.States.{around};
ghost use Rattle.device_session.specs.Open.{blocks_of};
ghost use Rattle.device_session.specs.Sessions.{Session};
ghost use Rattle.line_run.specs.Pending.{IsPending, IsUnfinished};
ghost use Rattle.line_run.specs.Puts.{HasPut, TellsPut};
ghost use Rattle.line_run.specs.Stops.{IsBlamedOn, IsOfLine};
ghost use Rattle.volume_table.specs.Tables.{IsTable};
ghost use Rattle.volume_lines.specs.Grammar.{IsBad, Spells};
ghost use Rattle.volume_lines.specs.Lines.{FitsBlock as FitsLine, asked};
ghost use Rattle.volume_lines.specs.Replies.{CanWrite, FitsBlock, line_of, said};
ghost use Rattle.session_calls.specs.Carrying.{Carries, IsReady};
ghost use Rattle.volume_serving.specs.Damage.{TellsDamage};
ghost use Rattle.volume_serving.specs.Handled.{Handled, ending_of, goes_on};
ghost use Rattle.volume_serving.specs.Ran.{Ran};
ghost use Rattle.volume_serving.specs.World.{world};

use device_session::Session;
use line_run::{Pending, Stop};
use platform::Platform;
use sdbt_base::{BLOCK, MAX_INPUT, Sink, Source, Tape};
use text_lines::split_line;
use volume_desk::{Desk, serve_line};
use volume_lines::{Line, Reply, ReplyWriter, parse_line};

/// The most that one take asks for.
const PIECE: usize = 4096;

/// Takes pieces of the input to its end, or to the limit, and serves the lines in them.
pub fn serve_input<P: Platform, T: Tape, I: Source, O: Sink, L: Sink>(
    first: Session,
    desk: &mut Desk,
    writer: &mut ReplyWriter,
    platform: &mut P,
    tape: &mut T,
    input: &mut I,
    output: &mut O,
    ledger: &mut L,
) -> Result<(), Stop>
    requires ready { IsReady P.tells (around P.Platform T.Tape L.Sink platform.old tape.old ledger.old) first }
    requires table { IsTable (blocks_of first) desk.old.table }
    ensures carries { Carries P.tells (around P.Platform T.Tape L.Sink platform.old tape.old ledger.old)
        (around P.Platform T.Tape L.Sink platform.new tape.new ledger.new) first None (IsOk result) }
    // An input that is at its end is asked no more.
    ensures ended { I.ends input.new ≤ I.ends input.old + 1 }
    ensures blame { IsBlamedOn (counts (P.faults platform.old) (T.faults tape.old) (I.faults input.old) (O.faults output.old) (L.faults ledger.old))
        (counts (P.faults platform.new) (T.faults tape.new) (I.faults input.new) (O.faults output.new) (L.faults ledger.new)) result }
    // On any pages: what it stops at.
    ensures damage { P.tells → IfErr result (TellsDamage (P.history platform.new).present) }
    ensures ran { (after : Option Session) × Ran P.tells (blocks_of first)
        (world P.Platform T.Tape L.Sink (Some first) desk.old.table platform.old tape.old ledger.old)
        (world P.Platform T.Tape L.Sink after desk.new.table platform.new tape.new ledger.new)
        result (I.left input.old) (I.left input.new) (O.written output.old) (O.written output.new) }
{
    let mut session = first;
    let mut piece = [0; PIECE];
    let mut pending = Pending::new();
    let mut left = MAX_INPUT;
    while left > 0 {
        let room = left.min(PIECE as u64) as usize;
        let Ok(count) = input.take(&mut piece[..room]) else {
            return Err(Stop::Source);
        };
        if count == 0 {
            return serve_end(
                session, desk, writer, &pending, platform, tape, output, ledger,
            );
        }
        match serve_piece(
            session,
            desk,
            writer,
            &mut pending,
            platform,
            tape,
            output,
            ledger,
            &piece[..count],
        ) {
            Ok(next) => session = next,
            Err(stop) => return Err(stop),
        }
        left -= count as u64;
    }
    Err(Stop::Limit)
}

/// Serves each line that a piece ends, and keeps what comes behind the last line feed.
fn serve_piece<P: Platform, T: Tape, O: Sink, L: Sink>(
    first: Session,
    desk: &mut Desk,
    writer: &mut ReplyWriter,
    pending: &mut Pending,
    platform: &mut P,
    tape: &mut T,
    output: &mut O,
    ledger: &mut L,
    piece: &[u8],
) -> Result<Session, Stop>
    requires ready { IsReady P.tells (around P.Platform T.Tape L.Sink platform.old tape.old ledger.old) first }
    requires table { IsTable (blocks_of first) desk.old.table }
    ensures carries { Carries P.tells (around P.Platform T.Tape L.Sink platform.old tape.old ledger.old)
        (around P.Platform T.Tape L.Sink platform.new tape.new ledger.new) first (goes_on result) (IsOk result) }
    ensures blame { IsBlamedOn (counts (P.faults platform.old) (T.faults tape.old) 0 (O.faults output.old) (L.faults ledger.old))
        (counts (P.faults platform.new) (T.faults tape.new) 0 (O.faults output.new) (L.faults ledger.new)) result }
    // On any pages: what it stops at.
    ensures damage { P.tells → IfErr result (TellsDamage (P.history platform.new).present) }
    ensures table { IfOk result (λ now. IsTable (blocks_of now) desk.new.table) }
    ensures stops { IfErr result IsOfLine }
    ensures pending { (rest : List ℕ) → IsUnfinished pending.old rest → OnOk result (IsUnfinished pending.new (rest_of (rest ++ piece.now))) }
    ensures handled { (rest : List ℕ) → IsUnfinished pending.old rest → Handled P.tells (blocks_of first)
        (world P.Platform T.Tape L.Sink (Some first) desk.old.table platform.old tape.old ledger.old)
        (world P.Platform T.Tape L.Sink (goes_on result) desk.new.table platform.new tape.new ledger.new)
        (ending_of result) (whole_lines_of (rest ++ piece.now)) (O.written output.old) (O.written output.new) }
{
    let mut session = first;
    let mut rest = piece;
    while let Some((front, behind)) = split_line(rest) {
        let line = pending.complete(front);
        match answer(session, desk, writer, line, platform, tape, output, ledger) {
            Ok(next) => session = next,
            Err(stop) => return Err(stop),
        }
        pending.clear();
        rest = behind;
    }
    pending.push(rest);
    Ok(session)
}

/// Serves a last line that lacks its line feed.
fn serve_end<P: Platform, T: Tape, O: Sink, L: Sink>(
    session: Session,
    desk: &mut Desk,
    writer: &mut ReplyWriter,
    pending: &Pending,
    platform: &mut P,
    tape: &mut T,
    output: &mut O,
    ledger: &mut L,
) -> Result<(), Stop>
    requires ready { IsReady P.tells (around P.Platform T.Tape L.Sink platform.old tape.old ledger.old) session }
    requires table { IsTable (blocks_of session) desk.old.table }
    ensures carries { Carries P.tells (around P.Platform T.Tape L.Sink platform.old tape.old ledger.old)
        (around P.Platform T.Tape L.Sink platform.new tape.new ledger.new) session (None) (IsOk result) }
    ensures blame { IsBlamedOn (counts (P.faults platform.old) (T.faults tape.old) 0 (O.faults output.old) (L.faults ledger.old))
        (counts (P.faults platform.new) (T.faults tape.new) 0 (O.faults output.new) (L.faults ledger.new)) result }
    // On any pages: what it stops at.
    ensures damage { P.tells → IfErr result (TellsDamage (P.history platform.new).present) }
    ensures stops { IfErr result IsOfLine }
    ensures handled { (rest : List ℕ) → IsUnfinished pending.now rest → (after : Option Session) × Handled P.tells (blocks_of session)
        (world P.Platform T.Tape L.Sink (Some session) desk.old.table platform.old tape.old ledger.old)
        (world P.Platform T.Tape L.Sink (after) desk.new.table platform.new tape.new ledger.new)
        result (line_at_end rest) (O.written output.old) (O.written output.new) }
{
    if pending.is_empty() {
        return Ok(());
    }
    close(answer(
        session,
        desk,
        writer,
        pending.line(),
        platform,
        tape,
        output,
        ledger,
    ))
}

/// The session is let go where the lines end.
fn close(answered: Result<Session, Stop>) -> Result<(), Stop>
    ensures ending { result ≡ ending_of answered }
{
    match answered {
        Ok(_) => Ok(()),
        Err(stop) => Err(stop),
    }
}

/// Serves a line and puts its reply. None is a line that is too long for the grammar.
fn answer<P: Platform, T: Tape, O: Sink, L: Sink>(
    session: Session,
    desk: &mut Desk,
    writer: &mut ReplyWriter,
    line: Option<&[u8]>,
    platform: &mut P,
    tape: &mut T,
    output: &mut O,
    ledger: &mut L,
) -> Result<Session, Stop>
    requires ready { IsReady P.tells (around P.Platform T.Tape L.Sink platform.old tape.old ledger.old) session }
    requires table { IsTable (blocks_of session) desk.old.table }
    ensures carries { Carries P.tells (around P.Platform T.Tape L.Sink platform.old tape.old ledger.old)
        (around P.Platform T.Tape L.Sink platform.new tape.new ledger.new) session (goes_on result) (IsOk result) }
    ensures blame { IsBlamedOn (counts (P.faults platform.old) (T.faults tape.old) 0 (O.faults output.old) (L.faults ledger.old))
        (counts (P.faults platform.new) (T.faults tape.new) 0 (O.faults output.new) (L.faults ledger.new)) result }
    // On any pages: what it stops at.
    ensures damage { P.tells → IfErr result (TellsDamage (P.history platform.new).present) }
    ensures table { IfOk result (λ now. IsTable (blocks_of now) desk.new.table) }
    ensures stops { IfErr result IsOfLine }
    ensures handled { (text : List ℕ) → IsPending (option_copied line.entry) text → Handled P.tells (blocks_of session)
        (world P.Platform T.Tape L.Sink (Some session) desk.old.table platform.old tape.old ledger.old)
        (world P.Platform T.Tape L.Sink (goes_on result) desk.new.table platform.new tape.new ledger.new)
        (ending_of result) (text ∷ []) (O.written output.old) (O.written output.new) }
{
    let Some(line) = read_line(line, &mut desk.buffer) else {
        return tell(session, writer, &Reply::Bad, &desk.buffer, output);
    };
    match serve_line(desk, session, platform, tape, ledger, &line) {
        Ok(done) => tell(done.session, writer, &done.reply, &desk.buffer, output),
        Err(stop) => Err(Stop::Device(stop)),
    }
}

/// Puts the reply to a line, behind which this session goes on.
fn tell<O: Sink>(
    session: Session,
    writer: &mut ReplyWriter,
    reply: &Reply,
    buffer: &[u8; BLOCK],
    output: &mut O,
) -> Result<Session, Stop>
    requires fits { FitsBlock reply.now }
    requires trimmed { CanWrite (said reply.now buffer.now) }
    ensures session { IfOk result (λ now. now ≡ session) }
    ensures put { HasPut (line_of (said reply.now buffer.now)) (ending_of result) (O.written output.old) (O.written output.new) }
    ensures stop { TellsPut (ending_of result) (O.faults output.old) (O.faults output.new) }
    ensures count { O.faults output.old ≤ O.faults output.new }
{
    match put_reply(writer, reply, buffer, output) {
        Ok(()) => Ok(session),
        Err(stop) => Err(stop),
    }
}

/// What a line asks for, whose bytes come to the buffer. None is a line that is too long for the grammar.
fn read_line(line: Option<&[u8]>, buffer: &mut [u8; BLOCK]) -> Option<Line>
    ensures found { IfSome result (λ it. (text : List ℕ) → IsPending (option_copied line.entry) text → Spells text (asked it buffer.new)) }
    ensures fits { IfSome result FitsLine }
    ensures none { IfNone result ((text : List ℕ) → IsPending (option_copied line.entry) text → IsBad text) }
{
    match line {
        Some(line) => parse_line(line, buffer),
        None => None,
    }
}

/// Puts a reply's line.
fn put_reply<O: Sink>(
    writer: &mut ReplyWriter,
    reply: &Reply,
    buffer: &[u8; BLOCK],
    output: &mut O,
) -> Result<(), Stop>
    requires fits { FitsBlock reply.now }
    requires trimmed { CanWrite (said reply.now buffer.now) }
    ensures put { HasPut (line_of (said reply.now buffer.now)) result (O.written output.old) (O.written output.new) }
    ensures stop { TellsPut result (O.faults output.old) (O.faults output.new) }
    ensures count { O.faults output.old ≤ O.faults output.new }
{
    match writer.write(reply, buffer, output) {
        Ok(()) => Ok(()),
        Err(_) => Err(Stop::Sink),
    }
}

//! Requests, one after another.
ghost use Rattle.std.specs.Prelude.{◌≡◌, ◌≢◌, ◌+◌, ◌-◌, ◌*◌, ◌≤◌, ◌<◌, ℕ, List, Option, None, Some, Err, IsOk, IfOk, IfErr, OnOk, OnErr, IfSome, IsTrue, ◌↔◌, [], length, take, drop, vec_capacity, IsSome};
ghost use Rattle.nbd_core.specs.Ample.{blocks_of_range, unless_refused};
ghost use Rattle.nbd_core.specs.Changes.{changes_for, tally};
ghost use Rattle.nbd_core.specs.Damages.{AnswersTrue, PerformsTrue, SaysTrue};
ghost use Rattle.nbd_core.specs.Found.{FindsSame};
ghost use Rattle.nbd_core.specs.Near.{left_by, needed_at, needed_for};
ghost use Rattle.nbd_core.specs.Reads.{reads_at, reads_for};
ghost use Rattle.nbd_core.specs.Rooms.{KeepsRoom, room_at, room_for};
ghost use Rattle.nbd_core.specs.Short.{FlushSpends, Spends};
ghost use Rattle.nbd_core.specs.Stops.{EndsOnce, TellsPut};
ghost use Rattle.sdbt_base.specs.Told.{Got, GotPart};
ghost use Rattle.sdbt_base.specs.Rises.{MayRiseBy};
ghost use Rattle.device_course.specs.States.{around};
ghost use Rattle.byte_arrays.specs.Ranges.{touched_blocks};
ghost use Rattle.device_session.specs.Open.{IsOpen, blocks_of, needed_by};
ghost use Rattle.nbd_lang.specs.Requests.{bytes_behind};
ghost use Rattle.nbd_lang.specs.Refusals.{refusal};
ghost use Rattle.nbd_lang.specs.Replies.{Reply, reply_bytes};
ghost use Rattle.session_calls.specs.Along.{Along, drawn_by};
ghost use Rattle.sdbt_base.specs.Counts.{Counts};
ghost use Rattle.nbd_terms.specs.Turn.{Answers};
ghost use Rattle.nbd_core.specs.Halts.{Blames, commit_outcome};
ghost use Rattle.nbd_core.specs.Requests.{DataCame, DataEnd, HeadCame};
ghost use Rattle.nbd_core.specs.Served.{Answered, EndsByDisconnect, Served};
ghost use Rattle.nbd_core.specs.Turns.{EndsByHead, Finishes, Flushed, IsByHead, IsFrom, LeadsOn, MayCome, Performs};
ghost use Rattle.session_calls.specs.Blame.{counts_of};
ghost use Rattle.session_calls.specs.Carrying.{Carries, IsReady};
ghost use Rattle.nbd_core.specs.Serving.{goes_on, performed, bytes_of_reply};

use crate::haggling::put;
use crate::halts::{Halt, after_commit};
use crate::intake::Intake;
use crate::reading::read;
use crate::stop::Stop;
use crate::trimming::trim;
use crate::writing::{let_go, write};
use device_session::{CommitReply, Session};
use nbd_lang::{
    Outcome, REPLY_HEAD, REQUEST_HEAD, REQUEST_MAGIC, Request, RequestKind, is_request,
    read_request, write_reply_head,
};
use platform::Platform;
use sdbt_base::{BLOCK, Sink, Source, Tape};
use session_calls::commit_session;
use std::alloc::Global;

/// What requests are served with beside a session.
#[derive(Drop)]
pub(crate) struct Desk {
    // a block of which a part is read or written
    block: [u8; BLOCK],
    // the room of a reply to a read, as large as the longest so far
    reply: Vec<u8>,
}

impl Desk {
    /// No room is taken for replies yet.
    pub(crate) fn new(alloc: Global) -> Desk
        ensures { vec_capacity result.reply ≡ 0 }
    {
        Desk {
            block: [0; BLOCK],
            reply: Vec::new(alloc),
        }
    }
}

/// A session that goes on behind a request, and what the request came to.
#[derive(Drop)]
pub(crate) struct Performed {
    session: Session,
    outcome: Outcome,
}

/// Serves requests up to a disconnect, or to the end of the input.
pub(crate) fn serve<P: Platform, T: Tape, I: Source, O: Sink, L: Sink>(
    first: Session,
    desk: &mut Desk,
    intake: &mut Intake,
    platform: &mut P,
    tape: &mut T,
    input: &mut I,
    output: &mut O,
    ledger: &mut L,
) -> Result<(), Halt>
    requires ready { IsReady P.tells (around P.Platform T.Tape L.Sink platform.old tape.old ledger.old) first }
    // No room is taken for replies before there is a request.
    requires empty { vec_capacity desk.old.reply ≡ 0 }
    requires fresh { needed_by first ≡ 0 }
    ensures carries { Carries P.tells
        (around P.Platform T.Tape L.Sink platform.old tape.old ledger.old)
        (around P.Platform T.Tape L.Sink platform.new tape.new ledger.new) first None (IsOk result) }
    ensures ended { I.ends input.new ≤ I.ends input.old + 1 }
    ensures blame { Blames
        (counts_of P.Platform T.Tape I.Source O.Sink L.Sink platform.old tape.old input.old output.old ledger.old)
        (counts_of P.Platform T.Tape I.Source O.Sink L.Sink platform.new tape.new input.new output.new ledger.new)
        result }
    ensures keeps { KeepsRoom 33554448 (length desk.old.reply.items) (length desk.new.reply.items) (vec_capacity desk.old.reply) (vec_capacity desk.new.reply) }
    ensures served { Served
        (IsFrom P.tells (around P.Platform T.Tape L.Sink platform.old tape.old ledger.old) first)
        P.tells (tally 0 (P.changes platform.old) (P.changes platform.new))
        (around P.Platform T.Tape L.Sink platform.old tape.old ledger.old)
        (around P.Platform T.Tape L.Sink platform.new tape.new ledger.new)
        (4096 * blocks_of first) (I.left input.old) (I.left input.new)
        intake.old intake.new (O.written output.old) (O.written output.new) result }
{
    let mut session = first;
    'requests: while let Some(request) = next_request(intake, input)? {
        if is_disconnect(&request) {
            return finish(session, platform, tape, ledger);
        }
        match answer(
            session, desk, intake, platform, tape, input, output, ledger, &request,
        ) {
            Ok(next) => session = next,
            Err(halt) => return Err(halt),
        }
    }
    Ok(()) // what was not flushed is dropped with the session
}

/// Whether a request is a disconnect.
fn is_disconnect(request: &Request) -> bool
    ensures { IsTrue result ↔ (request.now.kind ≡ RequestKind.Disconnect) }
{
    request.kind == RequestKind::Disconnect
}

/// Takes the head of the next request. `None` where the input ends before it.
fn next_request<I: Source>(intake: &mut Intake, input: &mut I) -> Result<Option<Request>, Halt>
    ensures came { HeadCame (I.left input.old) (I.left input.new) intake.old intake.new result }
    ensures ended { EndsOnce result (λ request. IsSome request) (I.ends input.old) (I.ends input.new) }
    ensures blame { (rest : Counts)
        → Blames (record rest { input = I.faults input.old })
        (record rest { input = I.faults input.new }) result }
{
    match intake.need(input, REQUEST_MAGIC) {
        Ok(true) => {}
        Ok(false) => return at_end(intake.count()),
        Err(stop) => return Err(Halt::Client(stop)),
    }
    if !is_request(&intake.ahead()[..REQUEST_MAGIC]) {
        return Err(Halt::Client(Stop::Broken));
    }
    match intake.need(input, REQUEST_MAGIC + REQUEST_HEAD) {
        Ok(true) => {}
        Ok(false) => return Err(Halt::Client(Stop::Broken)),
        Err(stop) => return Err(Halt::Client(stop)),
    }
    let request = read_request(&intake.ahead()[REQUEST_MAGIC..REQUEST_MAGIC + REQUEST_HEAD]);
    intake.skip(REQUEST_MAGIC + REQUEST_HEAD);
    Ok(Some(request))
}

/// What the input's end is, with so many bytes before it that are no request.
fn at_end(count: usize) -> Result<Option<Request>, Halt>
    ensures none { count ≡ 0 → result ≡ Ok None }
    ensures broken { 0 < count → result ≡ Err (Halt.Client Stop.Broken) }
{
    if count > 0 {
        return Err(Halt::Client(Stop::Broken));
    }
    Ok(None)
}

/// Serves a request that is no disconnect, and puts its reply.
fn answer<P: Platform, T: Tape, I: Source, O: Sink, L: Sink>(
    session: Session,
    desk: &mut Desk,
    intake: &mut Intake,
    platform: &mut P,
    tape: &mut T,
    input: &mut I,
    output: &mut O,
    ledger: &mut L,
    request: &Request,
) -> Result<Session, Halt>
    requires ready { IsReady P.tells (around P.Platform T.Tape L.Sink platform.old tape.old ledger.old) session }
    requires kind { request.now.kind ≢ RequestKind.Disconnect }
    ensures carries { Carries P.tells
        (around P.Platform T.Tape L.Sink platform.old tape.old ledger.old)
        (around P.Platform T.Tape L.Sink platform.new tape.new ledger.new) session
        (goes_on result) (IsOk result) }
    ensures ended { EndsOnce result (λ done. Unit {0}) (I.ends input.old) (I.ends input.new) }
    ensures blame { Blames
        (counts_of P.Platform T.Tape I.Source O.Sink L.Sink platform.old tape.old input.old output.old ledger.old)
        (counts_of P.Platform T.Tape I.Source O.Sink L.Sink platform.new tape.new input.new output.new ledger.new)
        result }
    ensures keeps { KeepsRoom (room_for (4096 * blocks_of session) request.now) (length desk.old.reply.items) (length desk.new.reply.items) (vec_capacity desk.old.reply) (vec_capacity desk.new.reply) }
    ensures changes { P.tells → MayRiseBy (changes_for (4096 * blocks_of session) request.now) (P.changes platform.old) (P.changes platform.new) }
    ensures answered { Answered P.tells
        (around P.Platform T.Tape L.Sink platform.old tape.old ledger.old)
        (around P.Platform T.Tape L.Sink platform.new tape.new ledger.new) session
        (4096 * blocks_of session) request.now (I.left input.old) (I.left input.new)
        intake.old intake.new (O.written output.old) (O.written output.new) result }
{
    match perform(
        session, desk, intake, platform, tape, input, ledger, request,
    ) {
        Ok(done) => {
            match put_reply(desk, request, done.outcome, output) {
                Ok(()) => Ok(done.session),
                Err(stop) => Err(Halt::Client(stop)),
            }
        }
        Err(halt) => Err(halt),
    }
}

/// Does what a request asks for that is no disconnect.
fn perform<P: Platform, T: Tape, I: Source, L: Sink>(
    first: Session,
    desk: &mut Desk,
    intake: &mut Intake,
    platform: &mut P,
    tape: &mut T,
    input: &mut I,
    ledger: &mut L,
    request: &Request,
) -> Result<Performed, Halt>
    requires ready { IsReady P.tells (around P.Platform T.Tape L.Sink platform.old tape.old ledger.old) first }
    requires kind { request.now.kind ≢ RequestKind.Disconnect }
    ensures carries { Carries P.tells
        (around P.Platform T.Tape L.Sink platform.old tape.old ledger.old)
        (around P.Platform T.Tape L.Sink platform.new tape.new ledger.new) first
        (performed result) (IsOk result) }
    ensures ended { EndsOnce result (λ done. Unit {0}) (I.ends input.old) (I.ends input.new) }
    ensures blame { (rest : Counts)
        → Blames (record rest { platform = P.faults platform.old; tape = T.faults tape.old; input = I.faults input.old; ledger = L.faults ledger.old })
        (record rest { platform = P.faults platform.new; tape = T.faults tape.new; input = I.faults input.new; ledger = L.faults ledger.new }) result }
    ensures bytes { DataCame (I.left input.old) (I.left input.new) intake.old intake.new
        (bytes_behind request.now.kind request.now.length)
        (λ gone. Performs P.tells
        (around P.Platform T.Tape L.Sink platform.old tape.old ledger.old)
        (around P.Platform T.Tape L.Sink platform.new tape.new ledger.new) first
        (record { head = request.now; bytes = gone }) desk.new.reply.items result
        × PerformsTrue P.Platform platform.old platform.new first
        (record { head = request.now; bytes = gone }) desk.new.reply.items result) result }
    ensures room { IfOk result (λ done. request.now.kind ≡ RequestKind.Read → done.outcome ≡ Outcome.Done
        → 16 + request.now.length ≤ length desk.new.reply.items) }
    ensures keeps { KeepsRoom (room_for (4096 * blocks_of first) request.now) (length desk.old.reply.items) (length desk.new.reply.items) (vec_capacity desk.old.reply) (vec_capacity desk.new.reply) }
    ensures ends { EndsByHead request.now.kind (refusal (4096 * blocks_of first) request.now) result }
    ensures reads { P.tells → P.reads platform.new ≤ P.reads platform.old + reads_for (4096 * blocks_of first) request.now }
    ensures changes { P.tells → MayRiseBy (changes_for (4096 * blocks_of first) request.now) (P.changes platform.old) (P.changes platform.new) }
    ensures adds { (n : ℕ) → needed_by first ≤ 41 * n → IfErr result
        (λ halt. P.head platform.new ≤ P.head platform.old
        + left_by halt (needed_for (4096 * blocks_of first) request.now n)) }
    ensures spends { (n : ℕ) → needed_by first ≤ 41 * n → IfOk result
        (λ done. Spends (4096 * blocks_of first) (P.capacity platform.new - P.head platform.new) n
        request.now done.session done.outcome) }
{
    let refused = request.refusal(first.blocks() * BLOCK as u64);
    if is_flush(request, refused) {
        return flush(first, platform, tape, ledger);
    }
    let mut session = first;
    match serve_blocks(
        &mut session,
        desk,
        intake,
        platform,
        tape,
        input,
        request,
        refused,
    ) {
        Ok(outcome) => Ok(Performed { session, outcome }),
        Err(halt) => Err(halt),
    }
}

/// Whether a request is a flush that isn't refused.
fn is_flush(request: &Request, refused: Option<Outcome>) -> bool
    ensures { IsTrue result ↔ ((request.now.kind ≡ RequestKind.Flush) × (refused ≡ None)) }
{
    request.kind == RequestKind::Flush && refused.is_none()
}

/// Serves a request that may read, write or trim blocks, unless it is refused by its head.
fn serve_blocks<P: Platform, T: Tape, I: Source>(
    session: &mut Session,
    desk: &mut Desk,
    intake: &mut Intake,
    platform: &mut P,
    tape: &mut T,
    input: &mut I,
    request: &Request,
    refused: Option<Outcome>,
) -> Result<Outcome, Halt>
    requires open { IsOpen session.old (P.head platform.old) }
    requires refusal { refused ≡ refusal (4096 * blocks_of session.old) request.now }
    requires kind { (request.now.kind ≢ RequestKind.Disconnect) × (refused ≡ None → request.now.kind ≢ RequestKind.Flush) }
    ensures along { Along P.Platform
        (unless_refused refused (blocks_of_range request.now.kind request.now.offset request.now.length))
        (unless_refused refused (reads_at request.now.kind request.now.offset request.now.length))
        platform.old platform.new (drawn_by T.Tape tape.old) (drawn_by T.Tape tape.new)
        session.old session.new }
    ensures ended { EndsOnce result (λ done. Unit {0}) (I.ends input.old) (I.ends input.new) }
    ensures blame { (rest : Counts)
        → Blames (record rest { platform = P.faults platform.old; tape = T.faults tape.old; input = I.faults input.old })
        (record rest { platform = P.faults platform.new; tape = T.faults tape.new; input = I.faults input.new }) result }
    ensures bytes { DataCame (I.left input.old) (I.left input.new) intake.old intake.new
        (bytes_behind request.now.kind request.now.length)
        (λ gone. LeadsOn P.Platform platform.old platform.new session.old session.new
        (λ outcome entry next. Answers (P.capacity platform.old - entry.pages) refused entry
        (record { head = request.now; bytes = gone }) outcome
        (bytes_of_reply request.now.kind request.now.length outcome desk.new.reply.items) next)
        result
        × AnswersTrue P.Platform platform.old platform.new session.old session.new
        (record { head = request.now; bytes = gone }) desk.new.reply.items result) result }
    ensures room { IfOk result (λ outcome. request.now.kind ≡ RequestKind.Read → outcome ≡ Outcome.Done
        → 16 + request.now.length ≤ length desk.new.reply.items) }
    ensures keeps { KeepsRoom (unless_refused refused (room_at request.now.kind request.now.length)) (length desk.old.reply.items) (length desk.new.reply.items) (vec_capacity desk.old.reply) (vec_capacity desk.new.reply) }
    ensures ends { IsByHead request.now.kind refused result }
    ensures adds { P.head platform.new ≤ P.head platform.old
        + unless_refused refused (needed_at request.now.kind 0 request.now.offset request.now.length) }
    ensures short { IfOk result (λ outcome. refused ≡ None → request.now.kind ≡ RequestKind.Write
        → outcome ≡ Outcome.NoSpace → P.capacity platform.new - P.head platform.new
        < length (touched_blocks request.now.offset request.now.length)) }
{
    if let Some(outcome) = refused {
        return let_go(intake, input, bytes_of(request), outcome);
    }
    match request.kind {
        RequestKind::Read => read(session, &mut desk.block, &mut desk.reply, platform, request),
        RequestKind::Write => write(
            session,
            &mut desk.block,
            intake,
            platform,
            tape,
            input,
            request,
        ),
        RequestKind::Trim => trim(session, platform, request),
        RequestKind::Flush | RequestKind::Disconnect | RequestKind::Other(_) => unreachable!(),
    }
}

/// How many bytes follow the head of a request.
fn bytes_of(request: &Request) -> u64
    ensures { result ≡ bytes_behind request.now.kind request.now.length }
{
    match request.kind {
        RequestKind::Write => request.length as u64,
        _ => 0,
    }
}

/// Makes a session's changes the device's, where enough pages are free.
fn flush<P: Platform, T: Tape, L: Sink>(
    session: Session,
    platform: &mut P,
    tape: &mut T,
    ledger: &mut L,
) -> Result<Performed, Halt>
    requires ready { IsReady P.tells (around P.Platform T.Tape L.Sink platform.old tape.old ledger.old) session }
    ensures carries { Carries P.tells
        (around P.Platform T.Tape L.Sink platform.old tape.old ledger.old)
        (around P.Platform T.Tape L.Sink platform.new tape.new ledger.new) session
        (performed result) (IsOk result) }
    ensures halts { (left : Option (List ℕ)) (came : List ℕ) → IfErr result (DataEnd left 0 came) }
    ensures blame { (rest : Counts)
        → Blames (record rest { platform = P.faults platform.old; tape = T.faults tape.old; ledger = L.faults ledger.old })
        (record rest { platform = P.faults platform.new; tape = T.faults tape.new; ledger = L.faults ledger.new }) result }
    ensures flushes { Flushed P.tells
        (around P.Platform T.Tape L.Sink platform.old tape.old ledger.old)
        (around P.Platform T.Tape L.Sink platform.new tape.new ledger.new) session result }
    ensures says { IfOk result (λ done. SaysTrue ⊥ ⊥ (needed_by done.session ≡ 0)
        (FindsSame (P.history platform.old).present (P.history platform.new).present
        session done.session) done.outcome) }
    ensures comes { IfOk result (λ done. MayCome RequestKind.Flush done.outcome) }
    ensures reads { P.tells → P.reads platform.new ≡ P.reads platform.old }
    ensures changes { P.tells → MayRiseBy 2 (P.changes platform.old) (P.changes platform.new) }
    ensures adds { IfErr result (λ halt. P.head platform.new ≤ P.head platform.old
        + left_by halt (needed_by session)) }
    ensures spends { IfOk result (λ done. FlushSpends (needed_by session)
        (P.capacity platform.new - P.head platform.new) (P.head platform.old)
        (P.head platform.new) done.session done.outcome) }
{
    match commit_session(session, platform, tape, ledger) {
        Ok(done) => Ok(Performed {
            outcome: outcome_of(&done.reply),
            session: done.session,
        }),
        Err(stop) => Err(after_commit(stop)),
    }
}

/// What a flush comes to.
fn outcome_of(reply: &CommitReply) -> Outcome
    ensures { result ≡ commit_outcome reply.now }
{
    match reply {
        CommitReply::Committed { .. } => Outcome::Done,
        CommitReply::Full { .. } => Outcome::NoSpace,
    }
}

/// Serves a disconnect: makes a session's changes the device's, and gives it up.
fn finish<P: Platform, T: Tape, L: Sink>(
    session: Session,
    platform: &mut P,
    tape: &mut T,
    ledger: &mut L,
) -> Result<(), Halt>
    requires ready { IsReady P.tells (around P.Platform T.Tape L.Sink platform.old tape.old ledger.old) session }
    ensures carries { Carries P.tells
        (around P.Platform T.Tape L.Sink platform.old tape.old ledger.old)
        (around P.Platform T.Tape L.Sink platform.new tape.new ledger.new) session
        None (IsOk result) }
    ensures blame { (rest : Counts)
        → Blames (record rest { platform = P.faults platform.old; tape = T.faults tape.old; ledger = L.faults ledger.old })
        (record rest { platform = P.faults platform.new; tape = T.faults tape.new; ledger = L.faults ledger.new }) result }
    ensures ends { EndsByDisconnect result }
    ensures reads { P.tells → P.reads platform.new ≡ P.reads platform.old }
    ensures changes { P.tells → MayRiseBy 2 (P.changes platform.old) (P.changes platform.new) }
    ensures short { result ≡ Err Halt.Unfinished
        → P.capacity platform.new - P.head platform.new < needed_by session }
    ensures adds { IfErr result (λ halt. P.head platform.new ≤ P.head platform.old
        + left_by halt (needed_by session)) }
    ensures finishes { Finishes P.tells
        (around P.Platform T.Tape L.Sink platform.old tape.old ledger.old)
        (around P.Platform T.Tape L.Sink platform.new tape.new ledger.new) session result }
{
    match flush(session, platform, tape, ledger) {
        Ok(done) if done.outcome == Outcome::Done => Ok(()),
        Ok(_) => Err(Halt::Unfinished),
        Err(halt) => Err(halt),
    }
}

/// Puts the reply to a request.
fn put_reply<O: Sink>(
    desk: &mut Desk,
    request: &Request,
    outcome: Outcome,
    output: &mut O,
) -> Result<(), Stop>
    requires room { request.now.kind ≡ RequestKind.Read → outcome ≡ Outcome.Done
        → 16 + request.now.length ≤ length desk.old.reply.items }
    ensures put { OnOk result (Got (O.written output.old)
        (reply_bytes (record {
          outcome = outcome;
          cookie = request.now.cookie;
          bytes = bytes_of_reply request.now.kind request.now.length outcome desk.old.reply.items;
        }))
        (O.written output.new)) }
    ensures part { OnErr result (GotPart (O.written output.old)
        (reply_bytes (record {
          outcome = outcome;
          cookie = request.now.cookie;
          bytes = bytes_of_reply request.now.kind request.now.length outcome desk.old.reply.items;
        }))
        (O.written output.new)) }
    ensures same_room { (length desk.new.reply.items ≡ length desk.old.reply.items) × (vec_capacity desk.new.reply ≡ vec_capacity desk.old.reply) }
    ensures fell { O.faults output.old ≤ O.faults output.new }
    ensures cause { TellsPut result (O.faults output.old) (O.faults output.new) }
{
    if has_bytes(request, outcome) {
        let whole = &mut desk.reply[..REPLY_HEAD + request.length as usize];
        return put_read(whole, request.cookie, output);
    }
    put_head(outcome, request.cookie, output)
}

/// Whether bytes stand behind the head of a reply.
fn has_bytes(request: &Request, outcome: Outcome) -> bool
    ensures { IsTrue result ↔ ((request.now.kind ≡ RequestKind.Read) × (outcome ≡ Outcome.Done)) }
{
    request.kind == RequestKind::Read && outcome == Outcome::Done
}

/// Puts a reply whose bytes stand there behind the room for its head.
fn put_read<O: Sink>(whole: &mut [u8], cookie: u64, output: &mut O) -> Result<(), Stop>
    requires { 16 ≤ length whole.old }
    ensures put { OnOk result (Got (O.written output.old)
        (reply_bytes (record { outcome = Outcome.Done; cookie = cookie; bytes = drop 16 whole.old }))
        (O.written output.new)) }
    ensures part { OnErr result (GotPart (O.written output.old)
        (reply_bytes (record { outcome = Outcome.Done; cookie = cookie; bytes = drop 16 whole.old }))
        (O.written output.new)) }
    ensures fell { O.faults output.old ≤ O.faults output.new }
    ensures cause { TellsPut result (O.faults output.old) (O.faults output.new) }
{
    write_reply_head(Outcome::Done, cookie, whole);
    put(whole, output)
}

/// Puts a reply without bytes.
fn put_head<O: Sink>(outcome: Outcome, cookie: u64, output: &mut O) -> Result<(), Stop>
    ensures put { OnOk result (Got (O.written output.old)
        (reply_bytes (record { outcome = outcome; cookie = cookie; bytes = [] }))
        (O.written output.new)) }
    ensures part { OnErr result (GotPart (O.written output.old)
        (reply_bytes (record { outcome = outcome; cookie = cookie; bytes = [] }))
        (O.written output.new)) }
    ensures fell { O.faults output.old ≤ O.faults output.new }
    ensures cause { TellsPut result (O.faults output.old) (O.faults output.new) }
{
    let mut head = [0; REPLY_HEAD];
    write_reply_head(outcome, cookie, &mut head);
    put(&head, output)
}

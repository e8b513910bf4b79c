//! Serves a script line by line.
ghost use Rattle.std.specs.Prelude.{◌≡◌, ◌≤◌, ◌⊎◌, ◌∷◌, [], ◌++◌, ℕ, List, IfErr, OnOk, IsOk, IsErrOf, ◌+◌, IfSome, IfNone, Option, None, ⊤, option_copied};
ghost use Rattle.sdbt_base.specs.Told.{Got, GotPart};
ghost use Rattle.script_lang.specs.Grammar.{Spells, IsBad};
ghost use Rattle.text_lines.specs.Lines.{whole_lines_of, rest_of, last_line as line_at_end};
ghost use Rattle.script_lang.specs.Commands.{FitsBlock as FitsCommand, asked};
ghost use Rattle.script_lang.specs.Replies.{CanWrite, FitsBlock, line_of, said};
ghost use Rattle.device_terms.specs.Served.{IsServedImage};
ghost use Rattle.device_session.specs.Sessions.{Session};
ghost use Rattle.device_cli.specs.Desk.{IsWipedBehind, Before, AfterLine};
ghost use Rattle.device_cli.specs.World.{start_by, world_by};
ghost use Rattle.device_cli.specs.Run.{IsRefusal};
ghost use Rattle.line_run.specs.Stops.{IsBlamedOn, status_of, IsSound};
ghost use Rattle.sdbt_base.specs.Counts.{counts};
ghost use Rattle.line_run.specs.Pending.{IsPending, IsUnfinished};
ghost use Rattle.device_cli.specs.Replied.{Handled};
ghost use Rattle.line_run.specs.Puts.{HasPut, no_line, damage_line, TellsPut};
ghost use Rattle.device_cli.specs.Ran.{Ran};
ghost use Rattle.device_course.specs.Keys.{KeepsOn};
ghost use Rattle.session_calls.specs.Cells.{IsUntouched};
ghost use Rattle.device_cli.specs.Parts.{Blames, Keeps};

use crate::desk::Desk;
use line_run::{Pending, Stop, last_line};
use platform::Platform;
use script_lang::{Command, Reply, ReplyWriter, parse};
use sdbt_base::{BLOCK, MAX_INPUT, Sink, Source, Tape};
use session_calls::{DeviceStop, check_cell};
use std::alloc::Global;
use text_lines::split_line;

/// The most that one take asks for.
const PIECE: usize = 4096;

/// Serves the script that the input gives, where the root cell is empty or its record can be served.
pub(crate) fn run<P: Platform, T: Tape, I: Source, O: Sink, L: Sink>(
    alloc: Global,
    platform: &mut P,
    tape: &mut T,
    input: &mut I,
    output: &mut O,
    ledger: &mut L,
) -> Result<(), Stop>
    // An input that is at its end is asked no more.
    ensures ended { I.ends input.new ≤ I.ends input.old + 1 }
    ensures refused_only { P.tells → IfErr result (λ stop. status_of stop ≡ 8 → IsServedImage (P.history platform.old).present → ⊥) }
    ensures refused { P.tells → (IsServedImage (P.history platform.old).present → ⊥) → IfErr result (λ stop. IsRefusal stop)
        × (IsOk result → ⊥) }
    ensures untouched { P.tells → (IsServedImage (P.history platform.old).present → ⊥)
        → IsUntouched tape.old tape.new input.old input.new ledger.old ledger.new (P.head platform.old) (P.head platform.new) (P.history platform.old) (P.history platform.new) }
    ensures said { P.tells → IfErr result (λ stop. status_of stop ≡ 8 → Got (O.written output.old) (damage_line DeviceStop.BadRoot) (O.written output.new)) }
    ensures keeps { KeepsOn P.tells (T.drawn tape.old) (T.drawn tape.new) (L.written ledger.old) (L.written ledger.new) None
        (P.history platform.old) (P.history platform.new) (IsOk result) (λ keys. ⊤) }
    ensures blame { IsBlamedOn
        (counts (P.faults platform.old) (T.faults tape.old) (I.faults input.old) (O.faults output.old) (L.faults ledger.old))
        (counts (P.faults platform.new) (T.faults tape.new) (I.faults input.new) (O.faults output.new) (L.faults ledger.new)) result }
    ensures ran { (session : Option Session)
        × Ran P.tells (input.new ≡ input.old) (start_by P.Platform T.Tape platform.old tape.old) (world_by P.Platform T.Tape session platform.new tape.new)
        damage_line result (I.left input.old) (I.left input.new) (O.written output.old) (O.written output.new) }
{
    match check_cell(platform) {
        Ok(_) => {}
        Err(stop) => return Err(last_line(stop, output)),
    }
    let mut desk = Desk::new(alloc);
    let Err(stop) = serve_input(&mut desk, platform, tape, input, output, ledger) else {
        return Ok(());
    };
    match stop {
        Stop::Device(stop) => Err(last_line(stop, output)),
        _ => Err(stop),
    }
}

/// Takes pieces of the input to its end, or to the limit, and serves the lines in them.
fn serve_input<P: Platform, T: Tape, I: Source, O: Sink, L: Sink>(
    desk: &mut Desk,
    platform: &mut P,
    tape: &mut T,
    input: &mut I,
    output: &mut O,
    ledger: &mut L,
) -> Result<(), Stop>
    requires { Before P.Platform desk.old platform.old }
    ensures bad_root { P.tells → IsErrOf result (Stop.Device DeviceStop.BadRoot) → ⊥ }
    ensures ended { I.ends input.new ≤ I.ends input.old + 1 }
    ensures keeps { Keeps P.Platform T.Tape L.Sink desk.old desk.new platform.old platform.new tape.old tape.new ledger.old ledger.new result }
    ensures blame { IsBlamedOn
        (counts (P.faults platform.old) (T.faults tape.old) (I.faults input.old) (O.faults output.old) (L.faults ledger.old))
        (counts (P.faults platform.new) (T.faults tape.new) (I.faults input.new) (O.faults output.new) (L.faults ledger.new)) result }
    ensures ran { Ran P.tells ⊥ (world_by P.Platform T.Tape desk.old.session platform.old tape.old) (world_by P.Platform T.Tape desk.new.session platform.new tape.new)
        no_line result (I.left input.old) (I.left input.new) (O.written output.old) (O.written output.new) }
{
    let mut piece = [0; PIECE];
    let mut pending = Pending::new();
    let mut left = MAX_INPUT;
    while left > 0 {
        let room = left.min(PIECE as u64) as usize;
        let Ok(count) = input.take(&mut piece[..room]) else {
            return Err(Stop::Source);
        };
        if count == 0 {
            return serve_end(desk, &pending, platform, tape, output, ledger);
        }
        match serve_piece(
            desk,
            &mut pending,
            platform,
            tape,
            output,
            ledger,
            &piece[..count],
        ) {
            Ok(()) => {}
            Err(stop) => return Err(stop),
        }
        left -= count as u64;
    }
    Err(Stop::Limit)
}

/// Serves each line that a piece ends, and keeps what comes behind the last line feed.
fn serve_piece<P: Platform, T: Tape, O: Sink, L: Sink>(
    desk: &mut Desk,
    pending: &mut Pending,
    platform: &mut P,
    tape: &mut T,
    output: &mut O,
    ledger: &mut L,
    piece: &[u8],
) -> Result<(), Stop>
    requires { Before P.Platform desk.old platform.old }
    ensures after { AfterLine P.Platform desk.new platform.new result }
    ensures keeps { Keeps P.Platform T.Tape L.Sink desk.old desk.new platform.old platform.new tape.old tape.new ledger.old ledger.new result }
    ensures blame { Blames P.Platform T.Tape O.Sink L.Sink platform.old platform.new tape.old tape.new output.old output.new ledger.old ledger.new result }
    ensures pending { (rest : List ℕ) → IsUnfinished pending.old rest → OnOk result (IsUnfinished pending.new (rest_of (rest ++ piece.now))) }
    ensures handled { (rest : List ℕ) → IsUnfinished pending.old rest → Handled P.tells ⊥ (world_by P.Platform T.Tape desk.old.session platform.old tape.old)
        (world_by P.Platform T.Tape desk.new.session platform.new tape.new)
        no_line result (whole_lines_of (rest ++ piece.now)) (O.written output.old) (O.written output.new) }
{
    let mut rest = piece;
    while let Some((front, behind)) = split_line(rest) {
        let line = pending.complete(front);
        if let Err(stop) = answer(desk, line, platform, tape, output, ledger) {
            return Err(stop);
        }
        pending.clear();
        rest = behind;
    }
    pending.push(rest);
    Ok(())
}

/// Serves a last line that lacks its line feed.
fn serve_end<P: Platform, T: Tape, O: Sink, L: Sink>(
    desk: &mut Desk,
    pending: &Pending,
    platform: &mut P,
    tape: &mut T,
    output: &mut O,
    ledger: &mut L,
) -> Result<(), Stop>
    requires { Before P.Platform desk.old platform.old }
    ensures after { AfterLine P.Platform desk.new platform.new result }
    ensures keeps { Keeps P.Platform T.Tape L.Sink desk.old desk.new platform.old platform.new tape.old tape.new ledger.old ledger.new result }
    ensures blame { Blames P.Platform T.Tape O.Sink L.Sink platform.old platform.new tape.old tape.new output.old output.new ledger.old ledger.new result }
    ensures handled { (rest : List ℕ) → IsUnfinished pending.now rest → Handled P.tells ⊥ (world_by P.Platform T.Tape desk.old.session platform.old tape.old)
        (world_by P.Platform T.Tape desk.new.session platform.new tape.new)
        no_line result (line_at_end rest) (O.written output.old) (O.written output.new) }
{
    if pending.is_empty() {
        return Ok(());
    }
    answer(desk, pending.line(), platform, tape, output, ledger)
}

/// Serves a line and puts its reply. None is a line that is too long for the grammar.
fn answer<P: Platform, T: Tape, O: Sink, L: Sink>(
    desk: &mut Desk,
    line: Option<&[u8]>,
    platform: &mut P,
    tape: &mut T,
    output: &mut O,
    ledger: &mut L,
) -> Result<(), Stop>
    requires { Before P.Platform desk.old platform.old }
    ensures after { AfterLine P.Platform desk.new platform.new result }
    ensures keeps { Keeps P.Platform T.Tape L.Sink desk.old desk.new platform.old platform.new tape.old tape.new ledger.old ledger.new result }
    ensures blame { Blames P.Platform T.Tape O.Sink L.Sink platform.old platform.new tape.old tape.new output.old output.new ledger.old ledger.new result }
    ensures handled { (text : List ℕ) → IsPending (option_copied line.entry) text → Handled P.tells ⊥ (world_by P.Platform T.Tape desk.old.session platform.old tape.old)
        (world_by P.Platform T.Tape desk.new.session platform.new tape.new)
        no_line result (text ∷ []) (O.written output.old) (O.written output.new) }
    // A line that ends a session leaves nothing of what was written and read.
    ensures wiped { OnOk result (IsWipedBehind desk.old desk.new) }
{
    let Some(command) = read_line(line, &mut desk.buffer) else {
        return put_reply(&mut desk.writer, &Reply::Bad, &desk.buffer, output);
    };
    match desk.serve(platform, tape, ledger, &command) {
        Ok(reply) => put_reply(&mut desk.writer, &reply, &desk.buffer, output),
        Err(stop) => Err(Stop::Device(stop)),
    }
}

/// The command that a line spells, whose bytes come to the buffer. None is a line that is too long for the grammar.
// Inlined, since what it hands back goes by way of memory else, for each line.
#[inline(always)]
fn read_line(line: Option<&[u8]>, buffer: &mut [u8; BLOCK]) -> Option<Command>
    ensures found { IfSome result (λ command. (text : List ℕ) → IsPending (option_copied line.entry) text → Spells text (asked command buffer.new)) }
    ensures fits { IfSome result FitsCommand }
    ensures none { IfNone result ((text : List ℕ) → IsPending (option_copied line.entry) text → IsBad text) }
{
    match line {
        Some(line) => parse(line, buffer),
        None => None,
    }
}

/// Puts a reply's line.
fn put_reply<O: Sink>(
    writer: &mut ReplyWriter,
    reply: &Reply,
    buffer: &[u8; BLOCK],
    output: &mut O,
) -> Result<(), Stop>
    requires fits { FitsBlock reply.now }
    requires trimmed { CanWrite (said reply.now buffer.now) }
    ensures put { HasPut (line_of (said reply.now buffer.now)) result (O.written output.old) (O.written output.new) }
    ensures stop { TellsPut result (O.faults output.old) (O.faults output.new) }
    ensures count { O.faults output.old ≤ O.faults output.new }
{
    match writer.write(reply, buffer, output) {
        Ok(()) => Ok(()),
        Err(_) => Err(Stop::Sink),
    }
}

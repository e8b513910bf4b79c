//! A run: what is looked at first, the talk with a client, and its requests.
ghost use Rattle.std.specs.Prelude.{◌≡◌, ◌≢◌, ◌≤◌, ◌⊎◌, ◌*◌, None, IsOk, IfErr, IsErrOf, ◌+◌};
ghost use Rattle.device_terms.specs.Served.{IsServedImage};
ghost use Rattle.device_course.specs.States.{around};
ghost use Rattle.device_session.specs.Open.{blocks_of, needed_by};
ghost use Rattle.device_session.specs.Reading.{room_of};
ghost use Rattle.nbd_core.specs.Changes.{tally};
ghost use Rattle.nbd_core.specs.Halts.{Blames, IsLate};
ghost use Rattle.session_calls.specs.Blame.{counts_of};
ghost use Rattle.session_calls.specs.Carrying.{Carries, IsReady};
ghost use Rattle.nbd_core.specs.Turns.{IsFrom};
ghost use Rattle.session_calls.specs.Spans.{Spans};
ghost use Rattle.nbd_core.specs.Running.{Says, Talks, Looked, Untouched, OfCell, OfMount, cell_halt, mount_halt, IsOnCell};

use crate::haggling::{Agreed, haggle};
use crate::halts::Halt;
use crate::intake::Intake;
use crate::serving::{Desk, serve};
use device_session::Session;
use platform::Platform;
use sdbt_base::{BLOCK, Sink, Source, Tape};
use session_calls::{DeviceStop, check_cell, mount_session};
use std::alloc::Global;

/// How many nodes a session keeps in memory.
const CACHED_NODES: usize = 256;

/// The most bytes that are taken of an input.
const MOST_INPUT: u64 = 1 << 40;

/// Serves the device to one client, where there is a device that can be served.
pub(crate) fn run<P: Platform, T: Tape, I: Source, O: Sink, L: Sink>(
    alloc: Global,
    platform: &mut P,
    tape: &mut T,
    input: &mut I,
    output: &mut O,
    ledger: &mut L,
) -> Result<(), Halt>
    ensures spans { Spans P.tells
        (around P.Platform T.Tape L.Sink platform.old tape.old ledger.old)
        (around P.Platform T.Tape L.Sink platform.new tape.new ledger.new) (IsOk result) }
    ensures ended { I.ends input.new ≤ I.ends input.old + 1 }
    ensures blame { Blames
        (counts_of P.Platform T.Tape I.Source O.Sink L.Sink platform.old tape.old input.old output.old ledger.old)
        (counts_of P.Platform T.Tape I.Source O.Sink L.Sink platform.new tape.new input.new output.new ledger.new)
        result }
    ensures looked { Looked P.tells (P.history platform.old).present
        (Untouched P.tells tape.old tape.new input.old input.new output.old output.new ledger.old ledger.new
        (P.head platform.old) (P.head platform.new) (P.history platform.old) (P.history platform.new)) result }
    ensures talks { Talks P.tells (tally 2 (P.changes platform.old) (P.changes platform.new))
        (around P.Platform T.Tape L.Sink platform.old tape.old ledger.old)
        (around P.Platform T.Tape L.Sink platform.new tape.new ledger.new)
        (I.left input.old) (I.left input.new) (O.written output.old) (O.written output.new) result }
{
    match check_cell(platform) {
        Ok(Some(_)) => {}
        Ok(None) => return Err(Halt::NoDevice),
        Err(stop) => return Err(after_look(stop)),
    }
    serve_device(alloc, platform, tape, input, output, ledger)
}

/// Why a run is over whose cell could not be looked at, or not be served.
fn after_look(stop: DeviceStop) -> Halt
    requires { OfCell stop }
    ensures { result ≡ cell_halt stop }
{
    match stop {
        DeviceStop::BadRoot => Halt::BadRoot,
        DeviceStop::Platform => Halt::Platform,
        _ => unreachable!(),
    }
}

/// Opens a session on the device, and serves it.
fn serve_device<P: Platform, T: Tape, I: Source, O: Sink, L: Sink>(
    alloc: Global,
    platform: &mut P,
    tape: &mut T,
    input: &mut I,
    output: &mut O,
    ledger: &mut L,
) -> Result<(), Halt>
    requires { P.tells → IsOnCell (P.history platform.old).present }
    ensures spans { Spans P.tells
        (around P.Platform T.Tape L.Sink platform.old tape.old ledger.old)
        (around P.Platform T.Tape L.Sink platform.new tape.new ledger.new) (IsOk result) }
    ensures ended { I.ends input.new ≤ I.ends input.old + 1 }
    ensures blame { Blames
        (counts_of P.Platform T.Tape I.Source O.Sink L.Sink platform.old tape.old input.old output.old ledger.old)
        (counts_of P.Platform T.Tape I.Source O.Sink L.Sink platform.new tape.new input.new output.new ledger.new)
        result }
    ensures halts { P.tells → IfErr result IsLate }
    ensures talks { Talks P.tells (tally 1 (P.changes platform.old) (P.changes platform.new))
        (around P.Platform T.Tape L.Sink platform.old tape.old ledger.old)
        (around P.Platform T.Tape L.Sink platform.new tape.new ledger.new)
        (I.left input.old) (I.left input.new) (O.written output.old) (O.written output.new) result }
{
    match mount_session(alloc, platform, CACHED_NODES) {
        Ok(Some(session)) => serve_client(alloc, session, platform, tape, input, output, ledger),
        Ok(None) => Err(Halt::NoDevice),
        Err(stop) => Err(after_mount(stop)),
    }
}

/// Why a run is over that could not open a session.
fn after_mount(stop: DeviceStop) -> Halt
    requires { OfMount stop }
    ensures { result ≡ mount_halt stop }
{
    match stop {
        DeviceStop::BadRoot => Halt::BadRoot,
        DeviceStop::Platform => Halt::Platform,
        DeviceStop::Memory => Halt::Memory,
        _ => unreachable!(),
    }
}

/// Talks to a client, and serves its requests.
fn serve_client<P: Platform, T: Tape, I: Source, O: Sink, L: Sink>(
    alloc: Global,
    session: Session,
    platform: &mut P,
    tape: &mut T,
    input: &mut I,
    output: &mut O,
    ledger: &mut L,
) -> Result<(), Halt>
    requires ready { IsReady P.tells (around P.Platform T.Tape L.Sink platform.old tape.old ledger.old) session }
    requires fresh { needed_by session ≡ 0 }
    // The session's cache has room for a node of each level, and for no more than the run is to have in memory.
    requires room { (20 ≤ room_of session) × (room_of session ≤ 256) }
    ensures carries { Carries P.tells
        (around P.Platform T.Tape L.Sink platform.old tape.old ledger.old)
        (around P.Platform T.Tape L.Sink platform.new tape.new ledger.new) session None (IsOk result) }
    ensures ended { I.ends input.new ≤ I.ends input.old + 1 }
    ensures blame { Blames
        (counts_of P.Platform T.Tape I.Source O.Sink L.Sink platform.old tape.old input.old output.old ledger.old)
        (counts_of P.Platform T.Tape I.Source O.Sink L.Sink platform.new tape.new input.new output.new ledger.new)
        result }
    ensures halts { IfErr result IsLate }
    ensures says { Says
        (IsFrom P.tells (around P.Platform T.Tape L.Sink platform.old tape.old ledger.old) session)
        P.tells (tally 0 (P.changes platform.old) (P.changes platform.new))
        (around P.Platform T.Tape L.Sink platform.old tape.old ledger.old)
        (around P.Platform T.Tape L.Sink platform.new tape.new ledger.new)
        (4096 * blocks_of session) (I.left input.old) (I.left input.new)
        (O.written output.old) (O.written output.new) result }
{
    let Ok(mut intake) = Intake::new(alloc, MOST_INPUT) else {
        return Err(Halt::Memory);
    };
    let mut desk = Desk::new(alloc);
    let size = session.blocks() * BLOCK as u64;
    match haggle(&mut intake, size, input, output) {
        Ok(Agreed::Requests) => serve(
            session,
            &mut desk,
            &mut intake,
            platform,
            tape,
            input,
            output,
            ledger,
        ),
        Ok(Agreed::Nothing) => Ok(()),
        Err(stop) => Err(Halt::Client(stop)),
    }
}

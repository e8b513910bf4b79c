//! One run of a top call, over objects in memory.
use crate::keys::{Keys, rising};
use device_cli::run_main;
use nbd_core::run_nbd;
use platform::{Failure, MemPlatform, Platform};
use sdbt_base::{Line, MemSink, MemSource, Memory, Tape};
use std::alloc::Global;
use transfer::run_transfer;
use volumes::run_volumes;

/// Which top call serves a run.
#[derive(Clone, Copy)]
pub(crate) enum Server {
    /// That of scripts and other words.
    Script,
    /// That of a client of NBD.
    Nbd,
    /// That of volumes.
    Volumes,
}

/// What fails in the next run: calls of the platform, and by their numbers from 1 takes, draws, and puts to the output and to the
/// ledger, each put with how many bytes it still writes.
#[derive(Drop)]
pub(crate) struct Faults {
    pub(crate) calls: Vec<Failure>,
    pub(crate) takes: Vec<u64>,
    pub(crate) draws: Vec<u64>,
    pub(crate) puts: Vec<(u64, usize)>,
    pub(crate) entries: Vec<(u64, usize)>,
}

impl Faults {
    /// Nothing fails.
    pub(crate) fn none(alloc: Global) -> Faults {
        Faults {
            calls: Vec::new(alloc),
            takes: Vec::new(alloc),
            draws: Vec::new(alloc),
            puts: Vec::new(alloc),
            entries: Vec::new(alloc),
        }
    }
}

/// How a run ended, what it wrote, and how often its platform, its output or its ledger was ever given no memory.
#[derive(Drop)]
pub(crate) struct Ran {
    pub(crate) status: u8,
    pub(crate) output: Line,
    pub(crate) entries: Line,
    pub(crate) starved: u64,
}

/// What a run puts: replies, and entries of the ledger.
#[derive(Drop)]
struct Sinks {
    output: MemSink,
    ledger: MemSink,
}

impl Sinks {
    /// Sinks that nothing was put to, with what fails of them.
    fn new(alloc: Global, faults: &Faults) -> Result<Sinks, Memory> {
        let output = MemSink::new(alloc, &faults.puts)?;
        let ledger = MemSink::new(alloc, &faults.entries)?;
        Ok(Sinks { output, ledger })
    }

    /// How a run ended that put this, and whose platforms were given no memory so often.
    fn ran(&self, alloc: Global, status: u8, platforms: u64) -> Result<Ran, Memory> {
        let sinks = self.output.starved().saturating_add(self.ledger.starved());
        let output = copied(alloc, self.output.bytes())?;
        let entries = copied(alloc, self.ledger.bytes())?;
        Ok(Ran {
            status,
            output,
            entries,
            starved: platforms.saturating_add(sinks),
        })
    }
}

/// What a run takes from and puts to.
#[derive(Drop)]
struct Ends {
    input: MemSource,
    sinks: Sinks,
}

/// Hands words and an input, of which so many bytes come a take, to a top call.
pub(crate) fn serve(
    alloc: Global,
    platform: &mut MemPlatform,
    keys: &mut Keys,
    faults: &Faults,
    server: Server,
    words: &[String],
    input: &[u8],
    step: usize,
) -> Result<Ran, Memory> {
    platform.set_failures(&faults.calls)?;
    let input = MemSource::new(alloc, input, step.max(1), &faults.takes)?;
    let sinks = Sinks::new(alloc, faults)?;
    let mut ends = Ends { input, sinks };
    let status = status_under(
        alloc,
        server,
        words,
        platform,
        keys,
        &faults.draws,
        &mut ends,
    )?;
    platform.set_failures(&[])?;
    ends.sinks.ran(alloc, status, platform.starved())
}

/// Hands all to a top call, with a tape of these keys of which these draws fail where keys rise.
fn status_under(
    alloc: Global,
    server: Server,
    words: &[String],
    platform: &mut MemPlatform,
    keys: &mut Keys,
    failing: &[u64],
    ends: &mut Ends,
) -> Result<u8, Memory> {
    match keys {
        Keys::Rising => {
            let mut tape = rising(alloc, platform.head(), failing)?;
            Ok(status_of(alloc, server, words, platform, &mut tape, ends))
        }
        Keys::Seeded(tape) => Ok(status_of(alloc, server, words, platform, tape, ends)),
    }
}

/// Hands all to a top call. Its contract is not said again here, so that no proof above carries it along.
fn status_of<T: Tape>(
    alloc: Global,
    server: Server,
    words: &[String],
    platform: &mut MemPlatform,
    tape: &mut T,
    ends: &mut Ends,
) -> u8 {
    let input = &mut ends.input;
    let (output, ledger) = (&mut ends.sinks.output, &mut ends.sinks.ledger);
    match server {
        Server::Script => run_main(alloc, words, platform, tape, input, output, ledger),
        Server::Nbd => run_nbd(alloc, words, platform, tape, input, output, ledger),
        Server::Volumes => run_volumes(alloc, words, platform, tape, input, output, ledger),
    }
}

/// Hands words and two media to the top call of transfers: what fails of the first one are its calls alone.
pub(crate) fn serve_transfer(
    alloc: Global,
    from: &mut MemPlatform,
    to: &mut MemPlatform,
    keys: &mut Keys,
    calls: &[Failure],
    faults: &Faults,
    words: &[String],
) -> Result<Ran, Memory> {
    from.set_failures(calls)?;
    to.set_failures(&faults.calls)?;
    let mut sinks = Sinks::new(alloc, faults)?;
    let status = transfer_under(alloc, words, from, to, keys, &faults.draws, &mut sinks)?;
    from.set_failures(&[])?;
    to.set_failures(&[])?;
    sinks.ran(alloc, status, from.starved().saturating_add(to.starved()))
}

/// Hands all to the top call of transfers, with a tape of these keys of which these draws fail where keys rise.
fn transfer_under(
    alloc: Global,
    words: &[String],
    from: &mut MemPlatform,
    to: &mut MemPlatform,
    keys: &mut Keys,
    failing: &[u64],
    sinks: &mut Sinks,
) -> Result<u8, Memory> {
    match keys {
        Keys::Rising => {
            let mut tape = rising(alloc, to.head(), failing)?;
            Ok(transfer_status(alloc, words, from, to, &mut tape, sinks))
        }
        Keys::Seeded(tape) => Ok(transfer_status(alloc, words, from, to, tape, sinks)),
    }
}

/// Hands all to the top call of transfers. Its contract is not said again here.
fn transfer_status<T: Tape>(
    alloc: Global,
    words: &[String],
    from: &mut MemPlatform,
    to: &mut MemPlatform,
    tape: &mut T,
    sinks: &mut Sinks,
) -> u8 {
    let (output, ledger) = (&mut sinks.output, &mut sinks.ledger);
    run_transfer(alloc, words, from, to, tape, output, ledger)
}

/// These bytes.
fn copied(alloc: Global, bytes: &[u8]) -> Result<Line, Memory> {
    let mut line = Line::new(alloc);
    line.append(bytes)?;
    Ok(line)
}

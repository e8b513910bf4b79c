//! What is done with a device once it is open: it is served, or moved.

use crate::moving::move_to;
use crate::places::{NotOpened, Place, at, open_folders, open_index, run_from_index};
use folder_files::LockFile;
use folder_objects::{Ended, NotReady, open_keys, open_ledger};
use nbd_core::run_nbd;
use platform::Platform;
use sdbt_base::{ReadSource, Tape, WriteSink};
use std::alloc::Global;
use std::io;
use std::rt::Files;
use volumes::run_volumes;

/// What serves a device.
#[derive(Clone, Copy)]
pub(crate) enum Server {
    /// The server of a client of NBD.
    Nbd,
    /// That of lines of volumes.
    Volumes,
}

/// What is done with a device.
#[derive(Clone, Copy)]
pub(crate) enum Task<'a> {
    /// It is served, with these words behind its place.
    Serve(Server, &'a [String]),
    /// It is moved to this place, with standard error at a terminal or not.
    Move { at_terminal: bool, to: Place<'a> },
}

/// Does this with the device at a place. What is not ready is said on standard error.
pub(crate) fn run_at<'a, R>(rt: &R, place: Place<'a>, task: Task<'a>) -> Ended<'a>
where
    R: Files + Alloc<A = Global> + Input + Print + Eprint + Clone + Drop,
    R::File: LockFile,
{
    match open_and_run(rt, place, task) {
        Ok(run) => run,
        Err(not_opened) => not_opened.status_told(rt).into(),
    }
}

/// Opens a place, and goes on with [`run_over`].
fn open_and_run<'a, R>(rt: &R, place: Place<'a>, task: Task<'a>) -> Result<Ended<'a>, NotOpened<'a>>
where
    R: Files + Alloc<A = Global> + Input + Print + Eprint + Clone + Drop,
    R::File: LockFile,
{
    let tape = at(place, open_keys(rt))?;
    match place.index() {
        None => {
            let platform = at(place, open_folders(rt, &place))?;
            let (run, _) = run_over(rt, task, platform, tape, place)?;
            Ok(run)
        }
        Some(index) => {
            let platform = at(place, open_index(rt, &index, &place))?;
            let (run, platform) = run_over(rt, task, platform, tape, place)?;
            Ok(run_from_index(run, &place, platform.into_files().failure()))
        }
    }
}

/// Does this with the device on a platform, whose place has its ledger.
fn run_over<'a, R, P, T>(
    rt: &R,
    task: Task<'a>,
    platform: P,
    tape: T,
    place: Place<'a>,
) -> Result<(Ended<'a>, P), NotOpened<'a>>
where
    R: Files + Alloc<A = Global> + Input + Print + Eprint + Clone + Drop,
    R::File: LockFile,
    P: Platform + Drop,
    T: Tape + Drop,
{
    match task {
        Task::Serve(server, words) => {
            let served = serve_over(rt, server, platform, tape, place.folder, words);
            let (status, platform) = at(place, served)?;
            Ok((status.into(), platform))
        }
        Task::Move { at_terminal, to } => move_to(rt, at_terminal, platform, tape, to),
    }
}

/// Serves over a platform whose ledger is in `folder`. It is refused before the words behind are looked
/// at where a folder, a file in it, an index or the random source can't be made ready. The platform has
/// its locks from before anything is changed until the run has ended.
fn serve_over<R, P, T>(
    rt: &R,
    server: Server,
    mut platform: P,
    mut tape: T,
    folder: &str,
    words: &[String],
) -> Result<(u8, P), NotReady>
where
    R: Files + Alloc<A = Global> + Input + Print,
    P: Platform + Drop,
    T: Tape + Drop,
{
    let mut ledger = open_ledger(rt, folder)?;
    let mut input = ReadSource::new(rt.reader());
    let mut output = WriteSink::new(io::writer(rt));
    let status = match server {
        Server::Nbd => run_nbd(
            rt.alloc(),
            words,
            &mut platform,
            &mut tape,
            &mut input,
            &mut output,
            &mut ledger,
        ),
        Server::Volumes => run_volumes(
            rt.alloc(),
            words,
            &mut platform,
            &mut tape,
            &mut input,
            &mut output,
            &mut ledger,
        ),
    };
    Ok((status, platform))
}

//! The program: makes the objects of the outside, and hands them to the top call.
//!
//! `sdbt FOLDER` serves the script on standard input over a device in a folder,
//! `sdbt --root CELL FOLDER` over one whose root record is in a folder of its own or in an index of
//! a TPM, and `sdbt -` over one in memory.
#![tactic(auto)]

mod looking;
mod texts;

use crate::looking::{is_look, look_over};
use crate::texts::{HELP, NAME, USAGE, VERSION};
use device_cli::run_main;
use folder_files::{LockFile, open_in_folders, view_in_folders};
use folder_objects::{
    Ended, NotReady, open_keys, open_ledger, print_texts, reason_of, tell_open_cell, words_of,
};
use key_tape::SeedTape;
use platform::{MemPlatform, Platform};
use root_words::{NoRecord, NotSpelled, is_seizure, spelled_words};
use sdbt_base::{MemSink, ReadSource, Tape, WriteSink};
use std::alloc::Global;
use std::io;
use std::io::IsTerminal;
use std::process::ExitCode;
use std::rt::{Env, Files};
use tpm_cell::{open_in_tpm, view_in_tpm};
use tpm_nv::{OnTpm, parse_cell};

/// How many pages the medium in memory can have.
const PAGES: u64 = 262_144;

/// The exit status where a file of a root record can't be read, or a folder not be made ready.
const NOT_READY: u8 = 1;

/// The exit status of a faulty command line.
const FAULTY: u8 = 2;

/// The exit status where the output failed.
const OUTPUT_FAULT: u8 = 4;

/// The exit status where the medium or the root cell failed.
const PLATFORM_FAULT: u8 = 5;

/// The exit status where the ledger failed.
const LEDGER_FAULT: u8 = 7;

/// The exit status where memory was refused.
const NO_MEMORY: u8 = 11;

/// Where a device is, as the command line names it.
#[derive(Clone, Copy)]
enum Device<'a> {
    /// In memory, and gone when the program ends.
    InMemory,
    /// All of it in this folder.
    InFolder(&'a str),
    /// Its root record in what `cell` names, and its medium and ledger in `folder`.
    Apart { cell: &'a str, folder: &'a str },
}

fn main(rt: HostRuntime) -> ExitCode {
    let words = match words_of(&rt) {
        Ok(words) => words,
        Err(error) => {
            let status = if error.kind() == io::ErrorKind::OutOfMemory {
                NO_MEMORY
            } else {
                FAULTY
            };
            return ended(&rt, status.into());
        }
    };
    ended(&rt, serve(&rt, rt.stderr().is_terminal(), words.as_slice()))
}

/// The exit status of a run, after standard error said why it ended so. At status 1 that was said before.
fn ended(rt: &impl Eprint, run: Ended<'_>) -> ExitCode {
    if run.status == FAULTY {
        let _ = eprint!(rt; "{USAGE}");
    } else if let Some(reason) = reason_of(run.status) {
        run.tell(rt, NAME, reason);
    }
    ExitCode::from(run.status)
}

/// Does what the command line asks for, with standard error at a terminal or not.
fn serve<'a, R>(rt: &R, at_terminal: bool, words: &'a [String]) -> Ended<'a>
where
    R: Files + Alloc<A = Global> + Input + Print + Eprint + Clone + Drop,
    R::File: LockFile,
{
    match words {
        [] => serve_device(rt, at_terminal, Device::InMemory, &[]),
        [first, others @ ..] => match first.as_str() {
            "-" => serve_device(rt, at_terminal, Device::InMemory, others),
            "-h" | "--help" => print(rt, &[USAGE, HELP]).into(),
            "--version" => print(rt, &[VERSION]).into(),
            "--root" => match others {
                [cell, folder, others @ ..] if folder.as_str() != "-" => {
                    let (cell, folder) = (cell.as_str(), folder.as_str());
                    serve_device(rt, at_terminal, Device::Apart { cell, folder }, others)
                }
                _ => FAULTY.into(),
            },
            folder => serve_device(rt, at_terminal, Device::InFolder(folder), others),
        },
    }
}

/// Serves a device with the words behind it. Where they ask for a seizure, the files of root records that they name are
/// read before any folder is opened.
fn serve_device<'a, R>(
    rt: &R,
    at_terminal: bool,
    device: Device<'a>,
    words: &'a [String],
) -> Ended<'a>
where
    R: Files + Alloc<A = Global> + Input + Print + Eprint + Clone + Drop,
    R::File: LockFile,
{
    if !is_seizure(words) {
        return serve_spelled(rt, at_terminal, device, words);
    }
    match spelled_words(rt, words) {
        Ok(words) => serve_spelled(rt, at_terminal, device, words.as_slice()),
        Err(refusal) => not_spelled(rt, &refusal).into(),
    }
}

/// The exit status where a file of a root record was refused, which standard error names.
fn not_spelled(rt: &impl Eprint, refusal: &NotSpelled<'_>) -> u8 {
    match refusal {
        NotSpelled::Memory => NO_MEMORY,
        NotSpelled::File {
            why: NoRecord::Io(error),
            ..
        } if error.kind() == io::ErrorKind::OutOfMemory => NO_MEMORY,
        NotSpelled::File { name, why } => {
            let _ = eprintln!(rt; "{NAME}: {name}: {why}");
            NOT_READY
        }
    }
}

/// Serves a device with the words behind it, of which none names a file.
fn serve_spelled<'a, R>(
    rt: &R,
    at_terminal: bool,
    device: Device<'a>,
    words: &[String],
) -> Ended<'a>
where
    R: Files + Alloc<A = Global> + Input + Print + Eprint + Clone + Drop,
    R::File: LockFile,
{
    match device {
        Device::InMemory => serve_memory(rt, words).into(),
        Device::InFolder(folder) => serve_folders(rt, at_terminal, folder, folder, words).into(),
        Device::Apart { cell, folder } => serve_apart(rt, at_terminal, cell, folder, words),
    }
}

/// Puts texts to standard output. The answer is the exit status.
fn print(rt: &impl Print, texts: &[&str]) -> u8 {
    match print_texts(rt, texts) {
        Ok(()) => 0,
        Err(_) => OUTPUT_FAULT,
    }
}

/// Serves the script on standard input over a device in memory.
fn serve_memory(rt: &(impl Alloc<A = Global> + Input + Print), words: &[String]) -> u8 {
    let alloc = rt.alloc();
    let Ok(mut ledger) = MemSink::new(alloc, &[]) else {
        return NO_MEMORY;
    };
    let mut platform = MemPlatform::blank(alloc, PAGES);
    // The keys of a known seed are no secret: they are for a device that is gone when the program
    // ends.
    let mut tape = SeedTape::new(0);
    let mut input = ReadSource::new(rt.reader());
    let mut output = WriteSink::new(io::writer(rt));
    let status = run_main(
        alloc,
        words,
        &mut platform,
        &mut tape,
        &mut input,
        &mut output,
        &mut ledger,
    );
    status_in_memory(status, platform.starved(), ledger.starved())
}

/// The exit status of a run over a medium and a ledger in memory, which were refused memory so many times: these have no other faults.
fn status_in_memory(status: u8, medium_starved: u64, ledger_starved: u64) -> u8 {
    match status {
        PLATFORM_FAULT if medium_starved > 0 => NO_MEMORY,
        LEDGER_FAULT if ledger_starved > 0 => NO_MEMORY,
        other => other,
    }
}

/// Serves the script on standard input over a device whose medium is in `folder`, and its root record
/// in what `cell` names: a folder, or an index of a TPM.
fn serve_apart<'a, R>(
    rt: &R,
    at_terminal: bool,
    cell: &'a str,
    folder: &str,
    words: &[String],
) -> Ended<'a>
where
    R: Files + Alloc<A = Global> + Input + Print + Eprint + Clone + Drop,
    R::File: LockFile,
{
    let on_tpm = match parse_cell(cell) {
        Ok(Some(on_tpm)) => on_tpm,
        Ok(None) => return serve_folders(rt, at_terminal, cell, folder, words).into(),
        Err(_) => return FAULTY.into(),
    };
    match run_in_tpm(rt, at_terminal, cell, &on_tpm, folder, words) {
        Ok(run) => run,
        Err(not_ready) => not_ready.status_told(rt, NAME, cell, folder).into(),
    }
}

/// Serves the script on standard input over a device whose root record is in the folder `cell`, and
/// its medium in `folder`. What is not ready is said on standard error.
fn serve_folders<R>(rt: &R, at_terminal: bool, cell: &str, folder: &str, words: &[String]) -> u8
where
    R: Files + Alloc<A = Global> + Input + Print + Eprint + Clone + Drop,
    R::File: LockFile,
{
    match run_in_folders(rt, at_terminal, cell, folder, words) {
        Ok(status) => status,
        Err(not_ready) => not_ready.status_told(rt, NAME, cell, folder),
    }
}

/// Serves the script over folders: see [`run_over`] and [`look_over`].
fn run_in_folders<R>(
    rt: &R,
    at_terminal: bool,
    cell: &str,
    folder: &str,
    words: &[String],
) -> Result<u8, NotReady>
where
    R: Files + Alloc<A = Global> + Input + Print + Eprint + Clone + Drop,
    R::File: LockFile,
{
    if is_look(words) {
        let view = view_in_folders(rt.clone()?, cell, folder)?;
        tell_open_cell(rt, NAME, cell);
        let (status, _) = look_over(rt, at_terminal, view, words)?;
        return Ok(status);
    }
    let tape = open_keys(rt)?;
    let platform = open_in_folders(rt.clone()?, cell, folder)?;
    tell_open_cell(rt, NAME, cell);
    let (status, _) = run_over(rt, platform, tape, folder, words)?;
    Ok(status)
}

/// The same over a folder and an index of a TPM, which `cell` names.
fn run_in_tpm<'a, R>(
    rt: &R,
    at_terminal: bool,
    cell: &'a str,
    on_tpm: &OnTpm<'_>,
    folder: &str,
    words: &[String],
) -> Result<Ended<'a>, NotReady>
where
    R: Files + Alloc<A = Global> + Input + Print + Eprint + Clone + Drop,
    R::File: LockFile,
{
    if is_look(words) {
        let view = view_in_tpm(rt, on_tpm, folder)?;
        let (status, view) = look_over(rt, at_terminal, view, words)?;
        return Ok(Ended::over_index(status, cell, view.into_files().failure()));
    }
    let tape = open_keys(rt)?;
    let platform = open_in_tpm(rt, on_tpm, folder)?;
    let (status, platform) = run_over(rt, platform, tape, folder, words)?;
    Ok(Ended::over_index(status, cell, platform.into_files().failure()))
}

/// Serves the script over a platform whose ledger is in `folder`. It is refused before the words are
/// looked at where a folder, a file in it, an index or the random source can't be made ready. The
/// platform has its locks from before anything is changed until the run has ended.
fn run_over<R, P, T>(
    rt: &R,
    mut platform: P,
    mut tape: T,
    folder: &str,
    words: &[String],
) -> Result<(u8, P), NotReady>
where
    R: Files + Alloc<A = Global> + Input + Print,
    P: Platform + Drop,
    T: Tape + Drop,
{
    let mut ledger = open_ledger(rt, folder)?;
    let mut input = ReadSource::new(rt.reader());
    let mut output = WriteSink::new(io::writer(rt));
    let status = run_main(
        rt.alloc(),
        words,
        &mut platform,
        &mut tape,
        &mut input,
        &mut output,
        &mut ledger,
    );
    Ok((status, platform))
}

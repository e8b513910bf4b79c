//! Runs scripts over the files of a device: in memory, where the power ends after so many calls on them, and in a folder, whose
//! answers are compared with what they should be.
//!
//! `files_runner memory CALLS PAGES ROOT` serves the script on standard input, up to a line `--`, over files in memory. After CALLS
//! calls on them the power is lost. Pages that were not synced are `kept`, `torn` or `lost` then, and `root` `stays` or `falls` back to what
//! it was when its folder was last synced. A second run over what is left serves the script behind the line, and a third one
//! checks the ledger. `files_runner folder FOLDER WORD..` is a run over a folder. What each run puts is written, and behind it
//! a line with its status; and that files answered otherwise than the model says, where they did.
//! The status is 0 where all could be done and no answer was wrong, 1 where not, and 2 for other words.
#![tactic(auto)]

mod checked;
mod disk_files;
mod serving;

use checked::Checked;
use disk_files::{DiskFiles, Unsynced};
use folder_files::{LockFile, files_in_folders};
use folder_platform::{FolderPlatform, InFolder};
use key_tape::SeedTape;
use sdbt_base::Line;
use serving::serve;
use std::alloc::Global;
use std::io::Write;
use std::process::ExitCode;
use std::rt::{Env, Files};
use std::{env, fs, io};

/// The exit status where something could not be done, or an answer was wrong.
const FAILED: u8 = 1;

/// The exit status of a faulty command line.
const FAULTY: u8 = 2;

fn main(rt: HostRuntime) -> ExitCode {
    let Ok(words) = words_of(&rt) else {
        return ExitCode::from(FAILED);
    };
    match words.as_slice() {
        [kind, calls, pages, root] if kind.as_str() == "memory" => {
            match Loss::of(calls.as_str(), pages.as_str(), root.as_str()) {
                Some(loss) => ended(lose_power(&rt, &loss)),
                None => ExitCode::from(FAULTY),
            }
        }
        [kind, folder, others @ ..] if kind.as_str() == "folder" => {
            ended(run_checked(&rt, folder.as_str(), others))
        }
        _ => {
            let _ = eprintln!(&rt;
                "usage: files_runner memory CALLS PAGES ROOT | folder FOLDER WORD.."
            );
            ExitCode::from(FAULTY)
        }
    }
}

/// The exit status of what could be done, or could not; with None something could not be done.
fn ended(done: Option<bool>) -> ExitCode {
    match done {
        Some(true) => ExitCode::SUCCESS,
        _ => ExitCode::from(FAILED),
    }
}

/// The words behind the program's own name.
fn words_of(rt: &(impl Env + Alloc<A = Global>)) -> io::Result<Vec<String>> {
    let mut words = Vec::new(rt.alloc());
    for word in env::args(rt)?.skip(1) {
        words.push(word)?;
    }
    Ok(words)
}

/// After how many calls the power is lost, and what is left then.
#[derive(Drop)]
struct Loss {
    calls: u64,
    unsynced: Unsynced,
    falls_back: bool,
}

impl Loss {
    /// What words say.
    fn of(calls: &str, pages: &str, root: &str) -> Option<Loss> {
        let unsynced = match pages {
            "kept" => Unsynced::Kept,
            "torn" => Unsynced::Torn,
            "lost" => Unsynced::Lost,
            _ => return None,
        };
        let falls_back = match root {
            "stays" => false,
            "falls" => true,
            _ => return None,
        };
        Some(Loss {
            calls: calls.parse().ok()?,
            unsynced,
            falls_back,
        })
    }
}

/// A platform over files in memory.
type DiskPlatform = FolderPlatform<InFolder<DiskFiles>>;

/// What the runs over files in memory have in common: the tape of their keys, their ledger, and what they put.
#[derive(Drop)]
struct Runs {
    tape: SeedTape,
    ledger: Line,
    text: Line,
}

impl Runs {
    /// No run yet.
    fn new(alloc: Global) -> Runs {
        Runs {
            tape: SeedTape::new(1),
            ledger: Line::new(alloc),
            text: Line::new(alloc),
        }
    }

    /// One more run, with these words and this input. None, if no memory was given.
    fn serve(
        &mut self,
        alloc: Global,
        words: &[String],
        platform: &mut DiskPlatform,
        input: &[u8],
    ) -> Option<()> {
        let Runs { tape, ledger, text } = self;
        serve(alloc, words, platform, tape, input, ledger, text)
    }
}

/// Serves the scripts on standard input over files in memory. None, if something could not be done.
fn lose_power(rt: &(impl Input + Print + Alloc<A = Global>), loss: &Loss) -> Option<bool> {
    let alloc = rt.alloc();
    let text = io::read_to_string(alloc, rt.reader()).ok()?;
    let (script, look) = text.split_once("--\n")?;
    let mut runs = Runs::new(alloc);
    let files = DiskFiles::new(alloc, loss.calls);
    let mut platform = FolderPlatform::open(InFolder { files }).ok()?;
    runs.serve(alloc, &[], &mut platform, script.as_bytes())?;
    let ended = platform.into_files().files;
    let files = ended.left(loss.unsynced, loss.falls_back);
    let mut platform = FolderPlatform::open(InFolder { files }).ok()?;
    runs.serve(alloc, &[], &mut platform, look.as_bytes())?;
    let check = [String::from_str(alloc, "check").ok()?];
    let entries = copied(alloc, runs.ledger.bytes())?;
    runs.serve(alloc, &check, &mut platform, entries.bytes())?;
    io::writer(rt).write_all(runs.text.bytes()).ok()?;
    Some(true)
}

/// These bytes.
fn copied(alloc: Global, bytes: &[u8]) -> Option<Line> {
    let mut line = Line::new(alloc);
    line.append(bytes).ok()?;
    Some(line)
}

/// A run with these words over a folder. The answer is whether its files answered as they should; None, if something could not be done.
fn run_checked<R>(rt: &R, folder: &str, words: &[String]) -> Option<bool>
where
    R: Files + Alloc<A = Global> + Input + Print + Clone + Drop,
    R::File: LockFile,
{
    let alloc = rt.alloc();
    let media = format!(in alloc; "{folder}/media").ok()?;
    let root = format!(in alloc; "{folder}/root").ok()?;
    let script = io::read_to_string(alloc, rt.reader()).ok()?;
    let files = files_in_folders(rt.clone().ok()?, folder, folder).ok()?;
    let found = fs::read(rt, media.as_str()).ok()?;
    let held = fs::read(rt, root.as_str()).ok();
    let files = Checked::new(alloc, files, &found, held.as_deref())?;
    let mut platform = FolderPlatform::open(InFolder { files }).ok()?;
    let mut tape = SeedTape::new(media_seed(&found));
    let mut text = Line::new(alloc);
    let mut ledger = Line::new(alloc);
    serve(
        alloc,
        words,
        &mut platform,
        &mut tape,
        script.as_bytes(),
        &mut ledger,
        &mut text,
    )?;
    io::writer(rt).write_all(text.bytes()).ok()?;
    let checked = platform.into_files().files;
    let left = fs::read(rt, media.as_str()).ok()?;
    let held = fs::read(rt, root.as_str()).ok();
    let is_right = checked.is_right(&left, held.as_deref());
    if !is_right {
        io::writer(rt)
            .write_all(b"= files that are not the model's\n")
            .ok()?;
    }
    Some(is_right)
}

/// A seed by how long a medium is, so that no run over it draws the keys of an earlier one that added pages.
fn media_seed(media: &[u8]) -> u64 {
    media.len() as u64
}

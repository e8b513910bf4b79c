//! The second program: makes the objects of the outside, and hands them to a server or to a move.
//!
//! `sdbt_more nbd FOLDER` serves the device in a folder to a client of NBD on standard input and
//! output, and `sdbt_more volumes FOLDER` serves lines of its volumes; `--root CELL` before FOLDER says
//! that the root record is in a folder of its own or in an index of a TPM. `sdbt_more transfer FROM TO`
//! moves the device in one folder to another, and `sdbt_more` one that a script makes in memory.
#![tactic(auto)]

mod in_memory;
mod moving;
mod places;
mod tasks;
mod texts;

use crate::in_memory::serve_and_move;
use crate::moving::{move_device, reason_of_move};
use crate::places::Place;
use crate::tasks::{Server, Task, run_at};
use crate::texts::{HELP, NAME, USAGE, VERSION};
use folder_files::LockFile;
use folder_objects::{Ended, print_texts, reason_of, words_of};
use std::alloc::Global;
use std::io;
use std::io::IsTerminal;
use std::process::ExitCode;
use std::rt::{Env, Files};

/// The exit status where a folder or an index is named twice.
const NOT_READY: u8 = 1;

/// The exit status of a faulty command line.
const FAULTY: u8 = 2;

/// The exit status where the output failed.
const OUTPUT_FAULT: u8 = 4;

/// The exit status where there is no device; of NBD also where too few pages are free, of volumes where
/// block 0 has no table, of a move where it has no place.
const NO_DEVICE: u8 = 10;

/// The exit status where memory was refused.
const NO_MEMORY: u8 = 11;

/// The exit status where too much input was taken.
const TOO_LONG: u8 = 12;

/// The exit status where the client said what is none of its words, or not all of one.
const BROKEN: u8 = 14;

/// What the command line asks for.
#[derive(Clone, Copy)]
enum Order<'a> {
    /// A script over a device in memory, which is moved then.
    InMemory,
    /// The help.
    Help,
    /// The version.
    Version,
    /// This server, for the device that the words name.
    Serve(Server, &'a [String]),
    /// A move between the places that the words name.
    Transfer(&'a [String]),
}

fn main(rt: HostRuntime) -> ExitCode {
    let words = match words_of(&rt) {
        Ok(words) => words,
        Err(error) => {
            let status = if error.kind() == io::ErrorKind::OutOfMemory {
                NO_MEMORY
            } else {
                FAULTY
            };
            return ended(&rt, None, status.into());
        }
    };
    match order_of(words.as_slice()) {
        Some(order) => {
            let run = obey(&rt, rt.stderr().is_terminal(), order);
            ended(&rt, Some(order), run)
        }
        None => ended(&rt, None, FAULTY.into()),
    }
}

/// What these words ask for, by the first of them.
fn order_of(words: &[String]) -> Option<Order<'_>> {
    let [first, others @ ..] = words else {
        return Some(Order::InMemory);
    };
    match first.as_str() {
        "nbd" => Some(Order::Serve(Server::Nbd, others)),
        "volumes" => Some(Order::Serve(Server::Volumes, others)),
        "transfer" => Some(Order::Transfer(others)),
        "-h" | "--help" => Some(Order::Help),
        "--version" => Some(Order::Version),
        _ => None,
    }
}

/// The exit status of a run, after standard error said why it ended so. At status 1 that was said before.
fn ended(rt: &impl Eprint, order: Option<Order<'_>>, run: Ended<'_>) -> ExitCode {
    if run.status == FAULTY {
        let _ = eprint!(rt; "{USAGE}");
    } else if let Some(reason) = reason_here(order, run.status) {
        run.tell(rt, NAME, reason);
    }
    ExitCode::from(run.status)
}

/// What failed where a run of this order ended with this status.
fn reason_here(order: Option<Order<'_>>, status: u8) -> Option<&'static str> {
    match order {
        Some(Order::Serve(server, _)) => reason_of_server(server, status),
        Some(Order::InMemory | Order::Transfer(_)) => reason_of_move(status),
        _ => reason_of(status),
    }
}

/// What failed where a run of this server ended with this status.
fn reason_of_server(server: Server, status: u8) -> Option<&'static str> {
    match (server, status) {
        (Server::Nbd, NO_DEVICE) => {
            Some("there is no device, or too few pages are free for the last commit")
        }
        (Server::Nbd, TOO_LONG) => Some("2^40 bytes of input were taken before its end"),
        (Server::Nbd, BROKEN) => Some("the client broke off, or is none of NBD"),
        (Server::Volumes, NO_DEVICE) => Some("there is no device, or no table of volumes"),
        _ => reason_of(status),
    }
}

/// Does what the command line asks for, with standard error at a terminal or not.
fn obey<'a, R>(rt: &R, at_terminal: bool, order: Order<'a>) -> Ended<'a>
where
    R: Files + Alloc<A = Global> + Input + Print + Eprint + Clone + Drop,
    R::File: LockFile,
{
    match order {
        Order::InMemory => serve_and_move(rt).into(),
        Order::Help => print(rt, &[USAGE, HELP]).into(),
        Order::Version => print(rt, &[VERSION]).into(),
        Order::Serve(server, words) => serve_device(rt, server, words),
        Order::Transfer(words) => move_device(rt, at_terminal, words),
    }
}

/// Puts texts to standard output. The answer is the exit status.
fn print(rt: &impl Print, texts: &[&str]) -> u8 {
    match print_texts(rt, texts) {
        Ok(()) => 0,
        Err(_) => OUTPUT_FAULT,
    }
}

/// Serves the device that the words behind a server's name.
fn serve_device<'a, R>(rt: &R, server: Server, words: &'a [String]) -> Ended<'a>
where
    R: Files + Alloc<A = Global> + Input + Print + Eprint + Clone + Drop,
    R::File: LockFile,
{
    match place_before(words) {
        Some((place, others)) => run_at(rt, place, Task::Serve(server, others)),
        None => FAULTY.into(),
    }
}

/// The place that words begin with, and the words behind it.
fn place_before(words: &[String]) -> Option<(Place<'_>, &[String])> {
    match words {
        [switch, others @ ..] if switch.as_str() == "--root" => match others {
            [cell, folder, others @ ..] => {
                let place = Place::of(Some(cell.as_str()), folder.as_str())?;
                Some((place, others))
            }
            _ => None,
        },
        [folder, others @ ..] => Some((Place::of(None, folder.as_str())?, others)),
        [] => None,
    }
}

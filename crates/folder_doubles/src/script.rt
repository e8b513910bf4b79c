//! Scripts of calls on a platform: lines that say which call is made, what it answers, and which calls it makes on files.
use crate::doubles::CallLog;
use crate::folders::{left, open};
use folder_platform::OpenRefusal;
use platform::Platform;
use sdbt_base::{PlatformFault, RECORD, ROOT};
use std::alloc::Global;

/// An append of a page of a byte: its address, a fault, or that there is no room.
fn append<P: Platform>(platform: &mut P, alloc: Global, byte: u8) -> Option<String> {
    if platform.head() >= platform.capacity() {
        return format!(in alloc; "full").ok();
    }
    match platform.append(&[byte; RECORD]) {
        Ok(addr) => format!(in alloc; "at {addr}").ok(),
        Err(PlatformFault) => format!(in alloc; "fault").ok(),
    }
}

/// A read of a page: its first and its last byte, or a fault.
fn read<P: Platform>(platform: &mut P, alloc: Global, addr: u64) -> Option<String> {
    let mut page = [9; RECORD];
    if addr < platform.head() && platform.read(addr, &mut page).is_ok() {
        format!(in alloc; "{} {}", page[0], page[RECORD - 1]).ok()
    } else {
        format!(in alloc; "fault").ok()
    }
}

/// A load of the root record: its one byte, that there is none, or a fault.
fn load<P: Platform>(platform: &mut P, alloc: Global) -> Option<String> {
    let mut root = [9; ROOT];
    match platform.load_root(&mut root) {
        Ok(true) if root == [root[0]; ROOT] => format!(in alloc; "root {}", root[0]).ok(),
        Ok(true) => None,
        Ok(false) => format!(in alloc; "empty").ok(),
        Err(PlatformFault) => format!(in alloc; "fault").ok(),
    }
}

/// Whether a call was done, in words.
fn done(alloc: Global, outcome: Result<(), PlatformFault>) -> Option<String> {
    let word = if outcome.is_ok() { "done" } else { "fault" };
    format!(in alloc; "{word}").ok()
}

/// What is left in the folder, without a call on the platform: the first byte of the root record, 0 for none, and whether there is a
/// `root.new`.
fn in_folder(rt: &HostRuntime) -> Option<String> {
    let (root, is_new) = left(rt).ok()?;
    format!(in rt.alloc(); "{root} {is_new}").ok()
}

/// What a call answers.
fn answer<P: Platform>(platform: &mut P, rt: &HostRuntime, call: &str) -> Option<String> {
    let alloc = rt.alloc();
    let (name, word) = call.split_once(' ').unwrap_or((call, "0"));
    let byte: u8 = word.parse().ok()?;
    match name.as_bytes() {
        [b'a', ..] => append(platform, alloc, byte),
        [b'r', ..] => read(platform, alloc, u64::from(byte)),
        [b's', b'y', ..] => done(alloc, platform.sync()),
        [b's', b'w', ..] => done(alloc, platform.swap_root(&[byte; ROOT])),
        [b'l', ..] => load(platform, alloc),
        [b'c', ..] => done(alloc, platform.clear_root()),
        [b'h', ..] => format!(in alloc; "{}", platform.head()).ok(),
        [b'f', ..] => in_folder(rt),
        _ => None,
    }
}

/// Whether a line comes true: `CALL: ANSWER`, `CALL: ANSWER by CALLS ON FILES`, or either with ` failing NUMBER` behind the call:
/// the call on a file of that number fails then.
fn is_so<P: Platform>(
    platform: &mut P,
    rt: &HostRuntime,
    log: &CallLog,
    line: &str,
) -> Option<bool> {
    let (words, wanted) = line.split_once(": ")?;
    let (call, failing) = words.split_once(" failing ").unwrap_or((words, ""));
    log.begin(failing.parse().ok());
    let came = answer(platform, rt, call)?;
    match wanted.split_once(" by ") {
        Some((wanted, calls)) => Some(came.as_str() == wanted && log.is(calls)),
        None => Some(came.as_str() == wanted),
    }
}

/// The place of the first line of a script that does not come true, or `None`.
pub fn first_unlike<P: Platform>(
    platform: &mut P,
    rt: &HostRuntime,
    log: &CallLog,
    script: &str,
) -> Option<usize> {
    for (i, line) in script.lines().enumerate() {
        if is_so(platform, rt, log, line) != Some(true) {
            return Some(i);
        }
    }
    None
}

/// Whether an opening of these folders, for the root record and the medium, makes these calls on files, where they are given, and all
/// lines of a script come true then.
pub fn comes_true(
    rt: &HostRuntime,
    log: &CallLog,
    folders: (&str, &str),
    opening: Option<&str>,
    script: &str,
) -> Result<bool, OpenRefusal> {
    let mut platform = open(rt, log, folders.0, folders.1)?;
    let opens = opening.is_none_or(|calls| log.is(calls));
    Ok(opens && first_unlike(&mut platform, rt, log, script).is_none())
}

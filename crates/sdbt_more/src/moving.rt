//! The move of a device in folders to other folders.

use crate::places::{NotOpened, Place, at, open_folders, open_index};
use crate::tasks::{Task, run_at};
use crate::texts::NAME;
use crate::{FAULTY, NO_DEVICE, NOT_READY};
use folder_files::LockFile;
use folder_objects::{Ended, NotReady, Watched, open_ledger, reason_of};
use page_store::current;
use platform::Platform;
use sdbt_base::{Tape, WriteSink};
use std::alloc::Global;
use std::os::unix::fs::MetadataExt;
use std::rt::Files;
use std::{fs, io};
use tpm_nv::OnTpm;
use transfer::run_transfer;

/// The exit status where the medium or the root cell failed that is moved.
const FROM_FAULT: u8 = 5;

/// The exit status where those failed that it goes to.
const TO_FAULT: u8 = 13;

/// What failed where a move ended with this status.
pub(crate) fn reason_of_move(status: u8) -> Option<&'static str> {
    match status {
        FROM_FAULT => Some("the medium that is moved failed, or the store of its root record"),
        NO_DEVICE => Some(
            "there is no device, or another one where it is to go, or too few pages are free there",
        ),
        TO_FAULT => Some("the medium that it goes to failed, or the store of its root record"),
        _ => reason_of(status),
    }
}

/// Moves the device between the places that the words name, with standard error at a terminal or not.
pub(crate) fn move_device<'a, R>(rt: &R, at_terminal: bool, words: &'a [String]) -> Ended<'a>
where
    R: Files + Alloc<A = Global> + Input + Print + Eprint + Clone + Drop,
    R::File: LockFile,
{
    let Some((from, to)) = places_of(words) else {
        return FAULTY.into();
    };
    if let Some(word) = word_on_both(rt, &from, &to) {
        let _ = eprintln!(rt; "folder not ready\n{NAME}: {word}: it is named for both devices");
        return NOT_READY.into();
    }
    run_at(rt, from, Task::Move { at_terminal, to })
}

/// The places that the words name, in this order: the one that a device comes from, and the one that it goes to.
fn places_of(words: &[String]) -> Option<(Place<'_>, Place<'_>)> {
    let (from_cell, words) = cell_behind("--from-root", words);
    let (to_cell, words) = cell_behind("--to-root", words);
    match words {
        [from, to] => Some((
            place_of(from_cell, from.as_str())?,
            place_of(to_cell, to.as_str())?,
        )),
        _ => None,
    }
}

/// The cell that is named behind this switch, if that comes first, and the other words.
fn cell_behind<'a>(switch: &str, words: &'a [String]) -> (Option<&'a str>, &'a [String]) {
    match words {
        [first, cell, others @ ..] if first.as_str() == switch => (Some(cell.as_str()), others),
        _ => (None, words),
    }
}

/// The place of a folder, and of the cell where one is named, if the words are those of one.
fn place_of<'a>(cell: Option<&'a str>, folder: &'a str) -> Option<Place<'a>> {
    // A switch that is none of these, or not where it may be.
    if folder.starts_with("--") {
        return None;
    }
    Place::of(cell, folder)
}

/// The word that names a folder or an index of the second place which the first one has too. Two files may lead to one TPM,
/// so an index of the same number is taken for the same.
fn word_on_both<'a>(rt: &impl Files, from: &Place<'_>, to: &Place<'a>) -> Option<&'a str> {
    if is_one_index(&from.index(), &to.index()) || has_folder(rt, from, cell_folder(to)) {
        Some(to.cell())
    } else if has_folder(rt, from, Some(to.folder)) {
        Some(to.folder)
    } else {
        None
    }
}

fn is_one_index(from: &Option<OnTpm<'_>>, to: &Option<OnTpm<'_>>) -> bool {
    match (from, to) {
        (Some(from), Some(to)) => from.index == to.index,
        _ => false,
    }
}

/// The folder of a place's root record, if it is in one.
fn cell_folder<'a>(place: &Place<'a>) -> Option<&'a str> {
    match place.index() {
        None => Some(place.cell()),
        Some(_) => None,
    }
}

/// Whether a place has this folder.
fn has_folder(rt: &impl Files, place: &Place<'_>, folder: Option<&str>) -> bool {
    is_one_folder(rt, Some(place.folder), folder) || is_one_folder(rt, cell_folder(place), folder)
}

/// Whether two names are of one folder, as far as it can be seen from outside.
fn is_one_folder(rt: &impl Files, one: Option<&str>, other: Option<&str>) -> bool {
    let (Some(one), Some(other)) = (one, other) else {
        return false;
    };
    if one == other {
        return true;
    }
    match (fs::metadata(rt, one), fs::metadata(rt, other)) {
        (Ok(one), Ok(other)) => one.dev() == other.dev() && one.ino() == other.ino(),
        _ => false,
    }
}

/// Opens the place that the device on a platform goes to, and moves it.
pub(crate) fn move_to<'a, R, P, T>(
    rt: &R,
    at_terminal: bool,
    source: P,
    tape: T,
    to: Place<'a>,
) -> Result<(Ended<'a>, P), NotOpened<'a>>
where
    R: Files + Alloc<A = Global> + Print + Eprint + Clone + Drop,
    R::File: LockFile,
    P: Platform + Drop,
    T: Tape + Drop,
{
    match to.index() {
        None => {
            let target = at(to, open_folders(rt, &to))?;
            let (status, source, _) = at(
                to,
                move_over(rt, at_terminal, source, target, tape, &to),
            )?;
            Ok((status.into(), source))
        }
        Some(index) => {
            let target = at(to, open_index(rt, &index, &to))?;
            let (status, source, target) = at(
                to,
                move_over(rt, at_terminal, source, target, tape, &to),
            )?;
            let fault = target.into_files().failure();
            Ok((Ended::over_index(status, to.cell(), fault), source))
        }
    }
}

/// Moves the device on one platform to another, whose place has the ledger. Both have their locks from before anything is changed
/// until the run has ended. With standard error at a terminal it says how many pages of the first one were read.
fn move_over<R, P, Q, T>(
    rt: &R,
    at_terminal: bool,
    source: P,
    mut target: Q,
    mut tape: T,
    to: &Place<'_>,
) -> Result<(u8, P, Q), NotReady>
where
    R: Files + Alloc<A = Global> + Print + Eprint,
    P: Platform + Drop,
    Q: Platform + Drop,
    T: Tape + Drop,
{
    let mut ledger = open_ledger(rt, to.folder)?;
    let mut source = Watched::new(source, rt, NAME, at_terminal);
    let mut output = WriteSink::new(io::writer(rt));
    let was_upgraded = has_upgraded(&mut source);
    let status = run_transfer(
        rt.alloc(),
        &[],
        &mut source,
        &mut target,
        &mut tape,
        &mut output,
        &mut ledger,
    );
    if status == 0 && was_upgraded && !has_upgraded(&mut target) {
        let _ = eprintln!(rt;
            "{NAME}: {}: the device is of version 1 here; upgrade makes it 2",
            to.folder
        );
    }
    Ok((status, source.into_inner(), target))
}

/// Whether a platform has a device of version 2, as far as its root record can be read.
fn has_upgraded<P: Platform>(platform: &mut P) -> bool {
    match current(platform) {
        Ok(Some(root)) => root.version == 2,
        _ => false,
    }
}

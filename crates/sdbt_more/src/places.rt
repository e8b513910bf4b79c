//! Where a device is, and the platform that is opened there.

use crate::texts::NAME;
use folder_files::{LockFile, StdFiles, open_in_folders};
use folder_objects::{Ended, NotReady, tell_open_cell};
use folder_platform::{FolderPlatform, InFolder};
use std::rt::Files;
use tpm_cell::{InTpm, StdTpm, TpmFault, open_in_tpm};
use tpm_nv::{OnTpm, parse_cell};

/// The platform over folders.
pub(crate) type OnFolders<R> = FolderPlatform<InFolder<StdFiles<R>>>;

/// The one over a folder and an index of a TPM.
pub(crate) type OnIndex<R> = FolderPlatform<InTpm<R, StdTpm<<R as Files>::File>>>;

/// Where a device is.
#[derive(Clone, Copy)]
pub(crate) struct Place<'a> {
    // The word that names the folder of its root record, or an index, if one does.
    cell: Option<&'a str>,
    /// The folder of its medium and its ledger, and of its root record where none is named.
    pub(crate) folder: &'a str,
}

/// A place that is not ready.
#[derive(Drop)]
pub(crate) struct NotOpened<'a> {
    place: Place<'a>,
    why: NotReady,
}

impl<'a> Place<'a> {
    /// The place of a folder, and of the cell where one is named; `None` where that can be neither a folder nor an index.
    pub(crate) fn of(cell: Option<&'a str>, folder: &'a str) -> Option<Place<'a>> {
        if let Some(word) = cell
            && parse_cell(word).is_err()
        {
            return None;
        }
        Some(Place { cell, folder })
    }

    /// The word that names where the root record is.
    pub(crate) fn cell(&self) -> &'a str {
        self.cell.unwrap_or(self.folder)
    }

    /// The index that the root record is in, if it is in one.
    pub(crate) fn index(&self) -> Option<OnTpm<'a>> {
        match self.cell {
            None => None,
            Some(word) => match parse_cell(word) {
                Ok(index) => index,
                Err(_) => None,
            },
        }
    }
}

impl NotOpened<'_> {
    /// The exit status of a run that could not begin, after standard error said why.
    pub(crate) fn status_told(&self, rt: &impl Eprint) -> u8 {
        let NotOpened { place, why } = self;
        why.status_told(rt, NAME, place.cell(), place.folder)
    }
}

/// What was opened, or that this place is not ready.
pub(crate) fn at<V>(place: Place<'_>, opened: Result<V, NotReady>) -> Result<V, NotOpened<'_>> {
    match opened {
        Ok(value) => Ok(value),
        Err(why) => Err(NotOpened { place, why }),
    }
}

/// Opens a place that is in folders alone.
pub(crate) fn open_folders<R>(rt: &R, place: &Place<'_>) -> Result<OnFolders<R>, NotReady>
where
    R: Files + Alloc + Eprint + Clone + Drop,
    R::File: LockFile,
{
    let platform = open_in_folders(rt.clone()?, place.cell(), place.folder)?;
    tell_open_cell(rt, NAME, place.cell());
    Ok(platform)
}

/// Opens a place whose root record is in this index.
pub(crate) fn open_index<R>(
    rt: &R,
    index: &OnTpm<'_>,
    place: &Place<'_>,
) -> Result<OnIndex<R>, NotReady>
where
    R: Files + Alloc + Clone + Drop,
    R::File: LockFile,
{
    Ok(open_in_tpm(rt, index, place.folder)?)
}

/// A run whose device came from an index, a call on which failed for this reason, if one did.
pub(crate) fn run_from_index<'a>(
    run: Ended<'a>,
    from: &Place<'a>,
    fault: Option<TpmFault>,
) -> Ended<'a> {
    match fault {
        None => run,
        fault => Ended::over_index(run.status, from.cell(), fault),
    }
}

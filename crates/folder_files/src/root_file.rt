//! What is done with the files of a root record, by their names.
ghost use Rattle.std.specs.Prelude.{◌≡◌, ◌≤◌, ⊤, min, take, length, IfOk, IfErr, MatchOption};
ghost use Rattle.std.specs.Io.KnownBytes.{Consumes};
ghost use Rattle.folder_files.specs.Answers.{IsNoneIfMissing, IsNoneOnlyIfNone, TellsRemoved, TellsUnsynced};
ghost use Rattle.folder_platform.specs.Refusals.{ShowsCause};

use crate::own_file::{OWNER_ALONE, error_of, open_own, unless_missing};
use folder_platform::{FolderFile, OpenRefusal};
use sdbt_base::{read_whole, write_whole};
use std::fs::{self, OpenFile, OpenOptions};
use std::io::{self, Read};
use std::os::unix::fs::OpenOptionsExt;
use std::rt::Files;

/// Removes a file, if there is one of this name.
pub(crate) fn remove(files: &impl Files, path: &str) -> io::Result<()> {
    removed(fs::remove_file(files, path))
}

// What a removal answered: of a file that was missing it is done.
fn removed(outcome: io::Result<()>) -> io::Result<()>
    ensures { TellsRemoved outcome result }
{
    unless_missing(outcome)?;
    Ok(())
}

/// Syncs a file of its own, if there is one of this name.
pub(crate) fn sync(files: &impl Files, path: &str) -> io::Result<()> {
    sync_opened(open(files, path))
}

// Syncs a file that was opened, if it is there.
fn sync_opened<F: OpenFile + Drop>(opened: io::Result<Option<F>>) -> io::Result<()>
    ensures { TellsUnsynced opened result }
{
    match opened? {
        Some(file) => file.sync_all(),
        None => Ok(()),
    }
}

// Opens a file of its own to be read, if there is one of this name.
fn open<R: Files>(files: &R, path: &str) -> io::Result<Option<R::File>> {
    answer_of(open_own(files, FolderFile::Root, path, OpenOptions::new().read(true)))
}

// What was opened, if there is one; a refusal is an error of the system's.
fn answer_of<F: Drop>(opened: Result<Option<F>, OpenRefusal>) -> io::Result<Option<F>>
    requires { IfErr opened (ShowsCause ⊥) }
    ensures { IsNoneOnlyIfNone opened result }
{
    match opened {
        Ok(file) => Ok(file),
        Err(refusal) => Err(error_of(refusal)),
    }
}

/// How many bytes of a file of its own were put into the buffer, from its first one on; or `None`, if there is none of this name.
pub(crate) fn read(files: &impl Files, path: &str, into: &mut [u8]) -> io::Result<Option<usize>>
    ensures { IfOk result (λ n. MatchOption n ⊤ (λ n. n ≤ length into.old)) }
{
    read_opened(open(files, path), into)
}

// The same of a file that was opened: there is none where it is missing, and that is told of no other failure.
fn read_opened<F: Read + OpenFile + Drop>(
    opened: io::Result<Option<F>>,
    into: &mut [u8],
) -> io::Result<Option<usize>>
    ensures within { IfOk result (λ n. MatchOption n ⊤ (λ n. n ≤ length into.old)) }
    ensures missing { IsNoneIfMissing opened result }
{
    let Some(mut file) = opened? else {
        return Ok(None);
    };
    let len = file.metadata()?.len();
    Ok(Some(read_front(&mut file, len, into)?))
}

// Reads a file of so many bytes from its first one on, as far as there is room for them, and answers how many it read.
fn read_front<F: Read>(file: &mut F, len: u64, into: &mut [u8]) -> io::Result<usize>
    ensures count { IfOk result (λ n. n ≡ min len (length into.old)) }
    ensures bytes { IfOk result (λ n. Consumes (F.remaining file.old) (F.remaining file.new) (take n into.new)) }
{
    let n = len.min(into.len() as u64) as usize;
    read_whole(file, &mut into[..n])?;
    Ok(n)
}

/// Makes a file, of whose name there must be none, with these bytes. It stays open.
pub(crate) fn make<R: Files>(files: &R, path: &str, bytes: &[u8]) -> io::Result<R::File> {
    let mut file = OpenOptions::new()
        .write(true)
        .create_new(true)
        .mode(OWNER_ALONE)
        .open(files, path)?;
    write_whole(&mut file, bytes)?;
    Ok(file)
}

//! Files of their own: regular ones, to which no other name leads.
//!
//! Such a file is looked at before and after it is opened, so that nothing in its place is followed, waited for or changed.
ghost use Rattle.std.specs.Prelude.{◌≡◌, ◌≢◌, ◌↔◌, ⊤, IfOk, IfErr, IsOk, MatchOption};
ghost use Rattle.std.specs.IoError.{error_kind};
ghost use Rattle.std.specs.declared.io.Error.{Error};
ghost use Rattle.std.specs.declared.io.ErrorKind.TheVariants.{OutOfMemory};
ghost use Rattle.folder_platform.specs.Refusals.{ShowsCause, IsOwn, IsSame, IsMemory, Names};
ghost use Rattle.std.specs.Fs.{file_type, IsDir, IsFile};
ghost use Rattle.folder_files.specs.Answers.{HandsOn, IsNoneIfMissing, IsNoneOnlyIfNone, TellsMissing};
ghost use Rattle.folder_platform.specs.declared.found.Found.{Found};
ghost use Rattle.folder_platform.specs.declared.found.FileKind.TheVariants.{Regular};
ghost use Rattle.folder_platform.specs.declared.refusals.FolderFile.{FolderFile};
ghost use Rattle.folder_platform.specs.declared.refusals.OpenRefusal.TheVariants.{Io, NotOwn};

use folder_platform::{FolderFile, Found, OpenRefusal, told};
use std::fs::{self, Metadata, OpenFile, OpenOptions};
use std::io::{self, ErrorKind};
use std::os::unix::fs::OpenOptionsExt;
use std::rt::Files;

/// Who may read the files: their owner alone, since the root record is a key.
pub(crate) const OWNER_ALONE: u32 = 0o600;

/// What a call on a path answered: nothing where there is no such file, and every other failure stays one.
pub(crate) fn unless_missing<T>(outcome: io::Result<T>) -> io::Result<Option<T>>
    ensures { TellsMissing outcome result }
{
    match outcome {
        Ok(value) => Ok(Some(value)),
        Err(error) if error.kind() == ErrorKind::NotFound => Ok(None),
        Err(error) => Err(error),
    }
}

/// What has the name of this file, if anything has: what is no file of its own is refused. Nothing is opened.
pub fn look<R: Files>(files: &R, file: FolderFile, path: &str) -> Result<Option<Found>, OpenRefusal>
    ensures own { IfOk result (λ found. MatchOption found ⊤ IsOwn) }
    ensures cause { IfErr result (ShowsCause ⊥) }
    ensures names { IfErr result (Names file) }
{
    own_if_there(file, unless_missing(fs::symlink_metadata(files, path)))
}

// What was said of a file by its name, if there is one, and it is one of its own.
fn own_if_there(
    file: FolderFile,
    outcome: io::Result<Option<Metadata>>,
) -> Result<Option<Found>, OpenRefusal>
    ensures missing { IsNoneOnlyIfNone outcome result }
    ensures own { IfOk result (λ found. MatchOption found ⊤ IsOwn) }
    ensures cause { IfErr result (ShowsCause ⊥) }
    ensures names { IfErr result (Names file) }
{
    match told(file, outcome)? {
        Some(metadata) => Ok(Some(own(file, &metadata)?)),
        None => Ok(None),
    }
}

/// Opens the file of this name so, if there is one. What is no file of its own is refused, and another one than was looked at.
pub fn open_own<R: Files>(
    files: &R,
    file: FolderFile,
    path: &str,
    how: &OpenOptions,
) -> Result<Option<R::File>, OpenRefusal>
    ensures cause { IfErr result (ShowsCause ⊥) }
    ensures names { IfErr result (Names file) }
{
    open_looked(files, file, path, how, look(files, file, path))
}

// The same once it was looked at: there is none only where none was found.
fn open_looked<R: Files>(
    files: &R,
    file: FolderFile,
    path: &str,
    how: &OpenOptions,
    looked: Result<Option<Found>, OpenRefusal>,
) -> Result<Option<R::File>, OpenRefusal>
    requires cause { IfErr looked (ShowsCause ⊥) }
    requires names { IfErr looked (Names file) }
    ensures missing { IsNoneIfMissing looked result }
    ensures cause { IfErr result (ShowsCause ⊥) }
    ensures names { IfErr result (Names file) }
{
    let Some(looked) = looked? else {
        return Ok(None);
    };
    let opened = told(file, how.open(files, path))?;
    let metadata = told(file, opened.metadata())?;
    one_file(file, looked, own(file, &metadata)?)?;
    Ok(Some(opened))
}

/// The same; where there is none, one is made, for its owner alone.
pub fn open_or_make<R: Files>(
    files: &R,
    file: FolderFile,
    path: &str,
    how: &mut OpenOptions,
) -> Result<R::File, OpenRefusal>
    ensures cause { IfErr result (ShowsCause ⊥) }
    ensures names { IfErr result (Names file) }
{
    let opened = open_own(files, file, path, how);
    opened_or_made(files, file, path, how, opened)
}

// The same once it was tried to be opened: one is made only where there was none.
fn opened_or_made<R: Files>(
    files: &R,
    file: FolderFile,
    path: &str,
    how: &mut OpenOptions,
    opened: Result<Option<R::File>, OpenRefusal>,
) -> Result<R::File, OpenRefusal>
    requires cause { IfErr opened (ShowsCause ⊥) }
    requires names { IfErr opened (Names file) }
    ensures opened { HandsOn opened result }
    ensures cause { IfErr result (ShowsCause ⊥) }
    ensures names { IfErr result (Names file) }
{
    match opened? {
        Some(opened) => Ok(opened),
        None => told(
            file,
            how.create_new(true).mode(OWNER_ALONE).open(files, path),
        ),
    }
}

/// Opens a folder, to which a link may lead, and refuses what is none.
pub(crate) fn open_folder<R: Files>(
    files: &R,
    file: FolderFile,
    path: &str,
) -> Result<R::File, OpenRefusal>
    ensures cause { IfErr result (ShowsCause ⊥) }
    ensures names { IfErr result (Names file) }
{
    let metadata = told(file, fs::metadata(files, path))?;
    let looked = a_folder(file, &metadata)?;
    let folder = told(file, fs::open(files, path))?;
    let metadata = told(file, folder.metadata())?;
    one_file(file, looked, a_folder(file, &metadata)?)?;
    Ok(folder)
}

/// What a refusal is to a call that answers with the system's errors.
pub(crate) fn error_of(refusal: OpenRefusal) -> io::Error
    requires { ShowsCause ⊥ refusal }
    ensures memory { error_kind result ≡ OutOfMemory ↔ IsMemory refusal }
    ensures error { (file : FolderFile) (error : Error) → refusal ≡ Io file error → result ≡ error }
{
    match refusal {
        OpenRefusal::Io { error, .. } => error,
        OpenRefusal::Memory => ErrorKind::OutOfMemory.into(),
        _ => ErrorKind::InvalidData.into(),
    }
}

// A file of which this was said, if it is one of its own.
fn own(file: FolderFile, metadata: &Metadata) -> Result<Found, OpenRefusal>
    ensures own { IfOk result (λ found. IsOwn found × IsFile (file_type metadata.now)) }
    ensures found { IfErr result (λ refusal. (found : Found) × (refusal ≡ NotOwn file found) × (found.kind ≡ Regular ↔ IsFile (file_type metadata.now))) }
    ensures cause { IfErr result (ShowsCause ⊥) }
    ensures names { IfErr result (Names file) }
{
    let found = Found::of(metadata);
    if !found.is_own() {
        return Err(OpenRefusal::NotOwn { file, found });
    }
    Ok(found)
}

// A folder of which this was said, if it is one.
fn a_folder(file: FolderFile, metadata: &Metadata) -> Result<Found, OpenRefusal>
    ensures folder { IsOk result ↔ IsDir (file_type metadata.now) }
    ensures cause { IfErr result (ShowsCause ⊥) }
    ensures names { IfErr result (Names file) }
{
    if !metadata.is_dir() {
        return Err(OpenRefusal::of(file, ErrorKind::NotADirectory.into()));
    }
    Ok(Found::of(metadata))
}

// What was opened is what was looked at.
fn one_file(file: FolderFile, looked: Found, opened: Found) -> Result<(), OpenRefusal>
    ensures same { IsOk result ↔ IsSame looked opened }
    ensures cause { IfErr result (ShowsCause ⊥) }
    ensures names { IfErr result (Names file) }
{
    if !looked.is_same(&opened) {
        return Err(OpenRefusal::Exchanged {
            file,
            looked,
            opened,
        });
    }
    Ok(())
}

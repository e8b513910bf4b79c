//! What is found under the name of a file.
ghost use Rattle.std.specs.Prelude.{◌≡◌, ◌↔◌, IsTrue};
ghost use Rattle.std.specs.Fs.{file_type, IsFile, IsDir, IsSymlink, metadata_mode};
ghost use Rattle.folder_platform.specs.Refusals.{IsOwn, IsSame};
ghost use Rattle.folder_platform.specs.declared.found.FileKind.TheVariants.{Regular, Link, Folder};

use std::fmt;
use std::fs::Metadata;
use std::os::unix::fs::{FileTypeExt, MetadataExt};

/// What kind of thing has the name of a file.
#[derive(Clone, Copy, Debug, PartialEq, Eq)]
pub enum FileKind {
    /// A regular file.
    Regular,
    /// A symbolic link.
    Link,
    /// A folder.
    Folder,
    /// A FIFO.
    Fifo,
    /// A socket.
    Socket,
    /// A device, of characters or of blocks.
    Device,
    /// What has none of these kinds.
    Other,
}

/// What has the name of a file: its kind, how many names it has, and the numbers by which the system tells it from others.
#[derive(Clone, Copy, Debug)]
pub struct Found {
    /// Its kind.
    pub kind: FileKind,
    /// How many names lead to it.
    pub names: u64,
    /// The number of its file system.
    pub device: u64,
    /// Its number there.
    pub number: u64,
}

impl Found {
    /// What this says of a file. No contract says which numbers a file has.
    pub fn of(metadata: &Metadata) -> Found
        ensures regular { result.kind ≡ Regular ↔ IsFile (file_type metadata.now) }
        ensures link { result.kind ≡ Link ↔ IsSymlink (file_type metadata.now) }
        ensures folder { result.kind ≡ Folder ↔ IsDir (file_type metadata.now) }
    {
        Found {
            kind: kind_of(metadata),
            names: metadata.nlink(),
            device: metadata.dev(),
            number: metadata.ino(),
        }
    }

    /// Whether it is a regular file to which no other name leads.
    pub fn is_own(&self) -> bool
        ensures { IsTrue result ↔ IsOwn self.now }
    {
        matches!(self.kind, FileKind::Regular) && self.names == 1
    }

    /// Whether both are one file.
    pub fn is_same(&self, other: &Found) -> bool
        ensures { IsTrue result ↔ IsSame self.now other.now }
    {
        self.device == other.device && self.number == other.number
    }
}

// The kind of a file of which this was said.
fn kind_of(metadata: &Metadata) -> FileKind
    ensures regular { result ≡ Regular ↔ IsFile (file_type metadata.now) }
    ensures link { result ≡ Link ↔ IsSymlink (file_type metadata.now) }
    ensures folder { result ≡ Folder ↔ IsDir (file_type metadata.now) }
{
    let kind = metadata.file_type();
    if metadata.is_file() {
        FileKind::Regular
    } else if kind.is_symlink() {
        FileKind::Link
    } else if kind.is_dir() {
        FileKind::Folder
    } else if kind.is_fifo() {
        FileKind::Fifo
    } else if kind.is_socket() {
        FileKind::Socket
    } else if kind.is_block_device() || kind.is_char_device() {
        FileKind::Device
    } else {
        FileKind::Other
    }
}

impl fmt::Display for Found {
    ghost use Rattle.std.specs.Prelude.{Some};
    ghost use Rattle.folder_platform.specs.Texts.{found_text};

    ghost output = { λ found. Some (found_text found) };

    fn fmt<W: fmt::Write>(&self, f: &mut fmt::Formatter<W>) -> fmt::Result {
        match self.kind {
            FileKind::Regular => write!(f, "a file with {} names", self.names),
            FileKind::Link => write!(f, "a link"),
            FileKind::Folder => write!(f, "a folder"),
            FileKind::Fifo => write!(f, "a FIFO"),
            FileKind::Socket => write!(f, "a socket"),
            FileKind::Device => write!(f, "a device"),
            FileKind::Other => write!(f, "no file"),
        }
    }
}

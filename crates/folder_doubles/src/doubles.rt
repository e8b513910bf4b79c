//! A test double for files: those of the system, where each call is logged and one may fail, and whose reads and writes may be short.
use folder_files::LockFile;
use std::alloc::{Allocator, Global};
use std::cell::{Cell, RefCell};
use std::fs::{File, Metadata, OpenFile, OpenOptions};
use std::io::{self, ErrorKind, Read, Seek, SeekFrom, Write};
use std::rt::Files;

/// The most bytes that a short read or write takes.
const SHORT: usize = 1000;

/// A write that begins with this byte takes half of its bytes, and fails.
pub const TEARING: u8 = 0xEE;

/// A file of this length says, once it is locked, that it has a page more than a medium may have.
pub const ENDLESS: u64 = 13;

/// The calls since it was begun, in words, and which of them fails.
#[derive(Drop)]
pub struct CallLog {
    text: RefCell<String>,
    calls: Cell<usize>,
    failing: Cell<Option<usize>>,
    is_short: bool,
}

impl CallLog {
    /// A log in which no call fails.
    pub fn new(alloc: Global) -> CallLog {
        CallLog {
            text: RefCell::new(String::new(alloc)),
            calls: Cell::new(0),
            failing: Cell::new(None),
            is_short: false,
        }
    }

    /// The same of files whose reads and writes are short, and now and then interrupted.
    pub fn short(alloc: Global) -> CallLog {
        CallLog {
            is_short: true,
            ..CallLog::new(alloc)
        }
    }

    /// Begins anew. The call of this number, counted from 0, fails without an effect; with `None` none does.
    pub fn begin(&self, failing: Option<usize>) {
        if let Ok(mut text) = self.text.try_borrow_mut() {
            text.clear();
        }
        self.calls.set(0);
        self.failing.set(failing);
    }

    /// Whether these were the calls, or `no call`.
    pub fn is(&self, want: &str) -> bool {
        match self.text.try_borrow() {
            Ok(text) if text.is_empty() => want == "no call",
            Ok(text) => text.as_str() == want,
            Err(_) => false,
        }
    }

    // How many bytes a read or a write of so many takes. Every third call of short files is interrupted.
    fn part(&self, len: usize) -> io::Result<usize> {
        if !self.is_short {
            return Ok(len);
        }
        if self.calls.get() % 3 == 0 {
            return Err(ErrorKind::Interrupted.into());
        }
        Ok(len.min(SHORT))
    }

    // Logs a call on a file, and fails it if its turn has come.
    fn call(&self, what: &str, name: &str) -> io::Result<()> {
        let Ok(mut text) = self.text.try_borrow_mut() else {
            return Err(ErrorKind::Other.into());
        };
        if !text.is_empty() {
            text.push_str(", ")?;
        }
        text.push_str(what)?;
        text.push_str(name)?;
        let number = self.calls.get();
        self.calls.set(number.saturating_add(1));
        if self.failing.get() == Some(number) {
            return Err(ErrorKind::PermissionDenied.into());
        }
        Ok(())
    }
}

// What the log calls the file of a path.
fn name_of(path: &str) -> &'static str {
    if path.ends_with("/media") {
        "media"
    } else if path.ends_with("/root") {
        "root"
    } else if path.ends_with("/root.new") {
        "root.new"
    } else if path.ends_with("/ledger") {
        "ledger"
    } else if path.ends_with("_cell") {
        "cell"
    } else {
        "folder"
    }
}

/// An open file whose calls are logged.
#[derive(Drop)]
pub struct LoggedFile<'a> {
    inner: File,
    name: &'static str,
    log: &'a CallLog,
    is_locked: Cell<bool>,
}

impl Read for LoggedFile<'_> {
    fn read(&mut self, buf: &mut [u8]) -> io::Result<usize> {
        self.log.call("read ", self.name)?;
        let most = buf.len().min(self.log.part(buf.len())?);
        self.inner.read(&mut buf[..most])
    }
}

impl Write for LoggedFile<'_> {
    fn write(&mut self, buf: &[u8]) -> io::Result<usize> {
        self.log.call("write ", self.name)?;
        if buf.first() == Some(&TEARING) {
            let _ = self.inner.write(&buf[..buf.len() / 2])?;
            return Err(ErrorKind::StorageFull.into());
        }
        let most = buf.len().min(self.log.part(buf.len())?);
        self.inner.write(&buf[..most])
    }

    fn flush(&mut self) -> io::Result<()> {
        Ok(())
    }
}

impl Seek for LoggedFile<'_> {
    fn seek(&mut self, to: SeekFrom) -> io::Result<u64> {
        self.log.call("seek ", self.name)?;
        self.inner.seek(to)
    }
}

impl OpenFile for LoggedFile<'_> {
    fn metadata(&self) -> io::Result<Metadata> {
        self.log.call("measure ", self.name)?;
        let metadata = self.inner.metadata()?;
        if metadata.len() == ENDLESS && self.is_locked.get() {
            return Ok(Metadata::of_file((1 << 32) * 4128 + 1));
        }
        Ok(metadata)
    }

    fn set_len(&self, size: u64) -> io::Result<()> {
        self.log.call("lengthen ", self.name)?;
        self.inner.set_len(size)
    }

    fn sync_all(&self) -> io::Result<()> {
        self.log.call("sync ", self.name)?;
        self.inner.sync_all()
    }

    fn sync_data(&self) -> io::Result<()> {
        self.log.call("sync data of ", self.name)?;
        self.inner.sync_data()
    }
}

impl LockFile for LoggedFile<'_> {
    ghost is_held = { λ _. Unit {0} };

    fn try_lock(&self) -> io::Result<()> {
        self.log.call("lock ", self.name)?;
        self.is_locked.set(true);
        LockFile::try_lock(&self.inner)
    }

    fn try_lock_shared(&self) -> io::Result<()> {
        self.log.call("share the lock on ", self.name)?;
        self.is_locked.set(true);
        LockFile::try_lock_shared(&self.inner)
    }
}

/// The files of the system, with one log of all calls. A path that begins with a star finds no memory.
#[derive(Clone, Drop)]
pub struct LoggedFiles<'a> {
    pub inner: HostRuntime,
    pub log: &'a CallLog,
}

impl Alloc for LoggedFiles<'_> {
    type A = Global;

    fn alloc(&self) -> Global {
        self.inner.alloc()
    }
}

impl<'a> Files for LoggedFiles<'a> {
    type File = LoggedFile<'a>;

    type Dir = File;

    fn open_file(&self, how: &OpenOptions, path: &str) -> io::Result<LoggedFile<'a>> {
        if path.starts_with('*') {
            return Err(ErrorKind::OutOfMemory.into());
        }
        let name = name_of(path);
        let what = if how.asks_create_new() {
            "make "
        } else {
            "open "
        };
        self.log.call(what, name)?;
        let inner = self.inner.open_file(how, path)?;
        Ok(LoggedFile {
            inner,
            name,
            log: self.log,
            is_locked: Cell::new(false),
        })
    }

    fn open_dir(&self, _path: &str) -> io::Result<File> {
        Err(ErrorKind::Unsupported.into())
    }

    fn metadata(&self, path: &str) -> io::Result<Metadata> {
        if path.starts_with('*') {
            return Err(ErrorKind::OutOfMemory.into());
        }
        self.log.call("find ", name_of(path))?;
        self.inner.metadata(path)
    }

    fn symlink_metadata(&self, path: &str) -> io::Result<Metadata> {
        self.log.call("look at ", name_of(path))?;
        self.inner.symlink_metadata(path)
    }

    fn copy(&self, _from: &str, _to: &str) -> io::Result<u64> {
        Err(ErrorKind::Unsupported.into())
    }

    fn rename(&self, from: &str, to: &str) -> io::Result<()> {
        self.log.call("put in place of ", name_of(to))?;
        self.inner.rename(from, to)
    }

    fn remove_file(&self, path: &str) -> io::Result<()> {
        self.log.call("remove ", name_of(path))?;
        self.inner.remove_file(path)
    }

    fn create_dir(&self, _path: &str) -> io::Result<()> {
        Err(ErrorKind::Unsupported.into())
    }

    fn remove_dir(&self, _path: &str) -> io::Result<()> {
        Err(ErrorKind::Unsupported.into())
    }

    fn remove_dir_all<B: Allocator>(&self, _alloc: B, _path: &str) -> io::Result<()> {
        Err(ErrorKind::Unsupported.into())
    }
}

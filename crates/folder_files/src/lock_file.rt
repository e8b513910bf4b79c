//! Files that can be locked.
ghost use Rattle.std.specs.Prelude.{◌≡◌, IfErr};
ghost use Rattle.std.specs.IoError.{error_kind};
ghost use Rattle.std.specs.declared.io.ErrorKind.TheVariants.{WouldBlock};

use std::fs::File;
use std::io;

/// A file or folder on which a lock can be tried. No contract can say who has one.
pub trait LockFile {
    /// Another opening of the file has a lock on it.
    ghost is_held: { Self → Type 0 };

    /// Takes the exclusive advisory lock, which lasts as long as the file is open. The kind of the error is
    /// `WouldBlock` where another opening of the file has a lock on it.
    fn try_lock(&self) -> io::Result<()>
        ensures held { IfErr result (λ error. error_kind error ≡ WouldBlock → is_held self.now) };

    /// The same of a shared lock: others may have one too.
    fn try_lock_shared(&self) -> io::Result<()>
        ensures held { IfErr result (λ error. error_kind error ≡ WouldBlock → is_held self.now) };
}

impl LockFile for File {
    ghost is_held = { λ _. Unit {0} };

    fn try_lock(&self) -> io::Result<()> {
        File::try_lock(self)?;
        Ok(())
    }

    fn try_lock_shared(&self) -> io::Result<()> {
        File::try_lock_shared(self)?;
        Ok(())
    }
}

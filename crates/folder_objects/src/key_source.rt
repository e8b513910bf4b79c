//! Where the keys of a device in folders come from.
use crate::NotReady;
use key_tape::SourceTape;
use sdbt_base::ReadSource;
use std::fs::{self, Metadata, OpenFile};
use std::io::{self, ErrorKind};
use std::os::unix::fs::FileTypeExt;
use std::rt::Files;

/// The system's source of random bytes.
pub const RANDOM: &str = "/dev/urandom";

/// The keys that this source gives, which is refused unless it is a character device.
pub fn open_keys<R: Files>(rt: &R) -> Result<SourceTape<ReadSource<R::File>>, NotReady> {
    let random = open_random(rt).map_err(NotReady::Keys)?;
    Ok(SourceTape::new(ReadSource::new(random)))
}

// The source, which is looked at before and after it is opened: a FIFO would be waited for.
fn open_random<R: Files>(rt: &R) -> io::Result<R::File> {
    of_characters(&fs::metadata(rt, RANDOM)?)?;
    let random = fs::open(rt, RANDOM)?;
    of_characters(&random.metadata()?)?;
    Ok(random)
}

fn of_characters(metadata: &Metadata) -> io::Result<()> {
    if !metadata.file_type().is_char_device() {
        return Err(io::Error::new(ErrorKind::InvalidInput, "no character device"));
    }
    Ok(())
}

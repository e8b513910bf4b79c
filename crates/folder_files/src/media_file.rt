//! What is done with the file of a medium.
ghost use Rattle.std.specs.Prelude.{◌≡◌, ◌≤◌, ◌*◌, ◌-◌, min, take, drop, replicate, length, IfOk, IfErr, IsErr, OnOk};
ghost use Rattle.std.specs.Io.Seek.{MovesTo};
ghost use Rattle.std.specs.Int.{div_ceil};
ghost use Rattle.sdbt_base.specs.declared.limits.TheConstants.{RECORD};
ghost use Rattle.folder_files.specs.Places.{ReadsAt, WritesAt};

use sdbt_base::{RECORD, read_whole, write_whole};
use std::fs::OpenFile;
use std::io::{self, ErrorKind, Read, Seek, SeekFrom, Write};

/// The bytes of a page, as a length of a file.
pub(crate) const PAGE_LEN: u64 = RECORD as u64;

// Where the page of an address begins. The kind of the error is `InvalidInput` where no file is as long.
fn place_of(addr: u64) -> io::Result<u64>
    ensures { IfOk result (λ at. at ≡ addr * RECORD) }
{
    match addr.checked_mul(PAGE_LEN) {
        Some(at) => Ok(at),
        None => Err(ErrorKind::InvalidInput.into()),
    }
}

/// How many pages the file has. A last one that is there in part is filled up with zeros; the file is never made shorter.
pub(crate) fn count_whole<F: OpenFile>(media: &F) -> io::Result<u64> {
    let len = media.metadata()?.len();
    let pages = len.div_ceil(PAGE_LEN);
    let whole = place_of(pages)?;
    if len < whole {
        media.set_len(whole)?;
    }
    Ok(pages)
}

// Moves to where the page of an address begins.
fn go_to<F: Seek>(media: &mut F, addr: u64) -> io::Result<()>
    ensures { MovesTo (F.stream_position media.old) (F.stream_position media.new) (addr * RECORD) result }
{
    media.seek(SeekFrom::Start(place_of(addr)?))?;
    Ok(())
}

/// Reads the page of an address: what the file gives from where that begins.
pub(crate) fn read_at<F: Read + Seek>(media: &mut F, addr: u64, into: &mut [u8]) -> io::Result<()>
    ensures page { OnOk result (ReadsAt F.stream_position F.remaining media.old media.new (addr * RECORD) into.new) }
    ensures size { length into.new ≡ length into.old }
{
    go_to(media, addr)?;
    read_whole(media, into)
}

// How many bytes of the page of an address are in a file of so many.
fn part_of(len: u64, addr: u64) -> io::Result<usize>
    ensures { IfOk result (λ n. n ≡ min (len - addr * RECORD) RECORD) }
{
    let begin = place_of(addr)?;
    Ok(len.saturating_sub(begin).min(PAGE_LEN) as usize)
}

/// Reads the page of an address in a file of so many bytes: what it gives from where that begins, and zeros for what is missing.
pub(crate) fn read_part_at<F: Read + Seek>(
    media: &mut F,
    len: u64,
    addr: u64,
    into: &mut [u8],
) -> io::Result<()>
    requires { length into.old ≡ RECORD }
    ensures page { OnOk result (ReadsAt F.stream_position F.remaining media.old media.new (addr * RECORD) (take (min (len - addr * RECORD) RECORD) into.new)) }
    ensures zeros { OnOk result (drop (min (len - addr * RECORD) RECORD) into.new ≡ replicate (RECORD - min (len - addr * RECORD) RECORD) 0) }
    ensures size { length into.new ≡ length into.old }
{
    let n = part_of(len, addr)?;
    into[n..].fill(0);
    read_at(media, addr, &mut into[..n])
}

/// Writes a page where that of an address begins.
pub(crate) fn write_at<F: Write + Seek>(media: &mut F, addr: u64, page: &[u8]) -> io::Result<()>
    ensures { OnOk result (WritesAt F.stream_position F.contents media.old media.new (addr * RECORD) page.now) }
{
    go_to(media, addr)?;
    write_whole(media, page)
}

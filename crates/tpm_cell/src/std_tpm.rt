//! A TPM behind a device file.
ghost use Rattle.std.specs.Prelude.{◌≡◌, ◌≤◌, length, take, IfOk};
ghost use Rattle.std.specs.Io.KnownBytes.{Consumes};

use crate::{CellRefusal, TpmCalls};
use std::fs::{self, Metadata, OpenFile, OpenOptions};
use std::io::{self, ErrorKind, Read, Write};
use std::os::unix::fs::FileTypeExt;
use std::rt::Files;
use tpm_nv::{HEAD, REPLY, read_head};

/// A TPM behind an open device file: a command is one write, and its reply is read.
///
/// Each call makes those of the system, and no contract says what a file gives back.
#[derive(Drop)]
pub struct StdTpm<F: Read + Write + Drop> {
    file: F,
}

/// The TPM behind the character device of this name. Nothing is sent.
pub fn open_tpm<R: Files>(files: &R, device: &str) -> Result<StdTpm<R::File>, CellRefusal> {
    of_characters(fs::metadata(files, device))?;
    let opened = OpenOptions::new()
        .read(true)
        .write(true)
        .open(files, device);
    let file = opened.map_err(CellRefusal::Io)?;
    of_characters(file.metadata())?;
    Ok(StdTpm { file })
}

// What was said of a file says that it is a character device. It is asked before that is opened too, since a FIFO would be
// waited for.
fn of_characters(metadata: io::Result<Metadata>) -> Result<(), CellRefusal> {
    let metadata = metadata.map_err(CellRefusal::Io)?;
    if !metadata.file_type().is_char_device() {
        return Err(CellRefusal::NoDevice);
    }
    Ok(())
}

impl<F: Read + Write + Drop> TpmCalls for StdTpm<F> {
    // Nobody knows what a TPM answers.
    ghost asks = { λ _ _ _ _. Unit {0} };

    fn send(&mut self, command: &[u8], reply: &mut [u8]) -> io::Result<usize> {
        put_command(&mut self.file, command)?;
        take_reply(&mut self.file, reply)
    }
}

// Writes a command: the system takes it by one call, or not at all.
fn put_command<W: Write>(file: &mut W, command: &[u8]) -> io::Result<()> {
    if file.write(command)? != command.len() {
        return Err(ErrorKind::WriteZero.into());
    }
    Ok(())
}

// How many bytes of the buffer the reply takes. It comes in one piece or in many; that it ends is told by the size in its
// head, or by a head that can't be one.
fn take_reply<R: Read>(file: &mut R, reply: &mut [u8]) -> io::Result<usize>
    requires { length reply.old ≡ REPLY }
    ensures within { IfOk result (λ n. n ≤ REPLY) }
    ensures bytes { IfOk result (λ n. Consumes (R.remaining file.old) (R.remaining file.new) (take n reply.new)) }
{
    let mut filled = 0;
    for _ in 0..u64::MAX {
        if is_whole(&reply[..filled]) {
            return Ok(filled);
        }
        match file.read(&mut reply[filled..]) {
            Ok(0) => return Err(ErrorKind::UnexpectedEof.into()),
            Ok(count) => filled += count,
            Err(error) if error.kind() == ErrorKind::Interrupted => {}
            Err(error) => return Err(error),
        }
    }
    Err(ErrorKind::Interrupted.into())
}

// Whether no more of a reply is to come: it is as long as its head tells, or has no head of a reply.
fn is_whole(reply: &[u8]) -> bool {
    match reply.split_at_checked(HEAD) {
        None => false,
        Some((front, _)) => match read_head(front) {
            Some(head) => reply.len() >= head.size as usize,
            None => true,
        },
    }
}

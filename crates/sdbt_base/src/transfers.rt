//! Whole reads and writes over a reader and a writer of std, and a copy of as much as there is room for.
ghost use Rattle.std.specs.Prelude.{◌≡◌, ◌≤◌, ℕ, OnOk, OnErr, length, take, drop, min};
ghost use Rattle.std.specs.Io.KnownBytes.{Appends, Consumes};

use std::io::{self, ErrorKind, Read, Write};

/// Writes all of the bytes. After an error the writer took a front of them.
pub fn write_whole<W: Write>(writer: &mut W, bytes: &[u8]) -> io::Result<()>
    ensures whole { OnOk result (Appends (W.contents writer.old) (W.contents writer.new) bytes.now) }
    ensures part { OnErr result ((n : ℕ) × (n ≤ length bytes.now)
        × Appends (W.contents writer.old) (W.contents writer.new) (take n bytes.now)) }
{
    let mut written = 0;
    for _ in 0..u64::MAX {
        if written == bytes.len() {
            return Ok(());
        }
        let (_, rest) = bytes.split_at(written);
        match writer.write(rest) {
            Ok(0) => return Err(ErrorKind::WriteZero.into()),
            Ok(count) => written += count,
            Err(error) if error.kind() == ErrorKind::Interrupted => {}
            Err(error) => return Err(error),
        }
    }
    Err(ErrorKind::Interrupted.into())
}

/// Fills the buffer. It fails too where the reader ends before; the buffer may hold anything then.
pub fn read_whole<R: Read>(reader: &mut R, into: &mut [u8]) -> io::Result<()>
    ensures whole { OnOk result (Consumes (R.remaining reader.old) (R.remaining reader.new) into.new) }
{
    let mut filled = 0;
    for _ in 0..u64::MAX {
        if filled == into.len() {
            return Ok(());
        }
        match reader.read(&mut into[filled..]) {
            Ok(0) => return Err(ErrorKind::UnexpectedEof.into()),
            Ok(count) => filled += count,
            Err(error) if error.kind() == ErrorKind::Interrupted => {}
            Err(error) => return Err(error),
        }
    }
    Err(ErrorKind::Interrupted.into())
}

/// Copies as many of the first bytes as there are, and as there is room for, and answers how many. Behind them `into` stays as it was.
pub fn copy_front(bytes: &[u8], into: &mut [u8]) -> usize
    ensures count { result ≡ min (length bytes.now) (length into.old) }
    ensures front { take result into.new ≡ take result bytes.now }
    ensures rest { drop result into.new ≡ drop result into.old }
{
    let count = bytes.len().min(into.len());
    into[..count].copy_from_slice(&bytes[..count]);
    count
}

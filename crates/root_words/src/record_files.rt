//! Root records in files.
ghost use Rattle.std.specs.Prelude.{◌≡◌, ◌≢◌, ◌<◌, ◌≤◌, Ok, IfOk, OnOk, IfErr, IsErrOf, IfSome, length, take};
ghost use Rattle.std.specs.Io.KnownBytes.{Consumes, IsAtEnd};
ghost use Rattle.sdbt_base.specs.declared.limits.TheConstants.{ROOT};
ghost use Rattle.root_words.specs.declared.refusals.NoRecord.TheVariants as why;

use crate::NoRecord;
use sdbt_base::ROOT;
use std::io::{self, ErrorKind, Read};

/// The root record that a reader has left, which is all that it has left: 128 bytes.
pub fn read_record<R: Read>(reader: &mut R) -> Result<[u8; ROOT], NoRecord>
    ensures whole { IfOk result (λ bytes. Consumes (R.remaining reader.old) (R.remaining reader.new) bytes) }
    ensures end { OnOk result (IsAtEnd (R.remaining reader.new)) }
    ensures length { IfErr result (λ error. error ≡ why.Length → IfSome (R.remaining reader.old) (λ bytes. length bytes ≢ ROOT)) }
{
    // One byte more shows whether there are more.
    let mut bytes = [0; ROOT + 1];
    let read = read_front(reader, &mut bytes);
    record_of(&bytes, read)
}

// The root record that was read to these bytes, of which so many were read.
fn record_of(bytes: &[u8; ROOT + 1], read: io::Result<usize>) -> Result<[u8; ROOT], NoRecord>
    ensures full { IfOk read (λ count. count ≡ ROOT → result ≡ Ok (take ROOT bytes.now)) }
    ensures other { IfOk read (λ count. count ≢ ROOT → IsErrOf result why.Length) }
    ensures failed { IfErr read (λ error. IsErrOf result (why.Io error)) }
{
    match read {
        Ok(ROOT) => Ok(front_of(bytes)),
        Ok(_) => Err(NoRecord::Length),
        Err(error) => Err(NoRecord::Io(error)),
    }
}

// All of the bytes but the last one.
fn front_of(bytes: &[u8; ROOT + 1]) -> [u8; ROOT]
    ensures { result ≡ take ROOT bytes.now }
{
    let mut front = [0; ROOT];
    front.copy_from_slice(&bytes[..ROOT]);
    front
}

// Reads until the buffer is full or the reader at its end, and answers how many bytes it read.
fn read_front<R: Read>(reader: &mut R, into: &mut [u8]) -> io::Result<usize>
    ensures bound { IfOk result (λ count. count ≤ length into.new) }
    ensures bytes { IfOk result (λ count. Consumes (R.remaining reader.old) (R.remaining reader.new) (take count into.new)) }
    ensures end { IfOk result (λ count. count < length into.new → IsAtEnd (R.remaining reader.new)) }
{
    let mut filled = 0;
    for _ in 0..u64::MAX {
        if filled == into.len() {
            return Ok(filled);
        }
        match reader.read(&mut into[filled..]) {
            Ok(0) => return Ok(filled),
            Ok(count) => filled += count,
            Err(error) if error.kind() == ErrorKind::Interrupted => {}
            Err(error) => return Err(error),
        }
    }
    Err(ErrorKind::Interrupted.into())
}

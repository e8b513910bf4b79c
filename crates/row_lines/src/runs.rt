//! Bytes as words: hex digits, and runs of bytes that are the same or that count up.
use crate::words::LineFault;
use hex::FromHexError;
use sdbt_base::{Line, Memory};
use std::alloc::Global;

/// How many bytes make a run, where bytes are written.
const LEAST: usize = 8;

/// How the bytes of a run go on.
#[derive(Clone, Copy)]
enum Course {
    Same,
    Counting,
}

/// The byte behind one in a run. Bytes that count go from 250 on to 0, so that no run repeats itself block by block.
fn next_byte(byte: u8, course: Course) -> u8 {
    match course {
        Course::Same => byte,
        Course::Counting => { if byte < 250 { byte + 1 } else { 0 } }
    }
}

/// Adds the bytes that a word says: `HH*COUNT` says COUNT bytes HH, `HH+COUNT` COUNT bytes that count up from HH, and hex digits
/// what they are.
pub fn read_bytes(alloc: Global, word: &str, into: &mut Line) -> Result<(), LineFault> {
    if let Some((first, count)) = word.split_once('*') {
        return read_run(first, count, Course::Same, into);
    }
    if let Some((first, count)) = word.split_once('+') {
        return read_run(first, count, Course::Counting, into);
    }
    match hex::decode(alloc, word) {
        Ok(bytes) => {
            into.append(&bytes)?;
            Ok(())
        }
        Err(FromHexError::OutOfMemory) => Err(LineFault::Memory),
        Err(_) => Err(LineFault::Unknown),
    }
}

/// Adds the bytes of a run.
fn read_run(first: &str, count: &str, course: Course, into: &mut Line) -> Result<(), LineFault> {
    let mut bytes = [0; 1];
    if hex::decode_to_slice(first, &mut bytes).is_err() {
        return Err(LineFault::Unknown);
    }
    let count: u32 = count.parse().ok().ok_or(LineFault::Unknown)?;
    for _ in 0..count {
        into.append(&bytes)?;
        bytes = [next_byte(bytes[0], course)];
    }
    Ok(())
}

/// Writes bytes as such words, with spaces between them: eight and more that are a run as one.
pub fn write_bytes(alloc: Global, bytes: &[u8], text: &mut Line) -> Result<(), Memory> {
    let mut rest = bytes;
    for _ in 0..bytes.len() {
        if rest.is_empty() {
            break;
        }
        if rest.len() < bytes.len() {
            text.append(b" ")?;
        }
        let count = write_word(alloc, rest, text)?;
        let (_, behind) = rest.split_at(count.min(rest.len()));
        rest = behind;
    }
    Ok(())
}

/// Writes the word at the front of these bytes. The answer is how many bytes it says.
fn write_word(alloc: Global, bytes: &[u8], text: &mut Line) -> Result<usize, Memory> {
    let same = run_length(bytes, Course::Same);
    let counting = run_length(bytes, Course::Counting);
    let run = same.max(counting);
    let count = if run >= LEAST {
        1
    } else {
        digits_length(bytes)
    };
    let (front, _) = bytes.split_at(count.min(bytes.len()));
    write_digits(alloc, front, text)?;
    if run < LEAST {
        return Ok(count);
    }
    let mark = if same >= counting { "*" } else { "+" };
    text.append(format!(in alloc; "{mark}{run}")?.as_bytes())?;
    Ok(run)
}

/// Writes the hex digits of these bytes.
fn write_digits(alloc: Global, bytes: &[u8], text: &mut Line) -> Result<(), Memory> {
    text.append(hex::encode(alloc, bytes)?.as_bytes())
}

/// How many bytes at the front go on in this way.
fn run_length(bytes: &[u8], course: Course) -> usize {
    let mut wanted = None;
    for (place, byte) in bytes.iter().enumerate() {
        if wanted.is_some_and(|wanted| wanted != *byte) {
            return place;
        }
        wanted = Some(next_byte(*byte, course));
    }
    bytes.len()
}

/// How many bytes stand before the next run.
fn digits_length(bytes: &[u8]) -> usize {
    for place in 0..bytes.len() {
        if begins_run(bytes, place) {
            return place;
        }
    }
    bytes.len()
}

/// Whether a run begins at a place.
fn begins_run(bytes: &[u8], place: usize) -> bool {
    let (_, here) = bytes.split_at(place.min(bytes.len()));
    let (front, _) = here.split_at(LEAST.min(here.len()));
    run_length(front, Course::Same) >= LEAST || run_length(front, Course::Counting) >= LEAST
}

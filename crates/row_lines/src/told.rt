//! What a client of NBD is told, as lines of a row.
use crate::clients::{Awaited, Client};
use crate::runs::write_bytes;
use sdbt_base::{Line, Memory};
use std::alloc::Global;

/// How many bytes the greeting, the answer to an option, the one to the last, the zeroes behind it, and the head of a reply have.
const GREETING: usize = 18;

const ANSWER: usize = 20;

const EXPORT: usize = 10;

const ZEROES: usize = 124;

const HEAD: usize = 16;

/// What an answer to an option and a reply begin with.
const ANSWER_MAGIC: [u8; 8] = [0, 3, 0xe8, 0x89, 4, 0x55, 0x65, 0xa9];

const REPLY_MAGIC: [u8; 4] = [0x67, 0x44, 0x66, 0x98];

/// Lines that are written one after another: those that follow on one and are the same are counted.
#[derive(Drop)]
struct Lines {
    alloc: Global,
    last: Line,
    times: u64,
}

/// Writes the bytes that were put to a client as lines: one for each word that it waited for, and one for the bytes behind them,
/// or from the first word on that is another one than it waited for.
pub fn write_told(
    alloc: Global,
    client: &Client,
    put: &[u8],
    text: &mut Line,
) -> Result<(), Memory> {
    let mut lines = Lines {
        alloc,
        last: Line::new(alloc),
        times: 0,
    };
    let untold = lines.add_words(client.awaited(), put, text)?;
    lines.finish(text)?;
    write_untold(alloc, untold, text)
}

/// Writes the line of the bytes behind the last word, if there are any.
fn write_untold(alloc: Global, bytes: &[u8], text: &mut Line) -> Result<(), Memory> {
    if bytes.is_empty() {
        return Ok(());
    }
    text.append(b"<~ ")?;
    write_bytes(alloc, bytes, text)?;
    text.append(b"\n")
}

impl Lines {
    /// Adds the lines of the words that these bytes begin with, of those that are waited for. The answer is the bytes behind them.
    fn add_words<'a>(
        &mut self,
        awaited: &[Awaited],
        put: &'a [u8],
        text: &mut Line,
    ) -> Result<&'a [u8], Memory> {
        let mut rest = put;
        for awaited in awaited {
            match self.add_word(*awaited, rest, text)? {
                Some(behind) => rest = behind,
                None => break,
            }
        }
        Ok(rest)
    }

    /// Adds the line of the word that these bytes begin with. The answer is the bytes behind it; None, if it is another word than is
    /// waited for.
    fn add_word<'a>(
        &mut self,
        awaited: Awaited,
        bytes: &'a [u8],
        text: &mut Line,
    ) -> Result<Option<&'a [u8]>, Memory> {
        let count = length_of(awaited, bytes);
        if bytes.len() < count {
            return Ok(None);
        }
        let (front, behind) = bytes.split_at(count);
        let mut line = Line::new(self.alloc);
        if !describe(self.alloc, awaited, front, &mut line)? {
            return Ok(None);
        }
        self.add(line, text)?;
        Ok(Some(behind))
    }

    /// Adds a line, and writes the one before where that is another one.
    fn add(&mut self, line: Line, text: &mut Line) -> Result<(), Memory> {
        if self.times > 0 && self.last.bytes() == line.bytes() {
            self.times = self.times.saturating_add(1);
            return Ok(());
        }
        self.finish(text)?;
        self.last = line;
        self.times = 1;
        Ok(())
    }

    /// Writes the last line: behind `< `, or with how many times it came behind `<* `.
    fn finish(&mut self, text: &mut Line) -> Result<(), Memory> {
        let times = self.times;
        if times == 0 {
            return Ok(());
        }
        if times == 1 {
            text.append(b"< ")?;
        } else {
            text.append(format!(in self.alloc; "<* {times} ")?.as_bytes())?;
        }
        text.append(self.last.bytes())?;
        text.append(b"\n")
    }
}

/// How many bytes the word has that a client waits for, if these bytes begin with it.
fn length_of(awaited: Awaited, bytes: &[u8]) -> usize {
    match awaited {
        Awaited::Greeting => GREETING,
        Awaited::Answer => ANSWER,
        Awaited::Export { has_zeroes: true } => EXPORT + ZEROES,
        Awaited::Export { has_zeroes: false } => EXPORT,
        Awaited::Reply { count } => {
            if number_at(bytes, 4, 4) == 0 {
                HEAD + count.min(1 << 32) as usize
            } else {
                HEAD
            }
        }
    }
}

/// Writes what a word says to a client that waits for it. The answer is whether it is such a word.
fn describe(alloc: Global, awaited: Awaited, word: &[u8], line: &mut Line) -> Result<bool, Memory> {
    match awaited {
        Awaited::Greeting => describe_greeting(alloc, word, line),
        Awaited::Answer => describe_answer(alloc, word, line),
        Awaited::Export { .. } => describe_export(alloc, word, line),
        Awaited::Reply { .. } => describe_reply(alloc, word, line),
    }
}

/// `greeting flags FLAGS`.
fn describe_greeting(alloc: Global, word: &[u8], line: &mut Line) -> Result<bool, Memory> {
    if !word.starts_with(b"NBDMAGICIHAVEOPT") {
        return Ok(false);
    }
    let flags = number_at(word, 16, 2);
    line.append(format!(in alloc; "greeting flags {flags}")?.as_bytes())?;
    Ok(true)
}

/// `option NUMBER acknowledged`, or `option NUMBER unsupported`.
fn describe_answer(alloc: Global, word: &[u8], line: &mut Line) -> Result<bool, Memory> {
    let option = number_at(word, 8, 4);
    let said = match number_at(word, 12, 4) {
        1 => "acknowledged",
        0x80000001 => "unsupported",
        _ => return Ok(false),
    };
    if !word.starts_with(&ANSWER_MAGIC) || number_at(word, 16, 4) != 0 {
        return Ok(false);
    }
    line.append(format!(in alloc; "option {option} {said}")?.as_bytes())?;
    Ok(true)
}

/// `export SIZE flags FLAGS`, with `zeroes` behind it where they come.
fn describe_export(alloc: Global, word: &[u8], line: &mut Line) -> Result<bool, Memory> {
    if word.iter().skip(EXPORT).any(|byte| *byte != 0) {
        return Ok(false);
    }
    let size = number_at(word, 0, 8);
    let flags = number_at(word, 8, 2);
    let zeroes = if word.len() > EXPORT { " zeroes" } else { "" };
    line.append(format!(in alloc; "export {size} flags {flags}{zeroes}")?.as_bytes())?;
    Ok(true)
}

/// `COOKIE done`, `COOKIE data BYTES`, or the cookie with the name of an error.
fn describe_reply(alloc: Global, word: &[u8], line: &mut Line) -> Result<bool, Memory> {
    let said = match number_at(word, 4, 4) {
        0 if word.len() > HEAD => "data ",
        0 => "done",
        5 => "EIO",
        12 => "ENOMEM",
        22 => "EINVAL",
        28 => "ENOSPC",
        _ => return Ok(false),
    };
    if !word.starts_with(&REPLY_MAGIC) {
        return Ok(false);
    }
    let cookie = number_at(word, 8, 8);
    line.append(format!(in alloc; "{cookie} {said}")?.as_bytes())?;
    let (_, bytes) = word.split_at(HEAD.min(word.len()));
    write_bytes(alloc, bytes, line)?;
    Ok(true)
}

/// The number of so many bytes at a place, the highest first.
fn number_at(bytes: &[u8], place: usize, count: usize) -> u64 {
    let mut number: u64 = 0;
    for byte in bytes.iter().skip(place).take(count) {
        number = number.wrapping_mul(256).wrapping_add(u64::from(*byte));
    }
    number
}

//! What a client of NBD says, line by line.
ghost use Rattle.std.specs.Prelude.{◌≤◌};

use crate::runs::read_bytes;
use crate::words::{LineFault, number, word};
use sdbt_base::{Line, Memory};
use std::alloc::Global;
use std::str::SplitWhitespace;

/// What a client waits for.
#[derive(Clone, Copy)]
pub enum Awaited {
    /// The greeting of the server.
    Greeting,
    /// The answer to an option.
    Answer,
    /// The answer to the last option, with 124 zeroes behind it or without.
    Export { has_zeroes: bool },
    /// The reply to a request, with so many bytes behind it where it was done.
    Reply { count: u64 },
}

/// The numbers of the options and requests that have a name.
const EXPORT: u64 = 1;

const ABORT: u64 = 2;

const READ: u64 = 0;

const WRITE: u64 = 1;

const DISCONNECT: u64 = 2;

const FLUSH: u64 = 3;

const TRIM: u64 = 4;

/// What a client has said so far, and what it waits for.
#[derive(Drop)]
pub struct Client {
    alloc: Global,
    said: Line,
    awaited: Vec<Awaited>,
    // the cookie of the last request that was not given another
    cookie: u64,
    wants_zeroes: bool,
}

/// What stands behind the kind of an option or a request: bytes, and fields that are other than they would be.
#[derive(Drop)]
struct Rest {
    bytes: Line,
    count: Option<u64>,
    cookie: Option<u64>,
    flags: u64,
}

/// The kind of a request and where it begins, with its count where that doesn't follow from the bytes behind it.
#[derive(Clone, Copy)]
struct Range {
    kind: u64,
    at: u64,
    count: Option<u64>,
}

/// The fields of a request behind the word that it begins with.
#[derive(Clone, Copy)]
struct Head {
    flags: u64,
    kind: u64,
    cookie: u64,
    at: u64,
    count: u64,
}

impl Client {
    /// A client that has said nothing, and waits for the greeting.
    pub fn new(alloc: Global) -> Result<Client, Memory> {
        let mut awaited = Vec::new(alloc);
        awaited.push(Awaited::Greeting)?;
        Ok(Client {
            alloc,
            said: Line::new(alloc),
            awaited,
            cookie: 0,
            wants_zeroes: true,
        })
    }

    /// The bytes that it said.
    pub fn said(&self) -> &[u8] {
        self.said.bytes()
    }

    /// What it waits for, one behind the other.
    pub fn awaited(&self) -> &[Awaited] {
        &self.awaited
    }

    /// Says what a line says.
    pub fn say(&mut self, line: &str) -> Result<(), LineFault> {
        let mut words = line.split_whitespace();
        let words = &mut words;
        let first = word(words)?;
        if first == "flags" {
            self.say_flags(words)
        } else if first == "bytes" {
            self.say_bytes(words)
        } else {
            match option_of(first, words)? {
                Some(kind) => self.say_option(kind, words),
                None => self.say_request(first, words),
            }
        }
    }

    /// Says bytes.
    fn say_bytes(&mut self, words: &mut SplitWhitespace<'_>) -> Result<(), LineFault> {
        let rest = self.rest_of(words)?;
        self.said.append(rest.bytes.bytes())?;
        Ok(())
    }

    /// Says the client's flags.
    fn say_flags(&mut self, words: &mut SplitWhitespace<'_>) -> Result<(), LineFault> {
        let flags = number(words)?;
        self.wants_zeroes = flags & 2 == 0;
        self.say_number(flags, 4)?;
        Ok(())
    }

    /// Says an option of this kind, with its data.
    fn say_option(&mut self, kind: u64, words: &mut SplitWhitespace<'_>) -> Result<(), LineFault> {
        let rest = self.rest_of(words)?;
        Ok(self.say_data(kind, &rest)?)
    }

    /// Says an option of this kind with these data.
    fn say_data(&mut self, kind: u64, data: &Rest) -> Result<(), Memory> {
        let bytes = data.bytes.bytes();
        let count = data.count.unwrap_or(bytes.len() as u64);
        self.said.append(b"IHAVEOPT")?;
        self.say_number(kind, 4)?;
        self.say_number(count, 4)?;
        self.said.append(bytes)?;
        let has_zeroes = self.wants_zeroes;
        self.wait_for(if kind == EXPORT {
            Awaited::Export { has_zeroes }
        } else {
            Awaited::Answer
        })
    }

    /// Says a request of the kind that a word names.
    fn say_request(
        &mut self,
        name: &str,
        words: &mut SplitWhitespace<'_>,
    ) -> Result<(), LineFault> {
        let range = range_of(name, words)?;
        let rest = self.rest_of(words)?;
        Ok(self.say_range(&range, &rest)?)
    }

    /// Says a request for a range, with bytes behind it: as many as are counted, where no other count is said.
    fn say_range(&mut self, range: &Range, rest: &Rest) -> Result<(), Memory> {
        let bytes = rest.bytes.bytes();
        let count = rest.count.or(range.count).unwrap_or(bytes.len() as u64);
        self.cookie = self.cookie.saturating_add(1);
        self.say_head(&Head {
            flags: rest.flags,
            kind: range.kind,
            cookie: rest.cookie.unwrap_or(self.cookie),
            at: range.at,
            count,
        })?;
        self.said.append(bytes)?;
        match range.kind {
            DISCONNECT => Ok(()),
            READ => self.wait_for(Awaited::Reply { count }),
            _ => self.wait_for(Awaited::Reply { count: 0 }),
        }
    }

    /// Says what stands before the bytes of a request.
    fn say_head(&mut self, head: &Head) -> Result<(), Memory> {
        self.say_number(0x25609513, 4)?;
        self.say_number(head.flags, 2)?;
        self.say_number(head.kind, 2)?;
        self.say_number(head.cookie, 8)?;
        self.say_number(head.at, 8)?;
        self.say_number(head.count, 4)
    }

    /// Waits for this too.
    fn wait_for(&mut self, awaited: Awaited) -> Result<(), Memory> {
        self.awaited.push(awaited)?;
        Ok(())
    }

    /// Says a number in so many bytes, the highest first.
    fn say_number(&mut self, value: u64, count: usize) -> Result<(), Memory>
        requires { count ≤ 8 }
    {
        self.said.append(&value.to_be_bytes()[8 - count..])
    }

    /// The words to the end of a line: bytes, and `count`, `cookie` or `flags` with a number each.
    fn rest_of(&self, words: &mut SplitWhitespace<'_>) -> Result<Rest, LineFault> {
        let mut rest = Rest {
            bytes: Line::new(self.alloc),
            count: None,
            cookie: None,
            flags: 0,
        };
        for _ in 0..u64::MAX {
            let Some(field) = words.next() else {
                break;
            };
            rest.take(self.alloc, field, words)?;
        }
        Ok(rest)
    }
}

impl Rest {
    /// Takes a word up: bytes, or the name of a field whose number comes next.
    fn take(
        &mut self,
        alloc: Global,
        field: &str,
        words: &mut SplitWhitespace<'_>,
    ) -> Result<(), LineFault> {
        if field == "count" {
            self.count = Some(number(words)?);
        } else if field == "cookie" {
            self.cookie = Some(number(words)?);
        } else if field == "flags" {
            self.flags = number(words)?;
        } else {
            read_bytes(alloc, field, &mut self.bytes)?;
        }
        Ok(())
    }
}

/// The number of an option: `export`, `abort`, or `option` and a number. None, if it is none of these words.
fn option_of(name: &str, words: &mut SplitWhitespace<'_>) -> Result<Option<u64>, LineFault> {
    if name == "option" {
        Ok(Some(number(words)?))
    } else if name == "export" {
        Ok(Some(EXPORT))
    } else if name == "abort" {
        Ok(Some(ABORT))
    } else {
        Ok(None)
    }
}

/// The range of the request that a word names: of `flush` and `disconnect` an empty one.
fn range_of(name: &str, words: &mut SplitWhitespace<'_>) -> Result<Range, LineFault> {
    if name == "flush" {
        Ok(empty_range(FLUSH))
    } else if name == "disconnect" {
        Ok(empty_range(DISCONNECT))
    } else if name == "write" {
        let at = number(words)?;
        Ok(Range {
            kind: WRITE,
            at,
            count: None,
        })
    } else {
        let kind = kind_of(name, words)?;
        counted_range(kind, words)
    }
}

/// The range of a request that is for none.
fn empty_range(kind: u64) -> Range {
    Range {
        kind,
        at: 0,
        count: Some(0),
    }
}

/// The range whose start and count come next.
fn counted_range(kind: u64, words: &mut SplitWhitespace<'_>) -> Result<Range, LineFault> {
    let at = number(words)?;
    let count = number(words)?;
    Ok(Range {
        kind,
        at,
        count: Some(count),
    })
}

/// The number of a kind of request for a range: `read`, `trim`, or `request` and a number.
fn kind_of(name: &str, words: &mut SplitWhitespace<'_>) -> Result<u64, LineFault> {
    if name == "read" {
        Ok(READ)
    } else if name == "trim" {
        Ok(TRIM)
    } else if name == "request" {
        number(words)
    } else {
        Err(LineFault::Unknown)
    }
}

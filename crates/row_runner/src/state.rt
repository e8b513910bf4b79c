//! The objects in memory that the runs of a row share.
use crate::forging::{change, page_at, page_of, root_of};
use crate::keys::Keys;
use crate::serving::{Faults, Ran, Server, serve, serve_transfer};
use medium_trace::Pages;
use platform::{CallKind, Failure, MemPlatform, Platform};
use row_lines::{LineFault, end, number, word};
use sdbt_base::{Line, MAX_PAGES, Memory, RECORD, ROOT};
use std::alloc::Global;
use std::mem::replace;
use std::str::SplitWhitespace;

/// How many pages a medium can have where a row doesn't say it.
const PAGES: u64 = 262_144;

/// A medium with a root cell, the keys of its pages, its ledger, and what fails in the next run.
#[derive(Drop)]
pub(crate) struct Scene {
    alloc: Global,
    pub(crate) platform: MemPlatform,
    capacity: u64,
    pub(crate) keys: Keys,
    pub(crate) ledger: Line,
    faults: Faults,
    /// How many reads of pages there were before the last run.
    pub(crate) reads: u64,
    /// The root record before the last run.
    pub(crate) cell: Option<[u8; ROOT]>,
}

impl Scene {
    /// A blank medium whose keys rise.
    pub(crate) fn new(alloc: Global) -> Scene {
        Scene {
            alloc,
            platform: MemPlatform::blank(alloc, PAGES),
            capacity: PAGES,
            keys: Keys::Rising,
            ledger: Line::new(alloc),
            faults: Faults::none(alloc),
            reads: 0,
            cell: None,
        }
    }

    /// `medium PAGES`: everything anew, over a blank medium that can have so many pages.
    pub(crate) fn begin(&mut self, words: &mut SplitWhitespace<'_>) -> Result<(), LineFault> {
        let capacity = number(words)?;
        end(words)?;
        if capacity > MAX_PAGES {
            return Err(LineFault::Unknown);
        }
        *self = Scene {
            platform: MemPlatform::blank(self.alloc, capacity),
            capacity,
            ..Scene::new(self.alloc)
        };
        Ok(())
    }

    /// Serves an input; the ledger's entries come behind those that were there.
    pub(crate) fn run(
        &mut self,
        server: Server,
        words: &[String],
        input: &[u8],
        step: usize,
    ) -> Result<Ran, Memory> {
        self.reads = self.platform.reads();
        self.cell = self.platform.cell();
        let faults = replace(&mut self.faults, Faults::none(self.alloc));
        let ran = serve(
            self.alloc,
            &mut self.platform,
            &mut self.keys,
            &faults,
            server,
            words,
            input,
            step,
        )?;
        self.ledger.append(ran.entries.bytes())?;
        Ok(ran)
    }

    /// Moves the device on this medium to another one, whose ledger gets the entries.
    pub(crate) fn transfer(&mut self, to: &mut Scene, words: &[String]) -> Result<Ran, Memory> {
        self.reads = self.platform.reads();
        self.cell = self.platform.cell();
        to.reads = to.platform.reads();
        to.cell = to.platform.cell();
        let own = replace(&mut self.faults, Faults::none(self.alloc));
        let faults = replace(&mut to.faults, Faults::none(self.alloc));
        let ran = serve_transfer(
            self.alloc,
            &mut self.platform,
            &mut to.platform,
            &mut to.keys,
            &own.calls,
            &faults,
            words,
        )?;
        to.ledger.append(ran.entries.bytes())?;
        Ok(ran)
    }

    /// `cut`: the power is lost, and each page that was not synced is torn.
    pub(crate) fn lose_power(&mut self) {
        let platform = &mut self.platform;
        for addr in platform.synced()..platform.head() {
            if addr >= platform.synced() && addr < platform.head() {
                platform.power_cut(&[addr]);
            }
        }
    }

    /// `fail CALL NTH [done]`, `fail take NTH`, `fail draw NTH`, `fail put NTH BYTES` or `fail entry NTH BYTES`: what fails in the
    /// next run; a call of the platform with its effect, or without; a put with so many bytes written.
    pub(crate) fn fail(&mut self, words: &mut SplitWhitespace<'_>) -> Result<(), LineFault> {
        let kind = word(words)?;
        let nth = number(words)?;
        let more = words.next();
        self.faults.add(kind, nth, more)?;
        end(words)
    }

    /// `page ADDR put PLACE HEX`, `page ADDR flip PLACE HEX` or `page ADDR holds FIELDS`: another page at an address, or one more.
    pub(crate) fn set_page(&mut self, words: &mut SplitWhitespace<'_>) -> Result<(), LineFault> {
        let addr = number(words)?;
        let how = word(words)?;
        let page = self.page_said(addr, how, words)?;
        end(words)?;
        let cell = self.platform.cell();
        self.rebuild(Some((addr, &page)), cell)
    }

    /// The page that these words say, or how the one at an address is changed by them.
    fn page_said(
        &self,
        addr: u64,
        how: &str,
        words: &mut SplitWhitespace<'_>,
    ) -> Result<[u8; RECORD], LineFault> {
        let pages = self.platform.recorded();
        if how == "holds" {
            return page_of(self.alloc, addr, words, pages);
        }
        let mut page = page_at(pages, addr);
        change(how, &mut page, words)?;
        Ok(page)
    }

    /// `cell put PLACE HEX`, `cell flip PLACE HEX`, `cell holds FIELDS` or `cell clear`: another root record.
    pub(crate) fn set_cell(&mut self, words: &mut SplitWhitespace<'_>) -> Result<(), LineFault> {
        let how = word(words)?;
        let cell = if how == "clear" {
            None
        } else if how == "holds" {
            Some(root_of(words, self.platform.recorded())?)
        } else {
            let mut cell = self.platform.cell().unwrap_or([0; ROOT]);
            change(how, &mut cell, words)?;
            Some(cell)
        };
        end(words)?;
        self.rebuild(None, cell)
    }

    /// A platform with the same pages but for one, or one more, all of them synced, and this cell.
    fn rebuild(
        &mut self,
        changed: Option<(u64, &[u8; RECORD])>,
        cell: Option<[u8; ROOT]>,
    ) -> Result<(), LineFault> {
        let mut pages = Pages::new(self.alloc);
        let old = self.platform.recorded();
        let (place, page) = changed.unwrap_or((u64::MAX, &[0; RECORD]));
        for addr in 0..old.len() {
            let is_changed = addr as u64 == place;
            pages.push(if is_changed { page } else { old.at(addr) })?;
        }
        if place == old.len() as u64 {
            pages.push(page)?;
        }
        if pages.len() as u64 > self.capacity || self.capacity > MAX_PAGES {
            return Err(LineFault::Unknown);
        }
        self.platform = MemPlatform::from_parts(self.alloc, pages, cell, self.capacity);
        Ok(())
    }
}

impl Faults {
    /// One more fault, of the kind that a word names, with its number and what may stand behind that.
    fn add(&mut self, kind: &str, nth: u64, more: Option<&str>) -> Result<(), LineFault> {
        if kind == "take" {
            add_number(&mut self.takes, nth)
        } else if kind == "draw" {
            add_number(&mut self.draws, nth)
        } else if kind == "put" {
            add_cut(&mut self.puts, nth, more)
        } else if kind == "entry" {
            add_cut(&mut self.entries, nth, more)
        } else {
            add_call(&mut self.calls, kind, nth, more)
        }
    }
}

/// The take or draw of this number fails.
fn add_number(numbers: &mut Vec<u64>, nth: u64) -> Result<(), LineFault> {
    numbers.push(nth)?;
    Ok(())
}

/// The put of this number fails, with as many bytes written as the word behind says.
fn add_cut(puts: &mut Vec<(u64, usize)>, nth: u64, count: Option<&str>) -> Result<(), LineFault> {
    let count = count.ok_or(LineFault::Unknown)?;
    let count = count.parse().ok().ok_or(LineFault::Unknown)?;
    puts.push((nth, count))?;
    Ok(())
}

/// The call of this number fails, of the kind that a word names, with its effect where the word behind is `done`.
fn add_call(
    calls: &mut Vec<Failure>,
    kind: &str,
    nth: u64,
    more: Option<&str>,
) -> Result<(), LineFault> {
    let call = call_of(kind)?;
    let effect = more.is_some_and(|word| word == "done");
    calls.push(Failure { call, nth, effect })?;
    Ok(())
}

/// The kind of call that a word names.
fn call_of(word: &str) -> Result<CallKind, LineFault> {
    if word == "append" {
        Ok(CallKind::Append)
    } else if word == "read" {
        Ok(CallKind::Read)
    } else if word == "sync" {
        Ok(CallKind::Sync)
    } else if word == "load" {
        Ok(CallKind::Load)
    } else if word == "swap" {
        Ok(CallKind::Swap)
    } else if word == "clear" {
        Ok(CallKind::Clear)
    } else {
        Err(LineFault::Unknown)
    }
}

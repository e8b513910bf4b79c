//! What a row shows of the objects of its runs.
use crate::reaching::{openers, reached_from, tree_of};
use crate::serving::Ran;
use crate::state::Scene;
use key_tape::SeedTape;
use medium_trace::Pages;
use platform::Platform;
use root_codec::{Root, decode_root};
use row_lines::{LineFault, end, number, word};
use sdbt_base::{Key, KeySlot, Line, Memory, RECORD, Tape};
use std::alloc::Global;
use std::str::SplitWhitespace;

/// How many keys of a seed are tried.
const KEYS: usize = 16;

/// Adds how a run ended to a text: its status, the pages that the medium has then, how many of them are synced, the bytes of the ledger,
/// and whether the root record is another one than before.
pub(crate) fn write_end(
    alloc: Global,
    scene: &Scene,
    ran: &Ran,
    text: &mut Line,
) -> Result<(), Memory> {
    let status = ran.status;
    let (pages, synced) = (scene.platform.head(), scene.platform.synced());
    let ledger = scene.ledger.bytes().len();
    let cell = if scene.platform.cell() == scene.cell {
        ""
    } else {
        " new root"
    };
    let memory = if ran.starved > 0 { " no memory" } else { "" };
    let line = format!(in alloc;
        "= status {status} pages {pages} synced {synced} ledger {ledger}{cell}{memory}\n"
    )?;
    text.append(line.as_bytes())
}

/// Adds a line of what a run left of the medium that a device was moved to.
pub(crate) fn write_other(alloc: Global, scene: &Scene, text: &mut Line) -> Result<(), Memory> {
    let (pages, synced) = (scene.platform.head(), scene.platform.synced());
    let ledger = scene.ledger.bytes().len();
    let cell = if scene.platform.cell() == scene.cell {
        ""
    } else {
        " new root"
    };
    let line = format!(in alloc; "= other pages {pages} synced {synced} ledger {ledger}{cell}\n")?;
    text.append(line.as_bytes())
}

/// Adds what the words ask for to a text.
pub(crate) fn show(
    alloc: Global,
    scene: &mut Scene,
    words: &mut SplitWhitespace<'_>,
    text: &mut Line,
) -> Result<(), LineFault> {
    let what = word(words)?;
    if what == "page" {
        show_page(alloc, scene, number(words)?, text)?;
    } else if what == "openers" {
        show_openers(alloc, scene, number(words)?, text)?;
    } else {
        show_whole(alloc, scene, what, text)?;
    }
    end(words)
}

/// Adds what a word asks for that no number belongs to.
fn show_whole(alloc: Global, scene: &Scene, what: &str, text: &mut Line) -> Result<(), LineFault> {
    if what == "reads" {
        Ok(show_reads(alloc, scene, text)?)
    } else if what == "cell" {
        Ok(show_cell(alloc, scene, text)?)
    } else if what == "ledger" {
        Ok(show_ledger(scene, text)?)
    } else if what == "reached" {
        show_reached(alloc, scene, text)
    } else {
        Err(LineFault::Unknown)
    }
}

/// How many reads of pages the last run took.
fn show_reads(alloc: Global, scene: &Scene, text: &mut Line) -> Result<(), Memory> {
    let reads = scene.platform.reads().saturating_sub(scene.reads);
    text.append(format!(in alloc; "= reads {reads}\n")?.as_bytes())
}

/// The root record in hex digits.
fn show_cell(alloc: Global, scene: &Scene, text: &mut Line) -> Result<(), Memory> {
    match scene.platform.cell() {
        Some(cell) => {
            let digits = hex::encode(alloc, cell.as_slice())?;
            text.append(format!(in alloc; "= cell {digits}\n")?.as_bytes())
        }
        None => text.append(b"= cell empty\n"),
    }
}

/// The lines of the ledger that aren't empty.
fn show_ledger(scene: &Scene, text: &mut Line) -> Result<(), Memory> {
    for line in scene.ledger.bytes().split(|byte| *byte == b'\n') {
        if !line.is_empty() {
            text.append(b"= ")?;
            text.append(line)?;
            text.append(b"\n")?;
        }
    }
    Ok(())
}

/// Whether a page reads as zeros.
fn show_page(
    alloc: Global,
    scene: &mut Scene,
    addr: u64,
    text: &mut Line,
) -> Result<(), LineFault> {
    let what = read_as(scene, addr).ok_or(LineFault::Unknown)?;
    text.append(format!(in alloc; "= page {addr} reads as {what}\n")?.as_bytes())?;
    Ok(())
}

/// What the page at an address reads as, if it can be read.
fn read_as(scene: &mut Scene, addr: u64) -> Option<&'static str> {
    let mut page = [7; RECORD];
    if addr >= scene.platform.head() || scene.platform.read(addr, &mut page).is_err() {
        return None;
    }
    if page == [0; RECORD] {
        Some("zeros")
    } else {
        Some("a record")
    }
}

/// Which of the first keys of a seed open each page.
fn show_openers(alloc: Global, scene: &Scene, seed: u64, text: &mut Line) -> Result<(), LineFault> {
    let keys = first_keys(alloc, seed)?;
    Ok(write_openers(alloc, &keys, scene.platform.recorded(), text)?)
}

/// Which of these keys open each page.
fn write_openers(
    alloc: Global,
    keys: &[Key],
    pages: &Pages,
    text: &mut Line,
) -> Result<(), Memory> {
    write_distinct(alloc, keys, text)?;
    for addr in 0..pages.len() {
        write_opened(alloc, keys, pages, addr, text)?;
    }
    Ok(())
}

/// How many of these keys come once.
fn write_distinct(alloc: Global, keys: &[Key], text: &mut Line) -> Result<(), Memory> {
    let distinct = keys.iter().filter(|key| comes_once(keys, key)).count();
    text.append(format!(in alloc; "= keys {KEYS} distinct {distinct}\n")?.as_bytes())
}

/// Whether a key comes once among these.
fn comes_once(keys: &[Key], key: &Key) -> bool {
    keys.iter().filter(|other| *other == key).count() == 1
}

/// Which of these keys open a page.
fn write_opened(
    alloc: Global,
    keys: &[Key],
    pages: &Pages,
    addr: usize,
    text: &mut Line,
) -> Result<(), Memory> {
    let found = openers(alloc, keys, pages, addr)?;
    text.append(format!(in alloc; "= page {addr} opened by keys {found:?}\n")?.as_bytes())
}

/// The first keys of a seed.
fn first_keys(alloc: Global, seed: u64) -> Result<Vec<Key>, LineFault> {
    let mut tape = SeedTape::new(seed);
    let mut keys = Vec::new(alloc);
    for _ in 0..KEYS {
        if let Some(key) = next_key(alloc, &mut tape)? {
            keys.push(key)?;
        }
    }
    Ok(keys)
}

/// The next key of a tape, if there is one.
fn next_key(alloc: Global, tape: &mut SeedTape) -> Result<Option<Key>, Memory> {
    let mut drawn = KeySlot::new(alloc)?;
    match tape.draw(&mut drawn) {
        Ok(()) => Ok(Some(drawn.spend())),
        Err(_) => Ok(None),
    }
}

/// The pages that the key in the cell reaches, and those of the tree.
fn show_reached(alloc: Global, scene: &Scene, text: &mut Line) -> Result<(), LineFault> {
    let cell = scene.platform.cell().ok_or(LineFault::Unknown)?;
    let root = decode_root(&cell).ok_or(LineFault::Unknown)?;
    Ok(write_reached(alloc, scene.platform.recorded(), &root, text)?)
}

/// The pages that the key of a root record reaches, and those of its tree.
fn write_reached(alloc: Global, pages: &Pages, root: &Root, text: &mut Line) -> Result<(), Memory> {
    let reached = numbers_reached(alloc, pages, root)?;
    let tree = numbers_in_tree(alloc, pages, root)?;
    text.append(format!(in alloc; "= reached {reached:?}\n= tree {tree:?}\n")?.as_bytes())
}

/// The numbers of the pages that the key of a root record reaches.
fn numbers_reached(alloc: Global, pages: &Pages, root: &Root) -> Result<Vec<usize>, Memory> {
    let reached = reached_from(alloc, pages, root.key.bare())?;
    numbers_of(alloc, &reached)
}

/// The numbers of the pages in the tree of a root record.
fn numbers_in_tree(alloc: Global, pages: &Pages, root: &Root) -> Result<Vec<usize>, Memory> {
    let tree = tree_of(alloc, pages, root)?;
    numbers_of(alloc, &tree)
}

/// The places at which a list says yes.
fn numbers_of(alloc: Global, list: &[bool]) -> Result<Vec<usize>, Memory> {
    let mut numbers = Vec::new(alloc);
    for (number, is_there) in list.iter().enumerate() {
        if *is_there {
            numbers.push(number)?;
        }
    }
    Ok(numbers)
}

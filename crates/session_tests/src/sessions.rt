//! A session on a small device: what it reads, writes, trims and commits, and what it refuses.
use crate::fixture::Fixture;
use device_session::{CommitReply, MountRefusal, ReadRefusal, Session, TrimRefusal, WriteRefusal};
use platform::MemPlatform;
use std::alloc::Global;

/// A write of one byte to a block: that it is done, or why it is refused.
fn write(fixture: &mut Fixture, block: u64, byte: u8) -> Option<&'static str> {
    match fixture.write(block, byte) {
        Ok(()) => Some("done"),
        Err(WriteRefusal::Range) => Some("range"),
        Err(WriteRefusal::Full) => Some("full"),
        Err(_) => None,
    }
}

/// The same of a trim.
fn trim(fixture: &mut Fixture, block: u64) -> Option<&'static str> {
    match fixture.trim(block) {
        Ok(()) => Some("done"),
        Err(TrimRefusal::Range) => Some("range"),
        Err(_) => None,
    }
}

/// The first byte of a block, or why it can't be read.
fn read(fixture: &mut Fixture, alloc: Global, block: u64) -> Option<String> {
    match fixture.read(block) {
        Ok(byte) => format!(in alloc; "{byte}").ok(),
        Err(ReadRefusal::Range) => format!(in alloc; "range").ok(),
        Err(_) => None,
    }
}

/// The session's commit number, how many blocks are mapped, and how many there are.
fn numbers(fixture: &Fixture, alloc: Global) -> Option<String> {
    let (number, mapped, blocks) = fixture.counts();
    format!(in alloc; "{number} {mapped} {blocks}").ok()
}

/// The entry that was put to the ledger, if there is one.
fn entry(fixture: &Fixture, alloc: Global) -> Option<String> {
    let text = std::str::from_utf8(fixture.entries()).ok()?.trim();
    format!(in alloc; "[{text}]").ok()
}

/// What comes of an act that goes on with the session.
fn answer(fixture: &mut Fixture, alloc: Global, words: &str) -> Option<String> {
    let mut numbers_of_act: [u64; 2] = [0; 2];
    for (number, word) in numbers_of_act
        .iter_mut()
        .zip(words.split_whitespace().skip(1))
    {
        *number = word.parse().ok()?;
    }
    let [block, byte] = numbers_of_act;
    match *words.as_bytes().first()? {
        b'w' => format!(in alloc; "{}", write(fixture, block, u8::try_from(byte).ok()?)?).ok(),
        b't' => format!(in alloc; "{}", trim(fixture, block)?).ok(),
        b'r' => read(fixture, alloc, block),
        b'h' => format!(in alloc; "{}", fixture.head()).ok(),
        b'c' => format!(in alloc; "{}", fixture.changes()).ok(),
        b'n' => numbers(fixture, alloc),
        b'e' => entry(fixture, alloc),
        _ => None,
    }
}

/// What a commit came to.
fn replied(alloc: Global, reply: CommitReply) -> Option<String> {
    match reply {
        CommitReply::Committed { number } => format!(in alloc; "committed {number}").ok(),
        CommitReply::Full { needed, free } => format!(in alloc; "full {needed} {free}").ok(),
    }
}

/// Commits, and answers what that came to.
fn committed(place: &mut Option<Fixture>) -> Option<CommitReply> {
    let (fixture, reply) = place.take()?.commit()?;
    *place = Some(fixture);
    Some(reply)
}

/// Opens the session anew, and answers whether there is one.
fn mounted(place: &mut Option<Fixture>, alloc: Global) -> Option<&'static str> {
    *place = place.take()?.mounted(alloc);
    if place.is_some() { Some("done") } else { None }
}

/// What comes of an act. The fixture stays in its place, so that no function has one to let go of where it gives up.
fn act(place: &mut Option<Fixture>, alloc: Global, words: &str) -> Option<String> {
    match words {
        "commit" => replied(alloc, committed(place)?),
        "mount" => format!(in alloc; "{}", mounted(place, alloc)?).ok(),
        _ => answer(place.as_mut()?, alloc, words),
    }
}

/// Whether a line `ACT: OUTCOME` comes true.
fn is_so(place: &mut Option<Fixture>, alloc: Global, line: &str) -> Option<bool> {
    let (words, wanted) = line.split_once(": ")?;
    Some(act(place, alloc, words)?.as_str() == wanted)
}

/// The place of the first line of a script of which something else comes.
fn first_unlike_at(place: &mut Option<Fixture>, alloc: Global, script: &str) -> Option<usize> {
    for (i, line) in script.lines().enumerate() {
        if is_so(place, alloc, line) != Some(true) {
            return Some(i);
        }
    }
    None
}

/// The same over a new device on a medium of so many pages.
fn first_unlike(alloc: Global, pages: u32, script: &str) -> Option<usize> {
    let mut place = Fixture::new(alloc, pages);
    first_unlike_at(&mut place, alloc, script)
}

#[test]
fn a_blank_medium_has_no_device(rt: HostRuntime) {
    let mut platform = MemPlatform::blank(rt.alloc(), 13);
    let absent = Session::mount(rt.alloc(), &mut platform, 4).err();
    assert!(rt; absent == Some(MountRefusal::NoDevice));
}

/// Five blocks are two leaves below a root.
const CHANGED: &str = "\
write 1 1: done
write 2 2: done
write 3 3: done
write 4 4: done
write 5 5: done
commit: committed 1
head: 9
mount: done
numbers: 1 5 64
read 1: 1
read 2: 2
read 3: 3
read 4: 4
read 5: 5
read 6: 0";

#[test]
fn changes_are_the_devices_with_a_commit(rt: HostRuntime) {
    assert_eq!(rt; first_unlike(rt.alloc(), 13, CHANGED), None);
}

/// A trim of a block that isn't mapped is no change. Without block 5 its leaf and the root are new.
const UNCHANGED: &str = "\
write 1 1: done
write 2 2: done
write 3 3: done
write 4 4: done
write 5 5: done
commit: committed 1
trim 6: done
commit: committed 1
trim 5: done
numbers: 1 4 64
commit: committed 2
head: 11
read 5: 0";

#[test]
fn a_commit_without_changes_keeps_its_number(rt: HostRuntime) {
    assert_eq!(rt; first_unlike(rt.alloc(), 13, UNCHANGED), None);
}

/// The device has 64 blocks.
const PAST: &str = "\
read 64: range
trim 64: range
write 64 97: range";

#[test]
fn blocks_past_the_device_are_refused(rt: HostRuntime) {
    assert_eq!(rt; first_unlike(rt.alloc(), 13, PAST), None);
}

/// There is room for one data record.
const FULL: &str = "\
write 3 3: done
write 4 98: full
commit: full 1 0
numbers: 0 1 64";

#[test]
fn a_full_medium_is_told(rt: HostRuntime) {
    assert_eq!(rt; first_unlike(rt.alloc(), 2, FULL), None);
}

/// The data records of blocks 0 to 4 are at addresses 1 to 5; two leaves and the root above them are in memory.
const LEAVES: &str = "\
write 0 0: done
write 1 1: done
write 2 2: done
write 3 3: done
write 4 4: done
commit: committed 1
entry: [{\"added\":[[1,0,0],[2,0,1],[3,0,2],[4,0,3],[5,0,4],[6,1,1,2],[7,1,3,4,5],[8,1,6,7]],\"base\":1,\"commit\":1,\"gone\":[0],\"head\":9,\"never\":[],\"root\":8}]";

#[test]
fn leaves_come_before_the_root(rt: HostRuntime) {
    assert_eq!(rt; first_unlike(rt.alloc(), 9, LEAVES), None);
}

/// The same, with room for two nodes.
const TOLD: &str = "\
write 0 0: done
write 1 1: done
write 2 2: done
write 3 3: done
write 4 4: done
commit: full 3 2
head: 6
entry: []";

#[test]
fn full_is_told_before_a_page_is_handed_over(rt: HostRuntime) {
    assert_eq!(rt; first_unlike(rt.alloc(), 8, TOLD), None);
}

/// A format and a commit sync the pages once and replace the root record once; a write and a commit without changes do neither.
const COUNTED: &str = "\
changes: 2
write 1 1: done
changes: 2
commit: committed 1
changes: 4
commit: committed 1
changes: 4";

#[test]
fn a_commit_syncs_once(rt: HostRuntime) {
    assert_eq!(rt; first_unlike(rt.alloc(), 9, COUNTED), None);
}

/// A device on which blocks 1 to 5 were committed.
fn five_blocks(alloc: Global) -> Option<Fixture> {
    let mut fixture = Fixture::new(alloc, 13)?;
    write_five(&mut fixture)?;
    let (fixture, _) = fixture.commit()?;
    Some(fixture)
}

fn write_five(fixture: &mut Fixture) -> Option<()> {
    for block in [1, 2, 3, 4, 5] {
        fixture.write(block, 1).ok()?;
    }
    Some(())
}

/// How many pages reads of blocks 1, 1 and 3 read.
fn reads(fixture: &mut Fixture) -> Option<[u64; 3]> {
    let first = fixture.reads_of(1)?;
    let second = fixture.reads_of(1)?;
    let third = fixture.reads_of(3)?;
    Some([first, second, third])
}

/// The same of a device that keeps so many nodes.
fn three_reads(alloc: Global, nodes: usize) -> Option<[u64; 3]> {
    let mut fixture = five_blocks(alloc)?.keeping(alloc, nodes)?;
    reads(&mut fixture)
}

/// The first read goes through the root node and a leaf; the last one through another leaf. With no node kept each does so.
#[test]
fn page_reads(rt: HostRuntime) {
    assert_eq!(rt; three_reads(rt.alloc(), 256), Some([3, 1, 2]));
    assert_eq!(rt; three_reads(rt.alloc(), 0), Some([3, 3, 3]));
}

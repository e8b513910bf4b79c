//! Lines from outside, and the machine's replies to worked scripts.

ghost use Rattle.std.specs.Prelude.{IfSome};
ghost use Rattle.script_lang.specs.Replies.{CanWrite, FitsBlock, said};

use script_lang::{Command, Machine, Reply, ReplyWriter, parse, read_reply};
use sdbt_base::{BLOCK, MemSink, Memory};
use std::alloc::Global;
use std::test::Fail;

/// What a line is read as.
fn read(line: &str) -> Option<Command> {
    let mut buffer = [0; BLOCK];
    parse(line.as_bytes(), &mut buffer)
}

/// Lines that are none of the grammar; the first one is empty.
const REFUSED: &str = "\n\
write 3 abc\n\
write 3 6g\n\
write 3 \n\
write 3\n\
read 03\n\
READ 3\n\
read  3\n\
read 3 \n\
read +3\n\
read -1\n\
read 18446744073709551616\n\
mount \n\
format 8\n\
format 8 4 4\n\
upgrade \n\
upgrade 2\n\
stats";

/// The place of the first line that is read, or `None`.
fn first_read(lines: &str) -> Option<usize> {
    for (i, line) in lines.lines().enumerate() {
        if read(line).is_some() {
            return Some(i);
        }
    }
    None
}

#[test]
fn grammar_refuses(rt: HostRuntime) {
    assert!(rt; first_read(REFUSED) == None);
    // This one ends as a line of another system does.
    assert!(rt; read("read 3\r") == None);
}

/// Lines of the grammar, and what they are read as.
const READ: [(&str, Command); 10] = [
    (
        "format 8 4",
        Command::Format {
            blocks: 8,
            order: 4,
        },
    ),
    (
        "read 18446744073709551615",
        Command::Read { block: u64::MAX },
    ),
    ("trim 0", Command::Trim { block: 0 }),
    ("mount", Command::Mount),
    ("commit", Command::Commit),
    ("drop", Command::Drop),
    ("erase", Command::Erase),
    ("upgrade", Command::Upgrade),
    ("stat", Command::Stat),
    ("seize", Command::Seize),
];

/// The place of the first of these lines that is read as something else, or `None`.
fn first_misread() -> Option<usize> {
    for (i, (line, want)) in READ.into_iter().enumerate() {
        if read(line) != Some(want) {
            return Some(i);
        }
    }
    None
}

#[test]
fn grammar_reads(rt: HostRuntime) {
    assert!(rt; first_misread() == None);
}

// A line that writes so many bytes FF to block 3.
fn write_of(alloc: Global, count: usize) -> Result<Vec<u8>, Fail> {
    let mut line = Vec::from_slice(alloc, b"write 3 ")?;
    for _ in 0..count {
        line.extend_from_slice(b"fF")?;
    }
    Ok(line)
}

#[test]
fn grammar_reads_contents(rt: HostRuntime) -> Result<(), Fail> {
    let whole = content_of(&write_of(rt.alloc(), 4096)?);
    assert!(rt; whole == Some((3, 4096, 255)));
    assert!(rt; content_of(&write_of(rt.alloc(), 4097)?) == None);
    assert!(rt; content_of(b"write 3 00") == Some((3, 1, 0)));
    Ok(())
}

// The block, the number of bytes, and the last byte that a line writes.
fn content_of(line: &[u8]) -> Option<(u64, usize, u8)> {
    let mut buffer = [0; BLOCK];
    match parse(line, &mut buffer)? {
        Command::Write { block, count } => {
            let last = *buffer.get(count.checked_sub(1)?)?;
            Some((block, count, last))
        }
        _ => None,
    }
}

// Whether the replies of a machine to the lines of a script are these lines.
fn are_replies(alloc: Global, script: &str, want: &str) -> Option<bool> {
    let mut output = MemSink::new(alloc, &[]).ok()?;
    let mut machine = Machine::new(alloc);
    let is_done = put_replies(&mut machine, &mut output, script).is_some();
    Some(is_done && output.bytes() == want.as_bytes())
}

fn put_replies(machine: &mut Machine, output: &mut MemSink, script: &str) -> Option<()> {
    let mut buffer = [0; BLOCK];
    let mut writer = ReplyWriter::new();
    for line in script.lines() {
        let reply = reply_to(machine, line.as_bytes(), &mut buffer)?;
        writer.write(&reply, &buffer, output).ok()?;
    }
    Some(())
}

// What a machine replies to a line; `None` to a seizure, which is not the machine's, and where there were too many commits.
fn reply_to(machine: &mut Machine, line: &[u8], buffer: &mut [u8; BLOCK]) -> Option<Reply>
    ensures written { IfSome result (λ reply. CanWrite (said reply buffer.new)) }
    ensures short { IfSome result FitsBlock }
{
    let Some(command) = parse(line, buffer) else {
        return Some(Reply::Bad);
    };
    if let Command::Seize = command {
        return None;
    }
    if machine.number() == u64::MAX {
        return None;
    }
    match machine.step(&command, buffer, false) {
        Ok(reply) => Some(reply),
        Err(Memory) => None,
    }
}

const ONE_BLOCK: &str = "\
format 8 4\n\
mount\n\
write 3 6869\n\
read 3\n\
commit\n\
read 3";

const ONE_BLOCK_REPLIES: &str = "\
formatted\n\
mounted 0\n\
ok\n\
data 6869\n\
committed 1\n\
data 6869\n";

#[test]
fn one_block(rt: HostRuntime) {
    assert!(rt; are_replies(rt.alloc(), ONE_BLOCK, ONE_BLOCK_REPLIES) == Some(true));
}

const OUT_OF_RANGE: &str = "\
format 8 4\n\
mount\n\
read 7\n\
read 8\n\
write 8 61\n\
trim 8";

const OUT_OF_RANGE_REPLIES: &str = "\
formatted\n\
mounted 0\n\
data -\n\
range\n\
range\n\
range\n";

#[test]
fn out_of_range(rt: HostRuntime) {
    assert!(rt; are_replies(rt.alloc(), OUT_OF_RANGE, OUT_OF_RANGE_REPLIES) == Some(true));
}

const STATE_REFUSALS: &str = "\
read 0\n\
mount\n\
erase\n\
format 0 4\n\
format 8 5\n\
format 8 4\n\
format 8 4\n\
mount\n\
mount\n\
drop\n\
drop";

const STATE_REFUSALS_REPLIES: &str = "\
unmounted\n\
no device\n\
no device\n\
range\n\
range\n\
formatted\n\
not empty\n\
mounted 0\n\
already mounted\n\
dropped\n\
unmounted\n";

#[test]
fn state_refusals(rt: HostRuntime) {
    assert!(rt; are_replies(rt.alloc(), STATE_REFUSALS, STATE_REFUSALS_REPLIES) == Some(true));
}

const UPGRADES: &str = "\
upgrade\n\
format 8 64\n\
mount\n\
write 3 6869\n\
commit\n\
upgrade\n\
drop\n\
upgrade\n\
upgrade\n\
mount\n\
read 3\n\
trim 3\n\
commit";

const UPGRADES_REPLIES: &str = "\
no device\n\
formatted\n\
mounted 0\n\
ok\n\
committed 1\n\
already mounted\n\
dropped\n\
upgraded 2\n\
already upgraded\n\
mounted 2\n\
data 6869\n\
ok\n\
committed 3\n";

#[test]
fn upgrades(rt: HostRuntime) {
    assert!(rt; are_replies(rt.alloc(), UPGRADES, UPGRADES_REPLIES) == Some(true));
}

// The replies, a line for each.
const REPLIES: &str = "\
formatted
mounted 0
data 6869
data -
ok
committed 18446744073709551615
dropped
erased
upgraded 18446744073709551615
stat mapped 3 commit 12
seized pages 5 nodes 1 blocks 1
bad
unmounted
already mounted
not empty
no device
already upgraded
range
full";

// Whether a line is read as a reply, and written as it was, with a line feed.
fn is_read_back(alloc: Global, line: &str) -> Option<bool> {
    let mut buffer = [0; BLOCK];
    let reply = read_reply(line.as_bytes(), &mut buffer)?;
    let mut output = MemSink::new(alloc, &[]).ok()?;
    ReplyWriter::new().write(&reply, &buffer, &mut output).ok()?;
    Some(is_line(output.bytes(), line))
}

// Whether these bytes are a line and a line feed.
fn is_line(bytes: &[u8], line: &str) -> bool {
    match bytes.split_last() {
        Some((feed, text)) => text == line.as_bytes() && *feed == b'\n',
        None => false,
    }
}

#[test]
fn replies_are_read_back(rt: HostRuntime) {
    for line in REPLIES.lines() {
        assert!(rt; is_read_back(rt.alloc(), line) == Some(true), "{line:?}");
    }
}

#[test]
fn other_lines_are_no_replies(rt: HostRuntime) {
    let mut buffer = [0; BLOCK];
    for line in [
        "data 00",
        "data 6A",
        "data",
        "mounted 01",
        "upgraded",
        "ok ",
        "stat mapped 3 commit",
    ] {
        let is_none = read_reply(line.as_bytes(), &mut buffer).is_none();
        assert!(rt; is_none, "{line:?}");
    }
}

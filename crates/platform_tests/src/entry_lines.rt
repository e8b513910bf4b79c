//! Texts that spell a certificate, and texts that don't: the worked lines, and lines that were
//! damaged or made up.
use cert_codec::{line, read_line};
use std::alloc::Global;
use std::test::Fail;

fn is_cert(alloc: Global, text: &[u8]) -> Result<bool, Fail> {
    Ok(read_line(alloc, text)?.is_some())
}

// What is done to one byte of a line.
#[derive(Clone, Copy)]
enum Change {
    Flipped,
    Spaced,
    Doubled,
    Dropped,
}

fn changed(alloc: Global, text: &[u8], at: usize, change: Change) -> Result<Vec<u8>, Fail> {
    let mut bytes = Vec::new(alloc);
    for (i, byte) in text.iter().enumerate() {
        if i != at {
            bytes.push(*byte)?;
            continue;
        }
        match change {
            Change::Flipped => bytes.push(*byte ^ 1)?,
            Change::Spaced => bytes.push(b' ')?,
            Change::Doubled => bytes.extend_from_slice(&[*byte, *byte])?,
            Change::Dropped => {}
        }
    }
    Ok(bytes)
}

// How many of the lines with one byte changed so are certificates still.
fn still_certs(alloc: Global, text: &[u8], change: Change) -> Result<usize, Fail> {
    let mut count: usize = 0;
    for at in 0..text.len() {
        let bytes = changed(alloc, text, at, change)?;
        if is_cert(alloc, &bytes)? {
            count = count.saturating_add(1);
        }
    }
    Ok(count)
}

// How many lines with one byte flipped in its last bit, replaced by a space, doubled or left out
// are certificates.
fn near(alloc: Global, text: &[u8]) -> Result<String, Fail> {
    let flipped = still_certs(alloc, text, Change::Flipped)?;
    let spaced = still_certs(alloc, text, Change::Spaced)?;
    let doubled = still_certs(alloc, text, Change::Doubled)?;
    let dropped = still_certs(alloc, text, Change::Dropped)?;
    Ok(format!(in alloc; "{flipped} {spaced} {doubled} {dropped}")?)
}

// Whether the line reads, and is written as it was.
fn is_written_back(alloc: Global, text: &str) -> Result<bool, Fail> {
    let Some(cert) = read_line(alloc, text.as_bytes())? else {
        return Ok(false);
    };
    let entry = format!(in alloc; "\n{text}\n")?;
    Ok(line(alloc, &cert)?.bytes() == entry.as_bytes())
}

// The worked lines, each behind the counts of those near it, which are those of another reader of
// JSON.
const WORKED: &str = "\
5 0 1 0: {\"added\":[[0,1]],\"base\":0,\"commit\":0,\"gone\":[],\"head\":1,\"never\":[],\"root\":0}\n\
11 1 8 2: {\"added\":[[1,0,3],[2,1,1]],\"base\":1,\"commit\":1,\"gone\":[0],\"head\":3,\"never\":[],\"root\":2}\n\
12 0 10 1: {\"added\":[[3,0,3],[4,1,3]],\"base\":3,\"commit\":2,\"gone\":[1,2],\"head\":5,\"never\":[],\"root\":4}\n\
13 1 10 1: {\"added\":[[2,0,3],[3,1,2]],\"base\":1,\"commit\":1,\"gone\":[0],\"head\":4,\"never\":[[3,1]],\"root\":3}\n\
7 0 7 1: {\"added\":[[3,1]],\"base\":3,\"commit\":2,\"gone\":[1,2],\"head\":4,\"never\":[],\"root\":3}\n\
30 1 23 7: {\"added\":[[1,0,0],[2,0,1],[3,0,2],[4,0,3],[5,0,4],[6,1,1,2],[7,1,3,4,5],[8,1,6,7]],\"base\":1,\"commit\":1,\"gone\":[0],\"head\":9,\"never\":[],\"root\":8}\n\
17 10 22 16: {\"added\":[[9,1,2,3],[10,1,4,5],[11,1,9,10]],\"base\":9,\"commit\":2,\"gone\":[1,6,7,8],\"head\":12,\"never\":[],\"root\":11}\n\
12 12 18 17: {\"added\":[[12,1,3,4,5]],\"base\":12,\"commit\":3,\"gone\":[2,9,10,11],\"head\":13,\"never\":[],\"root\":12}";

#[test]
fn worked_lines(rt: HostRuntime) -> Result<(), Fail> {
    for row in WORKED.lines() {
        let (counts, text) = row.split_once(": ").ok_or("no counts")?;
        assert!(rt; is_written_back(rt.alloc(), text)?, "{text}");
        let found = near(rt.alloc(), text.as_bytes())?;
        assert!(rt; found.as_str() == counts, "{text}");
    }
    Ok(())
}

// Whether the certificate with this text as its last member's value is one.
fn with_root(alloc: Global, root: &str) -> Result<bool, Fail> {
    let text = format!(in alloc;
        "{{\"added\":[],\"base\":0,\"commit\":0,\"gone\":[],\"head\":1,\"never\":[],\"root\":{root}}}"
    )?;
    is_cert(alloc, text.as_bytes())
}

#[test]
fn numbers_and_members(rt: HostRuntime) -> Result<(), Fail> {
    for root in [
        "0",
        "18446744073709551615",
        " \t\r\n0 ",
        "\"x\",\"root\":1",
        "0,\"\\u0072oot\":1",
    ] {
        assert!(rt; with_root(rt.alloc(), root)?, "{root:?}");
    }
    for root in [
        "18446744073709551616",
        "184467440737095516150",
        "-0",
        "-1",
        "1.0",
        "1e0",
        "01",
        "\"0\"",
        "[]",
        "1,\"root\":\"x\"",
        "1e999,\"root\":1",
        "0,\"more\":0",
        "0}{",
    ] {
        assert!(rt; !with_root(rt.alloc(), root)?, "{root:?}");
    }
    Ok(())
}

#[test]
fn nothing_and_other_values(rt: HostRuntime) -> Result<(), Fail> {
    let alloc = rt.alloc();
    for text in [
        "",
        "[]",
        "{}",
        "{\"added\":[],\"base\":0,\"commit\":0,\"gone\":[],\"head\":1,\"never\":[]}",
        "{\"added\":[[0]],\"base\":0,\"commit\":0,\"gone\":[],\"head\":1,\"never\":[],\"root\":0}",
        "{\"added\":[[0,0]],\"base\":0,\"commit\":0,\"gone\":[],\"head\":1,\"never\":[],\"root\":0}",
        "{\"added\":[[0,2]],\"base\":0,\"commit\":0,\"gone\":[],\"head\":1,\"never\":[],\"root\":0}",
        "{\"added\":[],\"base\":0,\"commit\":0,\"gone\":[],\"head\":1,\"never\":[[0]],\"root\":0}",
    ] {
        assert!(rt; !is_cert(alloc, text.as_bytes())?);
    }
    assert!(rt; !is_cert(alloc, b"{\"root\":\"\xff\"}")?);
    Ok(())
}

// So many arrays, one in the other.
fn nested(alloc: Global, depth: usize) -> Result<String, Fail> {
    let mut text = String::new(alloc);
    for _ in 0..depth {
        text.push_str("[")?;
    }
    for _ in 0..depth {
        text.push_str("]")?;
    }
    Ok(text)
}

// With the object that stands around them there may be 127 open ones.
#[test]
fn nesting(rt: HostRuntime) -> Result<(), Fail> {
    let alloc = rt.alloc();
    for (depth, wanted) in [(126, true), (127, false), (100000, false)] {
        let arrays = nested(alloc, depth)?;
        let root = format!(in alloc; "{},\"root\":0", arrays.as_str())?;
        assert!(rt; with_root(alloc, root.as_str())? == wanted, "{depth}");
    }
    Ok(())
}

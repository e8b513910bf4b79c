//! What no clause says: that each call which may answer want of memory does its work where there is
//! memory, and what the two edges do over a reader and a writer of std.
use sdbt_base::{
    Addrs, KeySlot, Line, ListTape, MemSink, MemSource, Memory, ReadSource, Sink, Source, Tape,
    Unkept, UnkeptList, WriteSink,
};
use std::alloc::Global;
use std::test::Fail;

/// How many bytes each of four takes gives, into a line, and none where it fails.
fn takes<S: Source>(
    source: &mut S,
    piece: &mut [u8],
    line: &mut Line,
) -> Result<[Option<usize>; 4], Memory> {
    let mut counts = [None; 4];
    for count in counts.iter_mut() {
        if piece.is_empty() {
            break;
        }
        if let Ok(taken) = source.take(piece) {
            let taken = taken.min(piece.len());
            line.append(&piece[..taken])?;
            *count = Some(taken);
        }
    }
    Ok(counts)
}

/// Whether each of four takes gives so many bytes, and all of them together are these.
fn are_taken<S: Source>(
    source: &mut S,
    piece: &mut [u8],
    line: &mut Line,
    counts: [Option<usize>; 4],
    bytes: &[u8],
) -> bool {
    takes(source, piece, line) == Ok(counts) && line.bytes() == bytes
}

/// Whether each of three puts is done, and how many bytes there are then.
fn puts(sink: &mut MemSink) -> [(bool, usize); 3] {
    let mut found = [(false, 0); 3];
    for place in found.iter_mut() {
        let is_done = sink.put(b"ab").is_ok();
        *place = (is_done, sink.bytes().len());
    }
    found
}

/// What four draws into one place give, and none where one fails.
pub(crate) fn draws<T: Tape>(alloc: Global, tape: &mut T) -> Result<[Option<[u8; 32]>; 4], Memory> {
    let mut drawn = KeySlot::new(alloc)?;
    let mut keys = [None; 4];
    'draws: for key in keys.iter_mut() {
        *key = match tape.draw(&mut drawn) {
            Ok(()) => Some(drawn.spend().bytes()),
            Err(_) => None,
        };
    }
    Ok(keys)
}

#[test]
fn memory_source(rt: HostRuntime) -> Result<(), Fail> {
    let mut source = MemSource::new(rt.alloc(), b"seven b", 4, &[2])?;
    let mut line = Line::new(rt.alloc());
    let counts = [Some(4), None, Some(3), Some(0)];
    assert!(rt; are_taken(&mut source, &mut [0; 16], &mut line, counts, b"seven b"));
    Ok(())
}

#[test]
fn memory_sink(rt: HostRuntime) -> Result<(), Fail> {
    let mut sink = MemSink::new(rt.alloc(), &[(2, 1), (3, 9)])?;
    assert!(rt; puts(&mut sink) == [(true, 2), (false, 3), (false, 5)]);
    assert!(rt; sink.bytes() == b"abaab".as_slice());
    assert!(rt; sink.starved() == 0);
    Ok(())
}

#[test]
fn listed_keys(rt: HostRuntime) -> Result<(), Fail> {
    let mut tape = ListTape::new(rt.alloc(), &[[1; 32], [2; 32]], &[2])?;
    assert!(rt; draws(rt.alloc(), &mut tape) == Ok([Some([1; 32]), None, Some([2; 32]), None]));
    Ok(())
}

#[test]
fn read_edge(rt: HostRuntime) {
    let mut source = ReadSource::new(b"abc".as_slice());
    let mut line = Line::new(rt.alloc());
    let counts = [Some(2), Some(1), Some(0), Some(0)];
    assert!(rt; are_taken(&mut source, &mut [0; 2], &mut line, counts, b"abc"));
}

#[test]
fn write_edge(rt: HostRuntime) {
    // A writer of three bytes: the second put finds room for one.
    let mut room = [0; 3];
    let mut sink = WriteSink::new(room.as_mut_slice());
    assert!(rt; sink.put(b"ab").is_ok());
    assert!(rt; sink.put(b"cd").is_err());
}

#[test]
fn addresses(rt: HostRuntime) -> Result<(), Fail> {
    let mut addrs = Addrs::new(rt.alloc());
    assert!(rt; addrs.is_empty());
    addrs.push(7)?;
    assert!(rt; addrs.len() == 1 && *addrs.at(0) == 7);
    Ok(())
}

#[test]
fn unkept_pages(rt: HostRuntime) -> Result<(), Fail> {
    let mut pages = UnkeptList::new(rt.alloc());
    assert!(rt; pages.is_empty());
    pages.push(Unkept { block: 3, addr: 1 })?;
    assert!(rt; pages.len() == 1 && *pages.at(0) == Unkept { block: 3, addr: 1 });
    Ok(())
}

//! A cell over a TPM in memory: what its index holds, and each of its calls failing, with and without an effect.
ghost use Rattle.std.specs.Prelude.{◌≡◌, ◌≤◌, length};

use sdbt_base::copy_front;
use std::alloc::Global;
use std::cell::Cell;
use std::io::{self, ErrorKind};
use tpm_cell::{CellRefusal, TpmCalls, TpmCell, TpmFault};
use tpm_nv::{DATA, Failure, Index};

/// What an index holds, if it was written.
type Held = Option<[u8; DATA]>;

/// The index of all commands and replies here.
const HANDLE: u32 = 0x1500020;

/// What an index is that its password reads and writes, by the reply that says it.
const PUBLIC: [u8; 62] = [
    0x80, 0x01, 0, 0, 0, 62, 0, 0, 0, 0, 0, 14, 0x01, 0x50, 0x00, 0x20, 0x00, 0x0b, 0x02, 0x04,
    0x00, 0x04, 0, 0, 0x00, 0x80, 0, 34, 0x00, 0x0b, 0xe1, 0x26, 0x23, 0x4d, 0x59, 0xb7, 0x11,
    0xe5, 0xa0, 0xd5, 0x5b, 0x1f, 0xdb, 0xce, 0x14, 0x1c, 0x23, 0xce, 0x78, 0x2c, 0x11, 0x34, 0xd5,
    0x9b, 0xc4, 0xf9, 0x82, 0x6e, 0xf3, 0x82, 0x2e, 0x8f,
];

const ABSENT: [u8; 10] = [0x80, 0x01, 0, 0, 0, 10, 0, 0, 0x01, 0x8b];

const UNWRITTEN: [u8; 10] = [0x80, 0x01, 0, 0, 0, 10, 0, 0, 0x01, 0x4a];

const WRITTEN: [u8; 19] = [
    0x80, 0x02, 0, 0, 0, 19, 0, 0, 0, 0, 0, 0, 0, 0, 0, 0, 1, 0, 0,
];

/// What fails of a TPM.
#[derive(Clone, Copy, PartialEq, Eq)]
enum Failing {
    /// No call.
    Nothing,
    /// The call of this number, counted from 0.
    Before(usize),
    /// The same after its effect.
    After(usize),
}

/// A TPM in memory. What its index holds is the test's, which can look at it.
#[derive(Drop)]
struct MemTpm<'a> {
    is_there: bool,
    held: &'a Cell<Held>,
    calls: usize,
    failing: Failing,
}

impl<'a> MemTpm<'a> {
    // A TPM whose index holds this.
    fn holding(held: &'a Cell<Held>, failing: Failing) -> MemTpm<'a> {
        MemTpm {
            is_there: true,
            held,
            calls: 0,
            failing,
        }
    }

    fn answer(&mut self, command: &[u8], reply: &mut [u8]) -> usize
        requires { length reply.old ≡ 4096 }
        ensures { result ≤ 4096 }
    {
        match command.get(9).copied() {
            Some(0x69) if self.is_there => copy_front(&PUBLIC, reply),
            Some(0x69) => copy_front(&ABSENT, reply),
            Some(0x4e) => match self.held.get() {
                None => copy_front(&UNWRITTEN, reply),
                Some(bytes) => copy_front(&data_reply(&bytes), reply),
            },
            _ => {
                self.held.set(data_in(command));
                copy_front(&WRITTEN, reply)
            }
        }
    }
}

// The reply that an index holds these bytes.
fn data_reply(bytes: &[u8; DATA]) -> [u8; 149] {
    let mut reply = [0; 149];
    reply[..16].copy_from_slice(&[0x80, 0x02, 0, 0, 0, 149, 0, 0, 0, 0, 0, 0, 0, 130, 0, 128]);
    reply[16..144].copy_from_slice(bytes);
    reply[144..].copy_from_slice(&[0, 0, 1, 0, 0]);
    reply
}

// The bytes that a command writes.
fn data_in(command: &[u8]) -> Held {
    let (_, rest) = command.split_at_checked(33)?;
    let (bytes, _) = rest.split_at_checked(DATA)?;
    let mut all = [0; DATA];
    all.copy_from_slice(bytes);
    Some(all)
}

impl TpmCalls for MemTpm<'_> {
    ghost asks = { λ _ _ _ _. Unit {0} };

    fn send(&mut self, command: &[u8], reply: &mut [u8]) -> io::Result<usize> {
        let number = self.calls;
        self.calls = number.saturating_add(1);
        if self.failing == Failing::Before(number) {
            return Err(ErrorKind::Other.into());
        }
        let count = self.answer(command, reply);
        if self.failing == Failing::After(number) {
            return Err(ErrorKind::Other.into());
        }
        Ok(count)
    }
}

fn open(
    held: &Cell<Held>,
    failing: Failing,
    index: Index,
) -> Result<TpmCell<MemTpm<'_>>, CellRefusal> {
    TpmCell::open(MemTpm::holding(held, failing), index)
}

// What the cell holds where its index holds this: the first byte of a root record, or `None`.
fn loaded(held: Held) -> Option<Option<u8>> {
    let index = Index::new(HANDLE)?;
    let held = Cell::new(held);
    match open(&held, Failing::Nothing, index) {
        Ok(mut cell) => first_byte(&mut cell),
        Err(_) => None,
    }
}

fn first_byte(cell: &mut TpmCell<MemTpm<'_>>) -> Option<Option<u8>> {
    let mut bytes = [0; DATA];
    match cell.load(&mut bytes) {
        Ok(true) => Some(Some(bytes[0])),
        Ok(false) => Some(None),
        Err(_) => None,
    }
}

// Whether an index that isn't there is refused by its number.
fn is_told_absent() -> bool {
    let held = Cell::new(None);
    let mut absent = MemTpm::holding(&held, Failing::Nothing);
    absent.is_there = false;
    match Index::new(HANDLE) {
        Some(index) => matches!(
            TpmCell::open(absent, index),
            Err(CellRefusal::Absent(HANDLE))
        ),
        None => false,
    }
}

#[test]
fn what_a_cell_holds(rt: HostRuntime) {
    assert!(rt; loaded(None) == Some(None));
    assert!(rt; loaded(Some([0; DATA])) == Some(None));
    assert!(rt; loaded(Some([5; DATA])) == Some(Some(5)));
    assert!(rt; is_told_absent());
}

// Whether a cell is opened over an index that was never written.
fn is_opened(failing: Failing) -> bool {
    let held = Cell::new(None);
    match Index::new(HANDLE) {
        Some(index) => matches!(open(&held, failing, index), Ok(_)),
        None => false,
    }
}

#[test]
fn each_failed_call_refuses_a_cell(rt: HostRuntime) {
    // An opening makes two calls.
    assert!(rt; is_opened(Failing::Nothing) && is_opened(Failing::Before(2)));
    for call in 0..2 {
        assert!(rt; !is_opened(Failing::Before(call)), "{call}");
        assert!(rt; !is_opened(Failing::After(call)), "{call}");
    }
}

// Whether a replacement of 5 by 7 is done, and what the index holds then.
fn replaced(failing: Failing) -> Option<(bool, Held)> {
    let index = Index::new(HANDLE)?;
    let held = Cell::new(Some([5; DATA]));
    match open(&held, failing, index) {
        Ok(mut cell) => Some((cell.replace(&[7; DATA]).is_ok(), held.get())),
        Err(_) => None,
    }
}

// The same of a cell that is cleared.
fn cleared(failing: Failing) -> Option<(bool, Held)> {
    let index = Index::new(HANDLE)?;
    let held = Cell::new(Some([5; DATA]));
    match open(&held, failing, index) {
        Ok(mut cell) => Some((cell.clear().is_ok(), held.get())),
        Err(_) => None,
    }
}

// A change that was done or not, behind which the index holds bytes like this one.
fn change(is_done: bool, left: u8) -> Option<(bool, Held)> {
    Some((is_done, Some([left; DATA])))
}

// A change makes the two calls behind those of the opening: it writes, and reads back.
#[test]
fn each_failed_call_of_a_replacement_is_answered(rt: HostRuntime) {
    assert!(rt; replaced(Failing::Nothing) == change(true, 7));
    assert!(rt; replaced(Failing::Before(2)) == change(false, 5));
    assert!(rt; replaced(Failing::After(2)) == change(false, 7));
    assert!(rt; replaced(Failing::Before(3)) == change(false, 7));
}

#[test]
fn each_failed_call_of_a_clearance_is_answered(rt: HostRuntime) {
    assert!(rt; cleared(Failing::Nothing) == change(true, 0));
    assert!(rt; cleared(Failing::Before(2)) == change(false, 5));
    assert!(rt; cleared(Failing::After(2)) == change(false, 0));
    assert!(rt; cleared(Failing::Before(3)) == change(false, 0));
}

// Whether this is what a fault is called.
fn is_called(alloc: Global, fault: TpmFault, text: &str) -> bool {
    match fault.to_string(alloc) {
        Ok(told) => told.as_str() == text,
        Err(_) => false,
    }
}

#[test]
fn faults_are_told(rt: HostRuntime) {
    let code = TpmFault::Reply(Failure::Code(0x922));
    assert!(rt; is_called(rt.alloc(), code, "reply 0x922"));
    let failed = TpmFault::Reply(Failure::Code(0x101));
    assert!(rt;
        is_called(
            rt.alloc(),
            failed,
            "reply 0x101, the TPM is in failure mode"
        )
    );
    let malformed = TpmFault::Reply(Failure::Malformed);
    assert!(rt; is_called(rt.alloc(), malformed, "no reply of a TPM"));
}

//! Why a run ends before a device was moved, and what a run says last.
ghost use Rattle.std.specs.Prelude.{◌≡◌, ◌≤◌};
ghost use Rattle.line_run.specs.Puts.{damage_line};
ghost use Rattle.line_run.specs.Stops.{IsSound};
ghost use Rattle.transfer.specs.Halts.{HasLastLine, IsTold, PutsMoved, TellsLine, TellsMoved, last_line_of, moved_line, status_at};

use arrayvec::ArrayVec;
use line_run::{Stop, last_line, push_text, put_line};
use sdbt_base::Sink;
use session_calls::DeviceStop;

/// Why a run ends.
#[derive(Clone, Copy, Debug, PartialEq, Eq)]
pub enum Halt {
    /// There is no device to be moved.
    NoDevice,
    /// There is another device where it is to be moved to.
    NotEmpty,
    /// Too few pages are free there.
    Full,
    /// The output failed.
    Output,
    /// The device that is moved stopped it, or its platform.
    From(DeviceStop),
    /// The device that is made stopped it, its platform, the tape or the ledger.
    To(DeviceStop),
}

impl Halt {
    /// The exit status.
    pub fn status(self) -> u8
        ensures { result ≡ status_at self }
    {
        match self {
            Halt::NoDevice | Halt::NotEmpty | Halt::Full => 10,
            Halt::Output => 4,
            Halt::From(stop) => Stop::Device(stop).status(),
            Halt::To(DeviceStop::Platform) => 13,
            Halt::To(stop) => Stop::Device(stop).status(),
        }
    }
}

/// What was moved.
#[derive(Clone, Copy, Debug, PartialEq, Eq)]
pub(crate) struct Moved {
    /// How many blocks are mapped.
    pub blocks: u64,
    /// The commit number of the device that they are on now.
    pub number: u64,
}

/// Puts the line that says what was moved.
pub(crate) fn put_moved<O: Sink>(moved: &Moved, output: &mut O) -> Result<(), Halt>
    ensures put { PutsMoved (moved_line moved.now) result (O.written output.old) (O.written output.new) }
    ensures blame { TellsMoved result (O.faults output.old) (O.faults output.new) }
    ensures count { O.faults output.old ≤ O.faults output.new }
{
    let line = moved_text(moved);
    match put_line(line.as_slice(), output) {
        Ok(()) => Ok(()),
        Err(_) => Err(Halt::Output),
    }
}

/// The line that says what was moved. The longest one has 68 bytes.
#[tactic(auto, unfolding(crate::specs::Halts::moved_line))]
fn moved_text(moved: &Moved) -> ArrayVec<u8, 80>
    ensures { result.items ≡ moved_line moved.now }
{
    let mut line = ArrayVec::new();
    push_text(&mut line, b"transferred blocks ");
    push_text(
        &mut line,
        itoa::Buffer::new().format(moved.blocks).as_bytes(),
    );
    push_text(&mut line, b" commit ");
    push_text(
        &mut line,
        itoa::Buffer::new().format(moved.number).as_bytes(),
    );
    push_text(&mut line, b"\n");
    line
}

/// Puts the last line of a run that halted, if it has one. The answer is why the run ends: where that line could not be put, by the
/// output.
#[tactic(auto, unfolding(crate::specs::Halts::last_line_of))]
pub(crate) fn put_last_line<O: Sink>(halt: Halt, output: &mut O) -> Halt
    ensures told { IsTold halt result (O.written output.old) (O.written output.new) }
    ensures blame { TellsLine halt result (O.faults output.old) (O.faults output.new) }
    ensures count { O.faults output.old ≤ O.faults output.new }
{
    match halt {
        Halt::NoDevice => refuse(halt, b"refused no device\n", output),
        Halt::NotEmpty => refuse(halt, b"refused not empty\n", output),
        Halt::Full => refuse(halt, b"refused full\n", output),
        Halt::From(stop) => tell_damage(halt, stop, output),
        Halt::To(stop) => tell_damage(halt, stop, output),
        Halt::Output => halt,
    }
}

/// Puts the line that says why nothing is moved.
fn refuse<O: Sink>(halt: Halt, line: &[u8], output: &mut O) -> Halt
    requires has { HasLastLine halt }
    requires line { line.now ≡ last_line_of halt }
    ensures told { IsTold halt result (O.written output.old) (O.written output.new) }
    ensures blame { TellsLine halt result (O.faults output.old) (O.faults output.new) }
    ensures count { O.faults output.old ≤ O.faults output.new }
{
    match put_line(line, output) {
        Ok(()) => halt,
        Err(_) => Halt::Output,
    }
}

/// Puts the line of a record or a root record that doesn't fit, where a device stopped at one.
fn tell_damage<O: Sink>(halt: Halt, stop: DeviceStop, output: &mut O) -> Halt
    requires has { (IsSound stop → ⊥) → HasLastLine halt }
    requires line { last_line_of halt ≡ damage_line stop }
    ensures told { IsTold halt result (O.written output.old) (O.written output.new) }
    ensures blame { TellsLine halt result (O.faults output.old) (O.faults output.new) }
    ensures count { O.faults output.old ≤ O.faults output.new }
{
    match last_line(stop, output) {
        Stop::Sink => Halt::Output,
        _ => halt,
    }
}

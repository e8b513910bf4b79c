//! Why a run ends before its input does, and what it says last.
ghost use Rattle.std.specs.Prelude.{◌≡◌, ◌≤◌};
ghost use Rattle.volumes.specs.Halts.{HasLastLine, IsTold, TellsLine, last_line_of, status_at};

use line_run::{Stop, last_line, put_line};
use sdbt_base::Sink;

/// Why a run ends.
#[derive(Clone, Copy, Debug, PartialEq, Eq)]
pub enum Halt {
    /// There is no device.
    NoDevice,
    /// Block 0 of the device has no table of volumes.
    BadDirectory,
    /// The input, the output or the device stopped it, or the limit of input.
    Stopped(Stop),
}

impl Halt {
    /// The exit status.
    pub fn status(self) -> u8
        ensures { result ≡ status_at self }
    {
        match self {
            Halt::NoDevice | Halt::BadDirectory => 10,
            Halt::Stopped(stop) => stop.status(),
        }
    }
}

/// Puts the last line of a run, if it has one. The answer is why the run ends: where that line could not be put, by the output.
#[tactic(auto, unfolding(crate::specs::Halts::last_line_of))]
pub(crate) fn put_last_line<O: Sink>(halt: Halt, output: &mut O) -> Halt
    ensures told { IsTold halt result (O.written output.old) (O.written output.new) }
    ensures blame { TellsLine halt result (O.faults output.old) (O.faults output.new) }
    ensures count { O.faults output.old ≤ O.faults output.new }
{
    match halt {
        Halt::NoDevice => refuse(halt, b"refused no device\n", output),
        Halt::BadDirectory => refuse(halt, b"refused bad directory\n", output),
        Halt::Stopped(Stop::Device(stop)) => Halt::Stopped(last_line(stop, output)),
        Halt::Stopped(_) => halt,
    }
}

/// Puts the line that says why a device is not served.
fn refuse<O: Sink>(halt: Halt, line: &[u8], output: &mut O) -> Halt
    requires has { HasLastLine halt }
    requires line { line.now ≡ last_line_of halt }
    ensures told { IsTold halt result (O.written output.old) (O.written output.new) }
    ensures blame { TellsLine halt result (O.faults output.old) (O.faults output.new) }
    ensures count { O.faults output.old ≤ O.faults output.new }
{
    match put_line(line, output) {
        Ok(()) => halt,
        Err(stop) => Halt::Stopped(stop),
    }
}

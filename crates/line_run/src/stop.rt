//! Why a run stops before the end of its input.

use session_calls::DeviceStop;

/// Why a run stops before its input ends.
#[derive(Clone, Copy, Debug, PartialEq, Eq)]
pub enum Stop {
    /// The input failed.
    Source,
    /// The output failed.
    Sink,
    /// The limit of input was reached before its end was seen.
    Limit,
    /// The device could not serve a line.
    Device(DeviceStop),
}

impl Stop {
    ghost use Rattle.std.specs.Prelude.{◌≡◌};
    ghost use Rattle.line_run.specs.Stops.{status_of};

    /// The exit status.
    pub fn status(self) -> u8
        ensures { result ≡ status_of self }
    {
        match self {
            Stop::Source => 3,
            Stop::Sink => 4,
            Stop::Device(DeviceStop::Platform) => 5,
            Stop::Device(DeviceStop::Tape) => 6,
            Stop::Device(DeviceStop::Ledger) => 7,
            Stop::Device(DeviceStop::BadRoot) => 8,
            Stop::Device(DeviceStop::BadRecord { .. }) => 9,
            Stop::Device(DeviceStop::Memory) => 11,
            Stop::Limit => 12,
        }
    }
}

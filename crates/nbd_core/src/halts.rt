//! Why a run ends that did not do all that its client asked for.
ghost use Rattle.std.specs.Prelude.{◌≡◌, ◌≢◌, IfErr, IfOk};
ghost use Rattle.session_calls.specs.Blame.{IsOfCall};
ghost use Rattle.nbd_core.specs.Halts.{status_at, outcome_after, commit_halt, OfCommit};

use crate::stop::Stop;
use nbd_lang::Outcome;
use session_calls::DeviceStop;

/// Why a run ends.
#[derive(Clone, Copy, Debug, PartialEq, Eq)]
pub enum Halt {
    /// The talk with the client ended.
    Client(Stop),
    /// The medium or the root cell failed.
    Platform,
    /// The tape gave no key.
    Tape,
    /// The ledger failed.
    Ledger,
    /// The cell is full, and not with a root record that is served.
    BadRoot,
    /// There is no device.
    NoDevice,
    /// Too few pages are free for the commit of a disconnect.
    Unfinished,
    /// No memory was given.
    Memory,
}

impl Halt {
    /// The exit status.
    pub fn status(self) -> u8
        ensures { result ≡ status_at self }
    {
        match self {
            Halt::Client(stop) => stop.status(),
            Halt::Platform => 5,
            Halt::Tape => 6,
            Halt::Ledger => 7,
            Halt::BadRoot => 8,
            Halt::NoDevice | Halt::Unfinished => 10,
            Halt::Memory => 11,
        }
    }
}

/// What a request comes to of which a call for a block stopped: a reply, or the run is over.
pub(crate) fn after_stop(stop: DeviceStop) -> Result<Outcome, Halt>
    requires { IsOfCall stop }
    ensures { result ≡ outcome_after stop }
{
    match stop {
        DeviceStop::Memory => Ok(Outcome::NoMemory),
        DeviceStop::BadRecord { .. } => Ok(Outcome::Damaged),
        DeviceStop::Platform => Err(Halt::Platform),
        DeviceStop::Tape => Err(Halt::Tape),
        DeviceStop::Ledger | DeviceStop::BadRoot => unreachable!(),
    }
}

/// Why a run is over of which a commit stopped.
pub(crate) fn after_commit(stop: DeviceStop) -> Halt
    requires { OfCommit stop }
    ensures { result ≡ commit_halt stop }
{
    match stop {
        DeviceStop::Platform => Halt::Platform,
        DeviceStop::Tape => Halt::Tape,
        DeviceStop::Ledger => Halt::Ledger,
        DeviceStop::Memory => Halt::Memory,
        DeviceStop::BadRoot | DeviceStop::BadRecord { .. } => unreachable!(),
    }
}

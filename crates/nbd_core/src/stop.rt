//! Why a run ends before its client ends it.
ghost use Rattle.std.specs.Prelude.{◌≡◌};
ghost use Rattle.nbd_core.specs.Stops.{status_of};

/// Why a run ends.
#[derive(Clone, Copy, Debug, PartialEq, Eq)]
pub enum Stop {
    /// The input failed.
    Source,
    /// The output failed.
    Sink,
    /// As many bytes as may be were taken, and the input's end was not seen.
    Limit,
    /// The client sent what is none of its words, or its input ended inside of one.
    Broken,
}

impl Stop {
    /// The exit status.
    pub fn status(self) -> u8
        ensures { result ≡ status_of self }
    {
        match self {
            Stop::Source => 3,
            Stop::Sink => 4,
            Stop::Limit => 12,
            Stop::Broken => 14,
        }
    }
}

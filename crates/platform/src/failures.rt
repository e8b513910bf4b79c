//! Failures that a platform in memory is told to have.
ghost use Rattle.std.specs.Prelude.{◌≡◌, ◌<◌, [], IfOk, slice_index};
ghost use Rattle.sdbt_base.specs.Faults.{next_count};
ghost use Rattle.platform.specs.Failures.{place_of, listed, counted, no_calls};

use sdbt_base::Memory;
use std::alloc::Global;

/// The calls of a platform that can fail.
#[derive(Clone, Copy, Debug, PartialEq, Eq)]
pub enum CallKind {
    Append,
    Read,
    Sync,
    Load,
    Swap,
    Clear,
}

impl CallKind {
    // Its place among them.
    fn place(self) -> usize
        ensures place { result ≡ place_of self }
        ensures within { result < 6 }
    {
        match self {
            CallKind::Append => 0,
            CallKind::Read => 1,
            CallKind::Sync => 2,
            CallKind::Load => 3,
            CallKind::Swap => 4,
            CallKind::Clear => 5,
        }
    }
}

/// The `nth` call of a kind, counted from 1, fails: with its effect done, or not.
#[derive(Clone, Copy, Debug, PartialEq, Eq)]
pub struct Failure {
    pub call: CallKind,
    pub nth: u64,
    pub effect: bool,
}

/// The failures that were asked for, and how many calls of each kind were made since.
#[derive(Drop)]
pub struct Plan {
    failures: Vec<Failure>,
    made: [u64; 6],
}

impl Plan {
    /// No failures.
    pub fn new(alloc: Global) -> Self
        ensures none { result.failures.items ≡ [] }
        ensures made { result.made ≡ no_calls }
    {
        Plan {
            failures: Vec::new(alloc),
            made: [0, 0, 0, 0, 0, 0],
        }
    }

    /// These failures, counted from now.
    pub fn of(alloc: Global, list: &[Failure]) -> Result<Self, Memory>
        ensures listed { IfOk result (λ plan. plan.failures.items ≡ list.now) }
        ensures made { IfOk result (λ plan. plan.made ≡ no_calls) }
    {
        let failures = Vec::from_slice(alloc, list)?;
        Ok(Plan {
            failures,
            made: [0, 0, 0, 0, 0, 0],
        })
    }

    /// Counts a call. Whether it fails, and whether it has its effect then.
    pub fn next(&mut self, call: CallKind) -> Option<bool>
        ensures due { result ≡ listed self.old.failures.items call
            (next_count (slice_index self.old.made (place_of call))) }
        ensures made { self.new.made ≡ counted self.old.made call }
        ensures failures { self.new.failures ≡ self.old.failures }
    {
        let place = call.place();
        let nth = self.made[place].saturating_add(1);
        self.made[place] = nth;
        self.failures
            .iter()
            .find(|failure| failure.call.place() == place && failure.nth == nth)
            .map(|failure| failure.effect)
    }
}

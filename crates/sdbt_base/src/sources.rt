//! Where bytes come from.
ghost use Rattle.std.specs.Prelude.{◌≡◌, ℕ, ◌<◌, ◌≤◌, ◌↔◌, Option, List, [], length, take, IfOk, IfSome, OnErr};
ghost use Rattle.sdbt_base.specs.Faults.{Tells};
ghost use Rattle.sdbt_base.specs.Told.{Gave, ends_with, ends_after};

use crate::SourceFault;

/// Gives bytes, in pieces of its own size.
pub trait Source {
    /// The bytes that are still to come, where it tells them. Whether it does is fixed when it is made.
    ghost left: { Self → Option (List ℕ) };

    /// How often it has failed.
    ghost faults: { Self → ℕ };

    /// How often it has answered that it is at its end.
    ghost ends: { Self → ℕ };

    /// Moves the next bytes to the front of `into`, and answers how many. 0 is the end.
    /// A fault takes nothing; `into` may then hold anything.
    fn take(&mut self, into: &mut [u8]) -> Result<usize, SourceFault>
        requires { 0 < length into.old }
        ensures bound { IfOk result (λ count. count ≤ length into.old) }
        ensures taken { IfOk result (λ count. Gave (left self.old) (take count into.new) (left self.new)) }
        ensures end { IfOk result (λ count. IfSome (left self.old) (λ rest. (count ≡ 0) ↔ (rest ≡ []))) }
        ensures nothing_taken { OnErr result (left self.new ≡ left self.old) }
        ensures ended { ends self.new ≡ ends_after result (ends self.old) }
        ensures count { faults self.old ≤ faults self.new }
        ensures cause { Tells result (faults self.old) (faults self.new) };
}

/// How often a source has answered that it is at its end, behind a take that gave so many bytes.
pub fn ends_behind(count: usize, ends: u64) -> u64
    ensures { result ≡ ends_with count ends }
{
    if count == 0 {
        ends.saturating_add(1)
    } else {
        ends
    }
}

//! Where keys come from.
ghost use Rattle.std.specs.Prelude.{◌≡◌, ℕ, ◌≤◌, Option, List, [], OnErr, OnOk};
ghost use Rattle.sdbt_base.specs.Faults.{Tells};
ghost use Rattle.sdbt_base.specs.Keys.{Fills};
ghost use Rattle.sdbt_base.specs.Told.{Drew};

use crate::{KeySlot, TapeFault};

/// Draws keys. That drawn keys are distinct is a premise of those who ask for it, and no claim of a tape.
pub trait Tape {
    /// The keys drawn so far, where it tells them. Whether it does is fixed when it is made.
    ghost drawn: { Self → Option (List (List ℕ)) };

    /// How often it has failed.
    ghost faults: { Self → ℕ };

    /// Draws the next key, into a place that holds none. A fault draws none, and leaves nothing there.
    fn draw(&mut self, key: &mut KeySlot) -> Result<(), TapeFault>
        requires { key.old ≡ [] }
        ensures drawn { OnOk result (Drew (drawn self.old) key.new (drawn self.new)) }
        ensures slot { Fills result key.new }
        ensures undrawn { OnErr result (drawn self.new ≡ drawn self.old) }
        ensures count { faults self.old ≤ faults self.new }
        ensures cause { Tells result (faults self.old) (faults self.new) };
}

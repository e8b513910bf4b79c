//! Where bytes go.
ghost use Rattle.std.specs.Prelude.{ℕ, ◌≤◌, Option, List, OnOk, OnErr};
ghost use Rattle.sdbt_base.specs.Faults.{Tells};
ghost use Rattle.sdbt_base.specs.Told.{Got, GotPart};

use crate::SinkFault;

/// Takes bytes, all of those of one call or a first part of them.
pub trait Sink {
    /// The bytes that were written, where it tells them. Whether it does is fixed when it is made.
    ghost written: { Self → Option (List ℕ) };

    /// How often it has failed.
    ghost faults: { Self → ℕ };

    /// Writes all of the bytes. At a fault a first part of them was written, perhaps none or all.
    fn put(&mut self, bytes: &[u8]) -> Result<(), SinkFault>
        ensures put { OnOk result (Got (written self.old) bytes.now (written self.new)) }
        ensures part { OnErr result (GotPart (written self.old) bytes.now (written self.new)) }
        ensures count { faults self.old ≤ faults self.new }
        ensures cause { Tells result (faults self.old) (faults self.new) };
}

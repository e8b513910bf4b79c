//! Indices of NV memory.
ghost use Rattle.std.specs.Prelude.{◌≡◌, ◌≤◌, ℕ, IfSome, IfNone};

use std::marker::Model;

/// An index of NV memory, as its handle: 0x1000000 to 0x1ffffff (part 2, TPM_HT_NV_INDEX).
#[derive(Clone, Copy, PartialEq, Eq)]
pub struct Index {
    handle: u32,
}

impl Model for Index {
    ghost Value = { ℕ };

    ghost view = { λ i. i.handle };

    ghost invariant = { λ i. (0x1000000 ≤ i.handle) × (i.handle ≤ 0x1ffffff) };

    ghost inverse = { λ n. record { handle = n } };
}

impl Index {
    /// The index of this handle, or `None` where that is none of NV memory.
    pub fn new(handle: u32) -> Option<Index>
        ensures found { IfSome result (λ index. (index ≡ handle) × (0x1000000 ≤ handle) × (handle ≤ 0x1ffffff)) }
        ensures none { IfNone result (0x1000000 ≤ handle → handle ≤ 0x1ffffff → ⊥) }
    {
        if (0x100_0000..=0x1ff_ffff).contains(&handle) {
            Some(Index { handle })
        } else {
            None
        }
    }

    /// Its handle.
    pub fn handle(&self) -> u32
        ensures value { result ≡ self.now }
        ensures least { 0x1000000 ≤ result }
        ensures most { result ≤ 0x1ffffff }
    {
        self.handle
    }
}

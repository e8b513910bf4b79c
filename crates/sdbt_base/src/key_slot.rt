//! Room for a key that has sealed nothing yet.
ghost use Rattle.std.specs.Prelude.{◌≡◌, [], IfOk, length};
ghost use Rattle.std.specs.Borrow.{Array, Lends, sem, u8 as byte};
ghost use Rattle.sdbt_base.specs.contracts.key_slot.KeySlot.{the_row};

use crate::{Key, Memory};
use std::alloc::Global;
use std::marker::Model;

/// A place for one fresh key: a key that has sealed nothing yet. A tape writes it here, and here it lies until it is spent, once.
///
/// Its 32 bytes are on the heap, where nobody moves them, and are zeros while it holds no key. It can't be copied, and can't be let
/// go while it holds a key.
pub struct KeySlot {
    bytes: Box<[u8; 32]>,
    is_full: bool,
}

impl Model for KeySlot {
    ghost use Rattle.std.specs.Prelude.{◌≡◌, ℕ, List, [], cond, false, replicate};

    ghost Value = { List ℕ };

    ghost view = { λ k. cond k.is_full k.bytes.value [] };

    // Of a key that it held nothing is left.
    ghost invariant = { λ k. k.is_full ≡ false → k.bytes.value ≡ replicate 32 0 };
}

impl KeySlot {
    /// A place that holds no key.
    pub fn new(alloc: Global) -> Result<KeySlot, Memory>
        ensures { IfOk result (λ slot. slot ≡ []) }
    {
        let bytes = Box::new(alloc, [0; 32])?;
        Ok(KeySlot {
            bytes,
            is_full: false,
        })
    }

    /// Holds a key of these bytes from now on. This and `room` are for tapes, which draw each key once.
    pub fn put(&mut self, bytes: [u8; 32])
        requires { self.old ≡ [] }
        ensures same { self.new ≡ bytes }
        ensures plain { length self.new ≡ 32 }
    {
        *self.bytes = bytes;
        self.is_full = true;
    }

    /// Lends its bytes, for a key to be written there: from now on it holds what they are.
    pub fn room(&mut self) -> &mut [u8; 32]
        requires { self.old ≡ [] }
        ensures* { sem 𝓛 (Lends the_row (Array byte 32) self.entry result (λ written. written)) }
    {
        self.is_full = true;
        &mut self.bytes
    }

    /// The key, which from now on may have sealed a record. Nothing of it is left here.
    pub fn spend(&mut self) -> Key
        requires { length self.old ≡ 32 }
        ensures same { result ≡ self.old }
        ensures plain { length result ≡ 32 }
        ensures wiped { self.new ≡ [] }
    {
        let key = Key::from_bytes(*self.bytes);
        self.wipe();
        key
    }

    /// Writes zeros over what it holds: this will seal nothing.
    pub fn wipe(&mut self)
        ensures { self.new ≡ [] }
    {
        *self.bytes = [0; 32];
        self.is_full = false;
    }
}

impl Drop for KeySlot {
    fn drop(self)
        requires { self ≡ [] }
    {
        let KeySlot {
            bytes: _,
            is_full: _,
        } = self;
    }
}

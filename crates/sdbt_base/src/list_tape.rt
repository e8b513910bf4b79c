//! A tape of listed keys.
ghost use Rattle.std.specs.Prelude.{◌≡◌, ◌≤◌, ◌↔◌, ◌⊎◌, ◌∷◌, Some, [], length, take, drop, Contains, IfOk, OnErr, OnOk, IsErr, is_err, if◌then◌else◌};
ghost use Rattle.sdbt_base.specs.Faults.{Tells, next_count};
ghost use Rattle.sdbt_base.specs.Keys.{Fills};
ghost use Rattle.sdbt_base.specs.Objects.{TapeState};
ghost use Rattle.sdbt_base.specs.Told.{Drew};

use crate::{KeySlot, Memory, Tape, TapeFault};
use std::alloc::Global;
use std::marker::Model;

/// Draws listed keys in their order, and fails at the draws that it was told to fail at.
#[derive(Drop)]
pub struct ListTape {
    keys: Vec<[u8; 32]>,
    next: usize,
    fail: Vec<u64>,
    draws: u64,
    faults: u64,
}

impl Model for ListTape {
    ghost Value = { TapeState };

    ghost view = { λ t. record {
      drawn = take t.next t.keys.items;
      left = drop t.next t.keys.items;
      fail = t.fail.items;
      draws = t.draws;
      faults = t.faults;
    } };

    ghost invariant = { λ t. t.next ≤ length t.keys.items };
}

impl ListTape {
    /// A tape of these keys that fails at the draws whose numbers, from 1, are in `fail`, and when no key is left.
    pub fn new(alloc: Global, keys: &[[u8; 32]], fail: &[u64]) -> Result<ListTape, Memory>
        ensures { IfOk result (λ tape. tape ≡ record {
          drawn = [];
          left = keys.now;
          fail = fail.now;
          draws = 0;
          faults = 0;
        }) }
    {
        let keys = Vec::from_slice(alloc, keys)?;
        let fail = Vec::from_slice(alloc, fail)?;
        Ok(ListTape {
            keys,
            next: 0,
            fail,
            draws: 0,
            faults: 0,
        })
    }
}

impl Tape for ListTape {
    ghost drawn = { λ t. Some t.drawn };

    ghost faults = { λ t. t.faults };

    fn draw(&mut self, key: &mut KeySlot) -> Result<(), TapeFault>
        requires { key.old ≡ [] }
        ensures drawn { OnOk result (Drew (Some self.old.drawn) key.new (Some self.new.drawn)) }
        ensures slot { Fills result key.new }
        ensures undrawn { OnErr result (Some self.new.drawn ≡ Some self.old.drawn) }
        ensures count { self.old.faults ≤ self.new.faults }
        ensures cause { Tells result self.old.faults self.new.faults }

        // It fails exactly where its number is listed or no key is left.
        ensures fails { IsErr result ↔ (Contains self.old.fail (next_count self.old.draws) ⊎ (self.old.left ≡ [])) }
        ensures first { OnOk result (self.old.left ≡ key.new ∷ self.new.left) }
        ensures left { OnErr result (self.new.left ≡ self.old.left) }
        ensures state { self.new ≡ record {
          drawn = self.new.drawn;
          left = self.new.left;
          fail = self.old.fail;
          draws = next_count self.old.draws;
          faults = (if is_err result then next_count self.old.faults else self.old.faults);
        } }
    {
        self.draws = self.draws.saturating_add(1);
        if self.fail.contains(&self.draws) || self.next == self.keys.len() {
            self.faults = self.faults.saturating_add(1);
            return Err(TapeFault);
        }
        key.put(self.keys[self.next]);
        self.next += 1;
        Ok(())
    }
}

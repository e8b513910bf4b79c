//! A source in memory.
ghost use Rattle.std.specs.Prelude.{◌≡◌, ◌<◌, ◌≤◌, ◌↔◌, Some, [], length, take, drop, min, Contains, IfOk, IfSome, OnErr, IsErr, is_err, if◌then◌else◌};
ghost use Rattle.sdbt_base.specs.Faults.{Tells, next_count};
ghost use Rattle.sdbt_base.specs.Objects.{SourceState};
ghost use Rattle.sdbt_base.specs.Told.{Gave, ends_after};

use crate::{Memory, Source, SourceFault, copy_front, ends_behind};
use std::alloc::Global;
use std::marker::Model;

/// Gives the bytes that it was made with, and fails at the takes that it was told to fail at.
#[derive(Drop)]
pub struct MemSource {
    bytes: Vec<u8>,
    at: usize,
    step: usize,
    fail: Vec<u64>,
    takes: u64,
    faults: u64,
    ends: u64,
}

impl Model for MemSource {
    ghost Value = { SourceState };

    ghost view = { λ s. record {
      left = drop s.at s.bytes.items;
      step = s.step;
      fail = s.fail.items;
      takes = s.takes;
      faults = s.faults;
      ends = s.ends;
    } };

    ghost invariant = { λ s. (s.at ≤ length s.bytes.items) × (0 < s.step) };
}

impl MemSource {
    /// A source of these bytes that gives at most `step` of them per take, and fails at the takes whose
    /// numbers, from 1, are in `fail`.
    pub fn new(alloc: Global, bytes: &[u8], step: usize, fail: &[u64]) -> Result<MemSource, Memory>
        requires { 0 < step }
        ensures { IfOk result (λ source. source ≡ record {
          left = bytes.now;
          step = step;
          fail = fail.now;
          takes = 0;
          faults = 0;
          ends = 0;
        }) }
    {
        let bytes = Vec::from_slice(alloc, bytes)?;
        let fail = Vec::from_slice(alloc, fail)?;
        Ok(MemSource {
            bytes,
            at: 0,
            step,
            fail,
            takes: 0,
            faults: 0,
            ends: 0,
        })
    }
}

impl Source for MemSource {
    ghost left = { λ s. Some s.left };

    ghost faults = { λ s. s.faults };

    ghost ends = { λ s. s.ends };

    #[tactic(auto, using(crate::proofs::ToldLaws::ends))]
    fn take(&mut self, into: &mut [u8]) -> Result<usize, SourceFault>
        requires { 0 < length into.old }
        ensures bound { IfOk result (λ count. count ≤ length into.old) }
        ensures taken { IfOk result (λ count. Gave (Some self.old.left) (take count into.new) (Some self.new.left)) }
        ensures end { IfOk result (λ count. IfSome (Some self.old.left) (λ rest. (count ≡ 0) ↔ (rest ≡ []))) }
        ensures nothing_taken { OnErr result (Some self.new.left ≡ Some self.old.left) }
        ensures ended { self.new.ends ≡ ends_after result self.old.ends }
        ensures count { self.old.faults ≤ self.new.faults }
        ensures cause { Tells result self.old.faults self.new.faults }

        // It fails exactly where its number is listed.
        ensures fails { IsErr result ↔ Contains self.old.fail (next_count self.old.takes) }
        ensures amount { IfOk result (λ count. count ≡ min (length self.old.left) (min self.old.step (length into.old))) }
        ensures state { self.new ≡ record {
          left = self.new.left;
          step = self.old.step;
          fail = self.old.fail;
          takes = next_count self.old.takes;
          faults = (if is_err result then next_count self.old.faults else self.old.faults);
          ends = ends_after result self.old.ends;
        } }
    {
        self.takes = self.takes.saturating_add(1);
        if self.fail.contains(&self.takes) {
            self.faults = self.faults.saturating_add(1);
            return Err(SourceFault);
        }
        let (_, rest) = self.bytes.split_at(self.at);
        let count = copy_front(&rest[..rest.len().min(self.step)], into);
        self.at += count;
        self.ends = ends_behind(count, self.ends);
        Ok(count)
    }
}

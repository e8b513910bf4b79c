//! A sink in memory.
ghost use Rattle.std.specs.Prelude.{◌≡◌, ◌<◌, ◌≤◌, ◌↔◌, ◌⊎◌, ◌++◌, Some, [], take, IfOk, IfSome, OnOk, OnErr, IsErr, IsSome, is_err, if◌then◌else◌};
ghost use Rattle.sdbt_base.specs.Faults.{Rose, Tells, next_count};
ghost use Rattle.sdbt_base.specs.Objects.{SinkState, fails_after};
ghost use Rattle.sdbt_base.specs.Told.{Got, GotPart};

use crate::{Memory, Sink, SinkFault};
use std::alloc::Global;
use std::marker::Model;

/// Keeps what was written, and fails at the puts that it was told to fail at.
#[derive(Drop)]
pub struct MemSink {
    bytes: Vec<u8>,
    fail: Vec<(u64, usize)>,
    puts: u64,
    faults: u64,
    starved: u64,
}

impl Model for MemSink {
    ghost Value = { SinkState };

    ghost view = { λ s. record {
      written = s.bytes.items;
      fail = s.fail.items;
      puts = s.puts;
      faults = s.faults;
      starved = s.starved;
    } };
}

impl MemSink {
    /// An empty sink. It fails at each put whose number, from 1, is listed, after the number of bytes that
    /// stands beside it, or after all of them where that is more.
    pub fn new(alloc: Global, fail: &[(u64, usize)]) -> Result<MemSink, Memory>
        ensures { IfOk result (λ sink. sink ≡ record {
          written = [];
          fail = fail.now;
          puts = 0;
          faults = 0;
          starved = 0;
        }) }
    {
        let fail = Vec::from_slice(alloc, fail)?;
        Ok(MemSink {
            bytes: Vec::new(alloc),
            fail,
            puts: 0,
            faults: 0,
            starved: 0,
        })
    }

    /// What was written.
    pub fn bytes(&self) -> &[u8]
        ensures { result.now ≡ self.now.written }
    {
        &self.bytes
    }

    /// How many puts failed because the sink was given no memory to grow.
    pub fn starved(&self) -> u64
        ensures { result ≡ self.now.starved }
    {
        self.starved
    }
}

impl Sink for MemSink {
    ghost written = { λ s. Some s.written };

    ghost faults = { λ s. s.faults };

    fn put(&mut self, bytes: &[u8]) -> Result<(), SinkFault>
        ensures put { OnOk result (Got (Some self.old.written) bytes.now (Some self.new.written)) }
        ensures part { OnErr result (GotPart (Some self.old.written) bytes.now (Some self.new.written)) }
        ensures count { self.old.faults ≤ self.new.faults }
        ensures cause { Tells result self.old.faults self.new.faults }

        // It fails exactly where its number is listed or it was given no memory.
        ensures fails { IsErr result ↔ (IsSome (fails_after self.old.fail (next_count self.old.puts)) ⊎ Rose self.old.starved self.new.starved) }
        // A listed put writes as many bytes as stand beside its number.
        ensures listed { ¬ (Rose self.old.starved self.new.starved) → IfSome (fails_after self.old.fail (next_count self.old.puts))
            (λ n. self.new.written ≡ self.old.written ++ take n bytes.now) }
        ensures state { self.new ≡ record {
          written = self.new.written;
          fail = self.old.fail;
          puts = next_count self.old.puts;
          faults = (if is_err result then next_count self.old.faults else self.old.faults);
          starved = self.new.starved;
        } }
        ensures starved { (self.new.starved ≡ self.old.starved) ⊎ (self.new.starved ≡ next_count self.old.starved) }
        // A put that was given no memory writes nothing.
        ensures unwritten { Rose self.old.starved self.new.starved → self.new.written ≡ self.old.written }
    {
        self.puts = self.puts.saturating_add(1);
        let cut = cut_of(&self.fail, self.puts);
        let kept = cut.unwrap_or(bytes.len()).min(bytes.len());
        let starves = self.starved == u64::MAX
            || self.bytes.extend_from_slice(&bytes[..kept]).is_err();
        if starves {
            self.starved = self.starved.saturating_add(1);
        }
        if starves || cut.is_some() {
            self.faults = self.faults.saturating_add(1);
            return Err(SinkFault);
        }
        Ok(())
    }
}

// After how many bytes the put of this number fails, if it is listed.
fn cut_of(fail: &[(u64, usize)], number: u64) -> Option<usize>
    ensures { result ≡ fails_after fail.now number }
{
    fail.iter()
        .find(|listed| listed.0 == number)
        .map(|listed| listed.1)
}

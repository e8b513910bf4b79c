//! A sink over a writer of std.
ghost use Rattle.std.specs.Prelude.{◌≡◌, ◌≤◌, ℕ, None, OnErr, OnOk, length, take};
ghost use Rattle.std.specs.Io.KnownBytes.{Appends};
ghost use Rattle.sdbt_base.specs.Faults.{Tells};

use crate::{Sink, SinkFault, write_whole};
use std::io::Write;

/// Writes bytes to a writer of std, such as standard output or a file. Each error that it hands on is counted.
/// The writer should keep nothing back: nothing is flushed.
#[derive(Drop)]
pub struct WriteSink<W: Write + Drop> {
    inner: W,
    faults: u64,
}

impl<W: Write + Drop> WriteSink<W> {
    /// A sink over a writer of which no contract knows what it holds, as standard output.
    pub fn new(inner: W) -> WriteSink<W>
        ensures written { ⟦<WriteSink<W> as Sink>⟧.written result ≡ None }
        ensures faults { ⟦<WriteSink<W> as Sink>⟧.faults result ≡ 0 }
        ensures inner { result.inner ≡ inner }
    {
        WriteSink { inner, faults: 0 }
    }
}

impl<W: Write + Drop> Sink for WriteSink<W> {
    ghost written = { λ _. None };

    ghost faults = { λ s. s.faults };

    fn put(&mut self, bytes: &[u8]) -> Result<(), SinkFault>
        ensures count { self.old.faults ≤ self.new.faults }
        ensures cause { Tells result self.old.faults self.new.faults }

        // The writer took all of the bytes, or at a fault a front of them.
        ensures whole { OnOk result (Appends (W.contents self.old.inner) (W.contents self.new.inner) bytes.now) }
        ensures front { OnErr result ((n : ℕ) × (n ≤ length bytes.now)
            × Appends (W.contents self.old.inner) (W.contents self.new.inner) (take n bytes.now)) }
    {
        if write_whole(&mut self.inner, bytes).is_ok() {
            return Ok(());
        }
        self.faults = self.faults.saturating_add(1);
        Err(SinkFault)
    }
}

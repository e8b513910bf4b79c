//! A source over a reader of std.
ghost use Rattle.std.specs.Prelude.{◌≡◌, ◌<◌, ◌≤◌, None, length, IfOk};
ghost use Rattle.std.specs.Io.KnownBytes.{ReadConsumes};
ghost use Rattle.sdbt_base.specs.Faults.{Tells};
ghost use Rattle.sdbt_base.specs.Told.{ends_after};

use crate::{Source, SourceFault, ends_behind};
use std::io::{ErrorKind, Read};

/// Reads bytes from a reader of std, such as standard input or a file. Each error that it hands on is counted,
/// and so is each answer that nothing is left.
#[derive(Drop)]
pub struct ReadSource<R: Read + Drop> {
    inner: R,
    faults: u64,
    ends: u64,
}

impl<R: Read + Drop> ReadSource<R> {
    /// A source over a reader whose bytes no contract knows, as standard input.
    pub fn new(inner: R) -> ReadSource<R>
        ensures left { ⟦<ReadSource<R> as Source>⟧.left result ≡ None }
        ensures faults { ⟦<ReadSource<R> as Source>⟧.faults result ≡ 0 }
        ensures ends { ⟦<ReadSource<R> as Source>⟧.ends result ≡ 0 }
        ensures inner { result.inner ≡ inner }
    {
        ReadSource {
            inner,
            faults: 0,
            ends: 0,
        }
    }
}

impl<R: Read + Drop> Source for ReadSource<R> {
    ghost left = { λ _. None };

    ghost faults = { λ s. s.faults };

    ghost ends = { λ s. s.ends };

    fn take(&mut self, into: &mut [u8]) -> Result<usize, SourceFault>
        requires { 0 < length into.old }
        ensures bound { IfOk result (λ count. count ≤ length into.old) }
        ensures ended { self.new.ends ≡ ends_after result self.old.ends }
        ensures count { self.old.faults ≤ self.new.faults }
        ensures cause { Tells result self.old.faults self.new.faults }

        // What it gives comes from the reader, 0 bytes at that one's end alone, and a fault takes none of it.
        ensures read { ReadConsumes (R.remaining self.old.inner) (R.remaining self.new.inner) result into.new }
    {
        for _ in 0..u64::MAX {
            match self.inner.read(into) {
                Ok(count) => {
                    self.ends = ends_behind(count, self.ends);
                    return Ok(count);
                }
                Err(error) if error.kind() == ErrorKind::Interrupted => {}
                Err(_) => break,
            }
        }
        self.faults = self.faults.saturating_add(1);
        Err(SourceFault)
    }
}

//! A tape over the bytes of a source.
ghost use Rattle.std.specs.Prelude.{◌≡◌, ℕ, ◌<◌, ◌≤◌, List, [], length, take, OnOk, OnErr, is_err, if◌then◌else◌};
ghost use Rattle.sdbt_base.specs.Faults.{Tells, next_count};
ghost use Rattle.sdbt_base.specs.Keys.{Fills};
ghost use Rattle.sdbt_base.specs.Told.{Gave, Drew};
ghost use Rattle.key_tape.specs.Parts.{TellsSource, source_of, faults_of, told_by};

use sdbt_base::{KEY, KeySlot, Source, Tape, TapeFault};

/// Draws each key from the next 32 bytes of a source, which writes them where the key is to lie. A take that fails, and an end
/// before the 32nd byte, are faults of the tape, and the bytes taken until then are lost and wiped.
///
/// It keeps no key, so it tells none of those drawn: what a draw gave is told by what the source has left.
#[derive(Drop)]
pub struct SourceTape<S: Source> {
    source: S,
    faults: u64,
}

impl<S: Source> SourceTape<S> {
    /// A tape over the bytes that this source has left.
    pub fn new(source: S) -> SourceTape<S>
        ensures source { source_of result ≡ source }
        ensures faults { faults_of result ≡ 0 }
    {
        SourceTape { source, faults: 0 }
    }
}

impl<S: Source> Tape for SourceTape<S> {
    ghost drawn = { told_by };

    ghost faults = { faults_of };

    fn draw(&mut self, key: &mut KeySlot) -> Result<(), TapeFault>
        requires { key.old ≡ [] }
        ensures drawn { OnOk result (Drew (told_by self.old) key.new (told_by self.new)) }
        ensures slot { Fills result key.new }
        ensures undrawn { OnErr result (told_by self.new ≡ told_by self.old) }
        ensures count { faults_of self.old ≤ faults_of self.new }
        ensures cause { Tells result (faults_of self.old) (faults_of self.new) }

        // A key is the next bytes of the source; a fault loses fewer than a key has.
        ensures key { OnOk result (Gave (S.left (source_of self.old)) key.new (S.left (source_of self.new))) }
        ensures lost { OnErr result ((part : List ℕ) × (length part < KEY)
            × Gave (S.left (source_of self.old)) part (S.left (source_of self.new))) }
        // It fails only where the source failed or had nothing left, and asks it no more then.
        ensures fails { TellsSource S.Source (source_of self.old) (source_of self.new) result }
        ensures source_count { S.faults (source_of self.old) ≤ S.faults (source_of self.new) }
        ensures faults { faults_of self.new
            ≡ (if is_err result then next_count (faults_of self.old) else faults_of self.old) }
    {
        let filled = fill(&mut self.source, key.room());
        if filled.is_err() {
            key.wipe();
            self.faults = self.faults.saturating_add(1);
        }
        filled
    }
}

/// Fills `bytes` from the source, in as many takes as that needs.
///
/// It fails where a take fails or the source ends before; what it took until then is the front of `bytes`.
fn fill<S: Source>(source: &mut S, bytes: &mut [u8]) -> Result<(), TapeFault>
    ensures full { OnOk result (Gave (S.left source.old) bytes.new (S.left source.new)) }
    ensures part { OnErr result ((n : ℕ) × (n < length bytes.old)
        × Gave (S.left source.old) (take n bytes.new) (S.left source.new)) }
    ensures cause { TellsSource S.Source source.old source.new result }
    ensures count { S.faults source.old ≤ S.faults source.new }
{
    let mut filled = 0;
    'takes: while filled < bytes.len() {
        match source.take(&mut bytes[filled..]) {
            Ok(count) if count > 0 => filled += count,
            Ok(_) | Err(_) => return Err(TapeFault),
        }
    }
    Ok(())
}

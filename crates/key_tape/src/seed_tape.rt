//! A tape whose keys follow from a number.
ghost use Rattle.std.specs.Prelude.{◌≡◌, ◌+◌, ◌*◌, ◌^◌, ◌<◌, ◌≤◌, ◌↔◌, Some, [], OnOk, OnErr, IsOk, is_ok, length, if◌then◌else◌};
ghost use Rattle.sdbt_base.specs.Faults.{Rose, next_count};
ghost use Rattle.sdbt_base.specs.Keys.{Fills};
ghost use Rattle.sdbt_base.specs.Told.{Drew};
ghost use Rattle.chacha_words.specs.Words.{words};
ghost use Rattle.key_tape.specs.SeedKeys.{SeedTapeState, seed_bytes, key_at, first_keys};

use chacha_words::fill_words;
use rand_chacha::ChaCha20Rng;
use rand_core::SeedableRng;
use sdbt_base::{KEY, KeySlot, Tape, TapeFault};
use std::marker::Model;

/// The stream of the generator that keys are drawn from. Stream 0 is the one that records are sealed with.
const KEY_STREAM: u64 = 1;

/// The draws of a tape that give a key: 2^60.
const DRAWS: u64 = 1 << 60;

/// Draws the keys of a seed: the words of ChaCha20, stream 1, eight to a key, each least byte first.
///
/// The 32 bytes that key the generator are the seed, most significant byte first, and 24 zeros. The tape
/// fails at none of its first 2^60 draws and at each later one.
#[derive(Drop)]
pub struct SeedTape {
    rng: ChaCha20Rng,
    seed: u64,
    draws: u64,
    failed: u64,
}

impl Model for SeedTape {
    ghost use Rattle.std.specs.Prelude.{◌≡◌, ◌*◌, ◌^◌, ◌≤◌};
    ghost use Rattle.rand_chacha.specs.ChaCha.{key_of};
    ghost use Rattle.key_tape.specs.SeedKeys.{SeedTapeState, seed_bytes};

    ghost Value = { SeedTapeState };

    ghost view = { λ t. record { seed = t.seed; draws = t.draws; failed = t.failed } };

    ghost invariant = { λ t. (t.rng.key ≡ key_of (seed_bytes t.seed)) × (t.rng.stream ≡ 1)
        × (t.rng.word_pos ≡ 8 * t.draws) × (t.draws ≤ 2 ^ 60) };
}

impl SeedTape {
    /// A tape over the keys of this seed, from the first one.
    pub fn new(seed: u64) -> SeedTape
        ensures { result ≡ record { seed = seed; draws = 0; failed = 0 } }
    {
        let mut rng = ChaCha20Rng::from_seed(spread(seed));
        rng.set_stream(KEY_STREAM);
        SeedTape {
            rng,
            seed,
            draws: 0,
            failed: 0,
        }
    }
}

impl Tape for SeedTape {
    ghost drawn = { λ t. Some (first_keys t.seed t.draws) };

    ghost faults = { λ t. t.failed };

    #[tactic(auto, using(crate::proofs::SeedKeyLemmas::seed_keys))]
    fn draw(&mut self, key: &mut KeySlot) -> Result<(), TapeFault>
        requires { key.old ≡ [] }
        ensures drawn { OnOk result (Drew (Some (first_keys self.old.seed self.old.draws)) key.new
            (Some (first_keys self.new.seed self.new.draws))) }
        ensures slot { Fills result key.new }
        ensures undrawn { OnErr result (Some (first_keys self.new.seed self.new.draws)
            ≡ Some (first_keys self.old.seed self.old.draws)) }
        ensures count { self.old.failed ≤ self.new.failed }
        ensures cause { OnErr result (Rose self.old.failed self.new.failed) }

        // It fails exactly where 2^60 keys were drawn.
        ensures succeeds { IsOk result ↔ (self.old.draws < 2 ^ 60) }
        ensures key { OnOk result (key.new ≡ key_at self.old.seed self.old.draws) }
        ensures state { self.new ≡ record {
          seed = self.old.seed;
          draws = (if is_ok result then self.old.draws + 1 else self.old.draws);
          failed = (if is_ok result then self.old.failed else next_count self.old.failed);
        } }
    {
        if self.draws >= DRAWS {
            self.failed = self.failed.saturating_add(1);
            return Err(TapeFault);
        }
        next_key(&mut self.rng, key.room());
        self.draws += 1;
        Ok(())
    }
}

/// Writes the next eight words of a generator, each least byte first.
fn next_key(rng: &mut ChaCha20Rng, bytes: &mut [u8; KEY])
    requires { rng.old.word_pos < 2 ^ 67 }
    ensures key { bytes.new ≡ words rng.old.key rng.old.stream rng.old.word_pos 8 }
    ensures place { rng.new ≡ record rng.old { word_pos = rng.old.word_pos + 8 } }
{
    fill_words(rng, bytes);
}

/// The 32 bytes of a seed: the number, most significant byte first, and zeros.
#[tactic(auto, unfolding(crate::specs::SeedKeys::seed_bytes))]
fn spread(seed: u64) -> [u8; KEY]
    ensures { result ≡ seed_bytes seed }
{
    let mut bytes = [0; KEY];
    bytes[..8].copy_from_slice(&seed.to_be_bytes());
    bytes
}

//! Numbers that follow from a seed.
ghost use Rattle.std.specs.Prelude.{◌≡◌};
ghost use Rattle.workload.specs.Draws.{next_state, draw_at};

use std::marker::Model;

/// The factor of the generator.
const FACTOR: u64 = 6_364_136_223_846_793_005;

/// What the generator adds.
const SUMMAND: u64 = 1_442_695_040_888_963_407;

/// The linear congruential generator of Knuth's MMIX, modulo 2^64, of whose states the upper 31 bits are drawn. A contract
/// sees its state.
#[derive(Drop)]
pub(crate) struct Draws {
    state: u64,
}

impl Model for Draws {
    ghost use Rattle.std.specs.Prelude.{ℕ};

    ghost Value = { ℕ };

    ghost view = { λ d. d.state };
}

impl Draws {
    /// The generator of a seed, before its first draw.
    pub(crate) fn new(seed: u64) -> Draws
        ensures { result ≡ seed }
    {
        Draws { state: seed }
    }

    /// The next number, below 2^31.
    pub(crate) fn draw(&mut self) -> u32
        ensures state { self.new ≡ next_state self.old }
        ensures value { result ≡ draw_at self.new }
    {
        self.state = self.state.wrapping_mul(FACTOR).wrapping_add(SUMMAND);
        (self.state >> 33) as u32
    }
}

//! The words of the ChaCha20 keystream (RFC 8439), with the 64-bit counter and stream number of `rand_chacha`: what records are sealed
//! with, and what a seeded tape draws its keys from. All public functions but `fill_words` do nothing: each has laws of the words as
//! its contract.
#![tactic(auto)]

ghost use Rattle.std.specs.Prelude.{◌≡◌, ◌+◌, ◌*◌, ◌/◌, ◌%◌, ◌^◌, ◌<◌, ◌++◌, ℕ, List, All, length};
ghost use Rattle.std.specs.Int.{w32, to_le_bytes};
ghost use Rattle.rand_core.specs.Steps.{word_bytes};
ghost use Rattle.rand_chacha.specs.ChaCha.{ChaCha, next_word};
ghost use Rattle.chacha_words.specs.Words.{words};

mod pieces;

use crate::pieces::{PIECE, fill_each, fill_pieces, stands_at_block};
use rand_chacha::ChaCha20Rng;

/// Fills `out`, whose length is a multiple of four, with the next words of a generator, each least byte first.
///
/// From the start of a block on, pieces of four blocks are copied as the generator makes them, and only what is left word by word.
pub fn fill_words(rng: &mut ChaCha20Rng, out: &mut [u8])
    requires whole { length out.old % 4 ≡ 0 }
    requires within { rng.old.word_pos + length out.old / 4 < 2 ^ 68 }
    ensures written { out.new ≡ words rng.old.key rng.old.stream rng.old.word_pos (length out.old / 4) }
    ensures place { rng.new ≡ record rng.old { word_pos = rng.old.word_pos + length out.old / 4 } }
{
    if stands_at_block(rng) {
        let whole = out.len() / PIECE * PIECE;
        fill_pieces(rng, &mut out[..whole]);
        fill_each(rng, &mut out[whole..]);
    } else {
        fill_each(rng, out);
    }
}

/// Each word is four bytes, and a longer run of words begins with each shorter one.
pub fn words_are_bytes()
    ensures len { (key : List ℕ) (number place n : ℕ) → length (words key number place n) ≡ 4 * n }
    ensures bytes { (key : List ℕ) (number place n : ℕ) → All (λ b. b < 256) (words key number place n) }
    ensures parts { (key : List ℕ) (number place n more : ℕ)
        → words key number place (n + more) ≡ words key number place n ++ words key number (place + n) more }
{}

/// A generator of 20 rounds gives the words from its place on, and then stands behind them.
pub fn generators_write_words()
    ensures { (g : ChaCha) (n : ℕ) → g.word_pos + n < 2 ^ 68 → word_bytes (to_le_bytes w32) (next_word 10) n g
        ≡ (words g.key g.stream g.word_pos n, record g { word_pos = g.word_pos + n }) }
{}

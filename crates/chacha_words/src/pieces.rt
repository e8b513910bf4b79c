//! The words that a generator gives next, written into a buffer.
ghost use Rattle.std.specs.Prelude.{◌≡◌, ◌+◌, ◌*◌, ◌/◌, ◌%◌, ◌^◌, ◌<◌, ◌≤◌, ◌↔◌, IsTrue, length};
ghost use Rattle.chacha_words.specs.Words.{words, AddsWords};

use rand_chacha::ChaCha20Rng;
use rand_core::utils::NextWord;

/// The words of a block of ChaCha.
const BLOCK_WORDS: u128 = 16;

/// The bytes of four blocks, which the generator makes at a time.
pub(crate) const PIECE: usize = 256;

/// Whether a generator stands at the start of a block.
pub(crate) fn stands_at_block(rng: &ChaCha20Rng) -> bool
    ensures { IsTrue result ↔ rng.now.word_pos % 16 ≡ 0 }
{
    rng.get_word_pos() % BLOCK_WORDS == 0
}

/// Fills `out`, whose length is a multiple of 256, with the next words of a generator that stands at the start of a block.
pub(crate) fn fill_pieces(rng: &mut ChaCha20Rng, out: &mut [u8])
    requires whole { length out.old % 256 ≡ 0 }
    requires start { rng.old.word_pos % 16 ≡ 0 }
    requires within { rng.old.word_pos + length out.old / 4 < 2 ^ 68 }
    ensures written { out.new ≡ words rng.old.key rng.old.stream rng.old.word_pos (length out.old / 4) }
    ensures place { rng.new ≡ record rng.old { word_pos = rng.old.word_pos + length out.old / 4 } }
{
    let count = out.len() / PIECE;
    'pieces: for i in 0..count {
        let piece = four_blocks(rng);
        out[PIECE * i..PIECE * i + PIECE].copy_from_slice(&piece);
    }
}

/// Fills `out`, whose length is a multiple of four, with the next words of a generator, one by one.
pub(crate) fn fill_each(rng: &mut ChaCha20Rng, out: &mut [u8])
    requires whole { length out.old % 4 ≡ 0 }
    requires within { rng.old.word_pos + length out.old / 4 < 2 ^ 68 }
    ensures written { out.new ≡ words rng.old.key rng.old.stream rng.old.word_pos (length out.old / 4) }
    ensures place { rng.new ≡ record rng.old { word_pos = rng.old.word_pos + length out.old / 4 } }
{
    let count = out.len() / 4;
    'words: for i in 0..count {
        put_word(rng, out, i);
    }
}

/// The next four blocks of a generator that stands at the start of a block.
///
/// To set the generator to where it stands tells the compiler that no word is left in its buffer, so that the first of these words
/// makes four blocks, and no other has to ask. They are written into a buffer of their own: for all that the compiler knows, a write
/// into another one might change the generator. So all of them are copied at once.
#[inline(always)]
fn four_blocks(rng: &mut ChaCha20Rng) -> [u8; PIECE]
    requires start { rng.old.word_pos % 16 ≡ 0 }
    requires within { rng.old.word_pos + 64 < 2 ^ 68 }
    ensures written { result ≡ words rng.old.key rng.old.stream rng.old.word_pos 64 }
    ensures place { rng.new ≡ record rng.old { word_pos = rng.old.word_pos + 64 } }
{
    let block = rng.get_word_pos() / BLOCK_WORDS;
    rng.set_word_pos(block * BLOCK_WORDS);
    let mut piece = [0; PIECE];
    put_block(rng, &mut piece, 0);
    put_block(rng, &mut piece, 16);
    put_block(rng, &mut piece, 32);
    put_block(rng, &mut piece, 48);
    piece
}

/// Writes the next sixteen words from a word of `out` on.
#[inline(always)]
fn put_block(rng: &mut ChaCha20Rng, out: &mut [u8], at: usize)
    requires { 4 * at + 64 ≤ length out.old }
    ensures { AddsWords 16 at out.old rng.old out.new rng.new }
{
    put_four(rng, out, at);
    put_four(rng, out, at + 4);
    put_four(rng, out, at + 8);
    put_four(rng, out, at + 12);
}

/// Writes the next four words from a word of `out` on.
#[inline(always)]
fn put_four(rng: &mut ChaCha20Rng, out: &mut [u8], at: usize)
    requires { 4 * at + 16 ≤ length out.old }
    ensures { AddsWords 4 at out.old rng.old out.new rng.new }
{
    put_word(rng, out, at);
    put_word(rng, out, at + 1);
    put_word(rng, out, at + 2);
    put_word(rng, out, at + 3);
}

/// Writes the next word at a word of `out`, least byte first.
#[inline(always)]
fn put_word(rng: &mut ChaCha20Rng, out: &mut [u8], at: usize)
    requires { 4 * at + 4 ≤ length out.old }
    ensures { AddsWords 1 at out.old rng.old out.new rng.new }
{
    let [first, second, third, fourth] = rng.next_word().to_le_bytes();
    out[4 * at] = first;
    out[4 * at + 1] = second;
    out[4 * at + 2] = third;
    out[4 * at + 3] = fourth;
}

//! The parts of a range of bytes, each in one block.
ghost use Rattle.std.specs.Prelude.{◌≡◌, ◌⊎◌, ◌+◌, ◌*◌, ◌%◌, ◌<◌, ◌≤◌, ◌↔◌, ℕ, List, IsTrue, length, take, drop};
ghost use Rattle.byte_arrays.specs.Arrays.{bytes_at, byte_of, with_bytes};
ghost use Rattle.byte_arrays.specs.Parts.{IsPart};

use crate::BLOCK;

/// The bytes of a range that lie in one block.
#[derive(Clone, Copy, Debug, PartialEq, Eq)]
pub struct Part {
    /// The block's number.
    pub block: u64,
    /// Where they begin in the block.
    pub start: usize,
    /// How many they are: at least one.
    pub count: usize,
    ghost inside: { start + count ≤ 4096 },
    ghost some: { 0 < count },
}

impl Part {
    /// The first part of the `left` bytes of a range that begin at the place `at`: up to the end of
    /// its block, or of the range. As the clause has it, `done` bytes of the range stand before it;
    /// where there are any, the last of them ended a block.
    pub fn first(at: u64, left: usize) -> Part
        requires { 0 < left }
        ensures { (offset done : ℕ) → at ≡ offset + done → (done ≡ 0) ⊎ (at % 4096 ≡ 0)
            → IsPart offset (done + left) done result.block result.start result.count }
    {
        let start = (at % BLOCK) as usize;
        Part {
            block: at / BLOCK,
            start,
            count: left.min(BLOCK as usize - start),
        }
    }

    /// Whether it is all of its block.
    pub fn is_whole(&self) -> bool
        ensures { IsTrue result ↔ (self.now.count ≡ 4096) }
    {
        self.count == BLOCK as usize
    }

    /// Its bytes, of the 4,096 that its block holds.
    pub fn bytes_of<'a>(&self, block: &'a [u8]) -> &'a [u8]
        requires { length block.now ≡ 4096 }
        // They are those that the array of all blocks has there.
        ensures { (content : ℕ → List ℕ) → block.now ≡ content self.now.block
            → result.now ≡ bytes_at (byte_of content)
            (4096 * self.now.block + self.now.start) self.now.count }
    {
        &block[self.start..self.start + self.count]
    }

    /// Puts its bytes into the 4,096 that its block held before.
    pub fn paste(&self, bytes: &[u8], block: &mut [u8])
        requires bytes { length bytes.now ≡ self.now.count }
        requires block { length block.old ≡ 4096 }
        // Where they are a part of all that is put into an array, the block has what the array has
        // then.
        ensures { (array : ℕ → ℕ) (offset : ℕ) (all : List ℕ) (done : ℕ)
            → IsPart offset (length all) done self.now.block self.now.start self.now.count
            → bytes.now ≡ take self.now.count (drop done all)
            → block.old ≡ bytes_at array (4096 * self.now.block) 4096
            → block.new ≡ bytes_at (with_bytes array offset all) (4096 * self.now.block) 4096 }
    {
        block[self.start..self.start + self.count].copy_from_slice(bytes);
    }
}

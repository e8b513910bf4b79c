//! The blocks of a range of bytes.
ghost use Rattle.std.specs.Prelude.{◌≡◌, ◌+◌, ◌-◌, ◌<◌, ◌≤◌, ◌^◌, ◌↔◌, ℕ};
ghost use Rattle.byte_arrays.specs.Ranges.{IsTouched, IsCovered, blocks_from, touched_blocks, covered_blocks};

use crate::BLOCK;
use std::ops::Range;

/// The blocks that have a byte of the `count` bytes from the place `offset` on: none where there is
/// no byte.
pub fn touched(offset: u64, count: u64) -> Range<u64>
    requires { offset + count < 2 ^ 64 }
    ensures ordered { result.start ≤ result.end }
    ensures touched { (block : ℕ)
        → IsTouched offset count block ↔ ((result.start ≤ block) × (block < result.end)) }
    ensures blocks { blocks_from result.start (result.end - result.start)
        ≡ touched_blocks offset count }
{
    let first = offset / BLOCK;
    if count == 0 {
        return first..first;
    }
    first..(offset + count - 1) / BLOCK + 1
}

/// The blocks of which each byte is among the `count` bytes from the place `offset` on. Where there
/// are none the range's end may stand before its start.
pub fn covered(offset: u64, count: u64) -> Range<u64>
    requires { offset + count < 2 ^ 64 }
    ensures covered { (block : ℕ)
        → IsCovered offset count block ↔ ((result.start ≤ block) × (block < result.end)) }
    ensures blocks { blocks_from result.start (result.end - result.start)
        ≡ covered_blocks offset count }
{
    offset.div_ceil(BLOCK)..(offset + count) / BLOCK
}

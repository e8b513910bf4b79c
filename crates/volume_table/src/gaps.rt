//! Where a new volume could stand.
ghost use Rattle.std.specs.Prelude.{ℕ, ◌≤◌, IfSome, IfNone};
ghost use Rattle.volume_table.specs.Tables.{IsTable, FitsAt, IsGap};

use crate::volume::Volume;

/// Where a volume could stand.
#[derive(Clone, Copy)]
pub(crate) struct Gap {
    /// How many volumes stand before it.
    pub(crate) at: usize,
    /// Its first block.
    pub(crate) start: u64,
}

/// The least first block that a volume of `count` blocks could have, and its place in the table.
pub(crate) fn least_gap(volumes: &[Volume], count: u64, blocks: u64) -> Option<Gap>
    requires table { IsTable blocks volumes.now }
    requires count { 1 ≤ count }
    ensures found { IfSome result (λ gap. IsGap blocks volumes.now count gap.at gap.start) }
    ensures none { IfNone result ((start : ℕ) → FitsAt blocks volumes.now count start → ⊥) }
{
    let mut start = 1;
    for (at, volume) in volumes.iter().enumerate() {
        if count <= volume.start - start {
            return Some(Gap { at, start });
        }
        start = volume.start + volume.count;
    }
    if count <= blocks && start <= blocks - count {
        Some(Gap {
            at: volumes.len(),
            start,
        })
    } else {
        None
    }
}

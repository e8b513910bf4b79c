ghost use Rattle.std.specs.Prelude.{◌-◌, ℕ, ◌<◌, ◌≤◌, ◌/◌};
ghost use Rattle.btree_twigs.specs.Stubs.{stubs_below};
ghost use Rattle.btree_twigs.specs.Shape.{IsTwig};
ghost use Rattle.btree_twigs.specs.Search.{IsSpot};

use crate::twigs::{Child, Spot, Twig, end_of, place};

/// Looks a block up below a node that ends at this bound.
pub fn find(twig: &Twig, block: u64, high: u64) -> Spot
    ensures { (order level least most low : ℕ) → IsTwig order level least most low high twig.now → low ≤ block → block < high
        → IsSpot block (stubs_below level high twig.now) result }
{
    let at = place(&twig.children, block);
    if at == 0 {
        return Spot::Absent;
    }
    let end = end_of(&twig.children, at, high);
    match &twig.children[at - 1] {
        Child::Grown { twig: below, .. } => find(below, block, end),
        Child::Kept { low, addr, key } => {
            if twig.level > 1 {
                Spot::Below {
                    level: twig.level - 1,
                    low: *low,
                    high: end,
                    addr: *addr,
                    key: *key,
                }
            } else if *low == block {
                Spot::Found {
                    addr: *addr,
                    key: *key,
                }
            } else {
                Spot::Absent
            }
        }
    }
}

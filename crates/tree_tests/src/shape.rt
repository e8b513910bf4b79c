//! Whether a tree that is partly in memory is shaped as it may be, by plain code.
use btree_twigs::{Child, Twig, end_of, low_of};

/// How many nodes in memory a child is made of, or `None` where one has too few children or too many, is not of its level, or
/// has lows that do not ascend within its bounds.
#[cycle(shape)]
pub(crate) fn nodes_of(
    child: &Child,
    order: usize,
    level: u8,
    least: usize,
    low: u64,
    high: u64,
) -> Option<u64> {
    match child {
        Child::Kept { .. } => Some(0),
        Child::Grown { twig, .. } => {
            let count = twig.children.len();
            if level == 0 || twig.level != level || count < least || count > order {
                return None;
            }
            nodes_below(twig, order, level - 1, low, high)?.checked_add(1)
        }
    }
}

/// How many there are below a node, over children of a level.
#[cycle(shape)]
fn nodes_below(twig: &Twig, order: usize, level: u8, low: u64, high: u64) -> Option<u64> {
    let mut nodes: u64 = 0;
    let mut start = low;
    for (i, child) in twig.children.iter().enumerate() {
        let begin = low_of(child);
        let end = end_of(&twig.children, i.checked_add(1)?, high);
        let follows = if level == 0 {
            begin >= start
        } else {
            begin == start
        };
        if !follows || begin >= end || end > high {
            return None;
        }
        nodes = nodes.checked_add(nodes_of(child, order, level, order / 2, begin, end)?)?;
        start = if level == 0 { begin + 1 } else { end };
    }
    Some(nodes)
}

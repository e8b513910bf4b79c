ghost use Rattle.std.specs.Prelude.{◌≡◌, ◌≤◌, ◌<◌, ◌+◌, ◌-◌, ◌*◌, ◌^◌, ◌++◌, ℕ, IfOk};
ghost use Rattle.tree_build.specs.Shape.{IsShaped, cut, shape_of};
ghost use Rattle.tree_build.specs.Shape as shapes;

use sdbt_base::{Listed, Memory};
use std::alloc::Global;

/// The levels that a tree has at most.
const MAX_LEVEL: u8 = 20;

/// A node that a build makes: its level, and over which items it is.
#[derive(Clone, Copy, Debug, PartialEq, Eq)]
pub struct Span {
    /// The level: 1 is that of the leaves.
    pub level: u8,
    /// The first of its items. The data records are items 0 and on, and each node that was made is the next one.
    pub first: usize,
    /// How many items it is over.
    pub count: usize,
}

/// All nodes that a build makes, in order.
pub type Shape = Listed<Span>;

/// How many nodes a build makes over `count` data records, where a node has at most `order` entries: at most one more than these, and 1
/// over none.
pub fn built(order: u16, count: u64) -> u64
    requires { IsShaped order count }
    ensures { result ≡ shapes.built order count }
{
    let most = u64::from(order);
    let mut many: u64 = 0;
    let mut items = count;
    for _level in 0..MAX_LEVEL {
        let nodes = nodes_over(most, items);
        many += nodes;
        if items <= most {
            break;
        }
        items = nodes;
    }
    many
}

/// How many nodes of a level stand over so many items: one where it has room for all, else as many as can have half of what one has
/// room for.
fn nodes_over(order: u64, items: u64) -> u64
    requires { 4 ≤ order }
    ensures { result ≡ shapes.nodes_over order items }
{
    if items <= order {
        1
    } else {
        items / (order / 2)
    }
}

/// The nodes that a build makes over `count` data records, level by level and left to right.
pub fn shape(alloc: Global, order: u16, count: usize) -> Result<Shape, Memory>
    requires { IsShaped order count }
    ensures { IfOk result (λ shape. shape ≡ shape_of order count) }
{
    let most = u64::from(order);
    let mut spans = Shape::new(alloc);
    let mut first = 0;
    let mut items = count as u64;
    for below in 0..MAX_LEVEL {
        let nodes = nodes_over(most, items);
        let level = Span {
            level: below + 1,
            first,
            count: items as usize,
        };
        push_level(level, (most / 2) as usize, nodes as usize, &mut spans)?;
        if items <= most {
            break;
        }
        first += items as usize;
        items = nodes;
    }
    Ok(spans)
}

/// Adds the nodes of a level over the items of `all`: each is over `half` of them, and the last over what is left.
fn push_level(all: Span, half: usize, nodes: usize, spans: &mut Shape) -> Result<(), Memory>
    requires least { 1 ≤ nodes }
    requires room { half * (nodes - 1) ≤ all.count }
    requires end { all.first + all.count < 2 ^ 32 }
    ensures { IfOk result (λ _. spans.new ≡ spans.old ++ cut all.level half all.first nodes all.count) }
{
    let mut rest = all;
    for _node in 1..nodes {
        spans.push(Span {
            count: half,
            ..rest
        })?;
        rest.first += half;
        rest.count -= half;
    }
    spans.push(rest)
}

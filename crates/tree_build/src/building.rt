ghost use Rattle.std.specs.Prelude.{◌≡◌, ◌≤◌, ◌<◌, ◌+◌, ◌++◌, [], ◌∷◌, ℕ, All, Contains, IfOk, length, vec_len, vec_capacity};
ghost use Rattle.sdbt_base.specs.Faults.{TellsOf};
ghost use Rattle.sdbt_base.specs.Keys.{bare, IsKeyOf};
ghost use Rattle.node_codec.specs.Record.{NodeRecord, FitsNode};
ghost use Rattle.page_store.specs.Keeping.{KeepsKeys, IsNextRecord};
ghost use Rattle.tree_build.specs.Shape as shapes;
ghost use Rattle.tree_build.specs.Shape.{shape_of};
ghost use Rattle.tree_build.specs.Nodes as nodes;
ghost use Rattle.tree_build.specs.Nodes.{children_in};
ghost use Rattle.tree_build.specs.Building.{Builds, BuildsNode, CanBuild, KnowsItems, OnlyAdds};

use crate::shapes::{Shape, Span};
use node_codec::Entry;
use page_store::{AppendFault, Buffers};
use platform::Platform;
use sdbt_base::Tape;

/// Makes the nodes of the shape over the data records of version 2 that `items` names, whose pages are the last ones: each is sealed under a key drawn for it and appended,
/// and `items` names it behind those before it. The last one is the root node.
///
/// After a fault pages may have been handed over, each under a key drawn for it. No memory is taken: `items` has room for all.
pub fn build<P: Platform, T: Tape>(
    order: u16,
    shape: &Shape,
    items: &mut Vec<Entry>,
    buffers: &mut Buffers,
    platform: &mut P,
    tape: &mut T,
) -> Result<(), AppendFault>
    requires can { (blocks : ℕ) × CanBuild order blocks (P.head platform.old) (P.capacity platform.old) items.old.items }
    requires shape { shape.now ≡ shape_of order (length items.old.items) }
    requires room { length items.old.items + shapes.built order (length items.old.items) ≤ vec_capacity items.old }
    ensures builds { IfOk result (λ _. Builds P.tells order (P.head platform.old) (P.head platform.new) (P.history platform.old).present (P.history platform.new).present items.old.items items.new.items) }
    // With the keys of the data records each moment keeps the keys that the image kept before, and at the end those of all items are listed.
    ensures keeps { KeepsKeys P.tells (T.drawn tape.old) (T.drawn tape.new) (P.history platform.old) (P.history platform.new)
        (KnowsItems (P.history platform.old).present items.old.items)
        (λ keys. IfOk result (λ _. All (λ e. Contains keys (bare e.key)) items.new.items)) }
    ensures beside { OnlyAdds P.Platform T.Tape (shapes.built order (length items.old.items)) 0 platform.old platform.new tape.old tape.new }
    ensures platform_cause { TellsOf AppendFault.PlatformFault result (P.faults platform.old) (P.faults platform.new) }
    ensures tape_cause { TellsOf AppendFault.TapeFault result (T.faults tape.old) (T.faults tape.new) }
    ensures same_room { vec_capacity items.new ≡ vec_capacity items.old }
{
    for i in 0..shape.len() {
        let span = shape.at(i);
        let entry = build_node(span, items, buffers, platform, tape)?;
        add(items, entry);
    }
    Ok(())
}

/// Seals and appends the node over the items of a span, and answers the entry that names it.
fn build_node<P: Platform, T: Tape>(
    span: &Span,
    items: &[Entry],
    buffers: &mut Buffers,
    platform: &mut P,
    tape: &mut T,
) -> Result<Entry, AppendFault>
    requires fits { FitsNode 2 (P.head platform.old) span.now.level (children_in items.now span.now) }
    requires keys { All (λ e. IsKeyOf 2 e.key) items.now }
    requires within { span.now.first + span.now.count ≤ length items.now }
    requires room { P.head platform.old < P.capacity platform.old }
    ensures built { IfOk result (BuildsNode P.Platform platform.old platform.new span.now items.now) }
    ensures keeps { KeepsKeys P.tells (T.drawn tape.old) (T.drawn tape.new) (P.history platform.old) (P.history platform.new)
        (IsNextRecord (P.history platform.old).present (NodeRecord span.now.level (children_in items.now span.now)))
        (λ keys. IfOk result (λ entry. Contains keys (bare entry.key))) }
    ensures adds { OnlyAdds P.Platform T.Tape 1 0 platform.old platform.new tape.old tape.new }
    ensures platform_cause { TellsOf AppendFault.PlatformFault result (P.faults platform.old) (P.faults platform.new) }
    ensures tape_cause { TellsOf AppendFault.TapeFault result (T.faults tape.old) (T.faults tape.new) }
{
    let children = &items[span.first..span.first + span.count];
    buffers.put_node(platform.head(), span.level, 2, children);
    let placed = buffers.append(platform, tape, 2)?;
    Ok(Entry {
        low: low_of(items, span.first),
        addr: placed.addr,
        key: placed.key,
    })
}

/// The low of a node whose first child is the item at a place: that of this child, and 0 of the first leaf.
fn low_of(items: &[Entry], first: usize) -> u64
    ensures { (s : Span) → s.first ≡ first → result ≡ nodes.low_of items.now s }
{
    if first == 0 {
        0
    } else {
        items.get(first).map_or(0, |item| item.low)
    }
}

/// Puts an entry behind others, where there is room.
fn add(items: &mut Vec<Entry>, entry: Entry)
    requires { vec_len items.old < vec_capacity items.old }
    ensures items { items.new.items ≡ items.old.items ++ entry ∷ [] }
    ensures capacity { vec_capacity items.new ≡ vec_capacity items.old }
{
    items.push_reserved(entry);
}

//! The new tree of an upgrade.
ghost use Rattle.std.specs.Prelude.{◌≡◌, ◌≤◌, ◌<◌, ◌+◌, ◌^◌, ◌++◌, [], ◌∷◌, ℕ, List, All, Contains, IfOk, length};
ghost use Rattle.sdbt_base.specs.Keys.{bare};
ghost use Rattle.page_store.specs.Keeping.{KeepsKeys};
ghost use Rattle.page_store.specs.Roots.{IsRootWithin};
ghost use Rattle.page_store.specs.Stands.{IsSound};
ghost use Rattle.tree_build.specs.Building.{OnlyAdds};
ghost use Rattle.tree_build.specs.Shape.{IsShaped, shape_of, levels_over};
ghost use Rattle.device_core.specs.Upgrading.{needed_of_root, order_above};
ghost use Rattle.node_codec.specs.declared.body.Entry.{Entry};
ghost use Rattle.device_core.specs.Preparing.{HasRoom};
ghost use Rattle.device_core.specs.Rewriting.{IsRewriteCause, Rewrites};

use crate::copying::copy_records;
use crate::preparing::Prepared;
use crate::refusals::UpgradeRefusal;
use crate::surveying::order_over;
use node_codec::Entry;
use platform::Platform;
use root_codec::Root;
use sdbt_base::Tape;
use tree_build::{Shape, build};

/// The version of the new records.
const VERSION: u8 = 2;

/// Appends each data record anew and then the nodes over them, and answers the root record that names the last of these. No memory is taken.
///
/// After a refusal pages may have been handed over, each under a key drawn for it.
pub(crate) fn rewrite<P: Platform, T: Tape>(
    root: &Root,
    prepared: &mut Prepared,
    platform: &mut P,
    tape: &mut T,
) -> Result<Root, UpgradeRefusal>
    requires within { IsRootWithin (P.head platform.old) root.now }
    requires room { P.head platform.old + needed_of_root root.now ≤ P.capacity platform.old }
    requires has { HasRoom root.now prepared.old }
    ensures rewrites { IfOk result (Rewrites P.tells (P.history platform.old) (P.history platform.new) (P.head platform.old) (P.head platform.new)
        root.now prepared.old.items.items prepared.new.items.items) }
    // Each moment keeps the keys that the image kept before, and at the end those of all items are listed.
    ensures keeps { KeepsKeys P.tells (T.drawn tape.old) (T.drawn tape.new) (P.history platform.old) (P.history platform.new)
        (λ keys. IsSound (P.history platform.old).present)
        (λ keys. IfOk result (λ _. All (λ e. Contains keys (bare e.key)) prepared.new.items.items)) }
    ensures beside { OnlyAdds P.Platform T.Tape (needed_of_root root.now) root.now.mapped platform.old platform.new tape.old tape.new }
    ensures cause { IsRewriteCause P.Platform T.Tape platform.old platform.new tape.old tape.new prepared.old.items.items result }
    ensures line { prepared.new.line ≡ prepared.old.line }
{
    copy_records(
        &mut prepared.items,
        &mut prepared.source,
        &mut prepared.target,
        platform,
        tape,
    )?;
    build(
        order_over(root),
        &prepared.shape,
        &mut prepared.items,
        &mut prepared.target,
        platform,
        tape,
    )?;
    let level = top_level(&prepared.shape);
    Ok(root_over(root, &prepared.items, level, platform.head()))
}

/// The root record that follows another by an upgrade, and names the last one of these items.
fn root_over(root: &Root, items: &[Entry], level: u8, head: u64) -> Root
    requires some { 1 ≤ length items.now }
    requires number { root.now.commit < 2 ^ 32 }
    ensures { (before : List Entry) (node : Entry) → items.now ≡ before ++ node ∷ [] → result ≡ record {
      version = 2;
      order = order_above root.now.order;
      level = level;
      blocks = root.now.blocks;
      commit = root.now.commit + 1;
      addr = node.addr;
      key = node.key;
      mapped = root.now.mapped;
      head = head;
    } }
{
    let node = items[items.len() - 1];
    Root {
        version: VERSION,
        order: order_over(root),
        level,
        blocks: root.blocks,
        commit: root.commit + 1,
        addr: node.addr,
        key: node.key,
        mapped: root.mapped,
        head,
    }
}

/// The level of the root node.
fn top_level(shape: &Shape) -> u8
    requires { 1 ≤ length shape.now }
    ensures { (order count : ℕ) → IsShaped order count → shape.now ≡ shape_of order count → result ≡ levels_over order count }
{
    shape.at(shape.len() - 1).level
}

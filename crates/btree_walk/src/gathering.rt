ghost use Rattle.std.specs.Prelude.{◌≡◌, ◌<◌, List, [], ◌∷◌, ◌++◌, OnOk, map};
ghost use Rattle.btree_walk.specs.Nodes.{Node, node_at, listed, Adds};

use crate::entry_list::Entries;
use node_codec::{Entry, NodeBody};
use sdbt_base::{Addrs, Memory};

/// What a walk over the nodes of a tree gathers.
pub(crate) trait Gather {
    /// That it has what is to be gathered of these nodes, in their order.
    ghost holds: { Self → List Node → Type 0 };

    /// Gathers of one more node, which stands at this address.
    fn node(&mut self, addr: u64, node: &NodeBody) -> Result<(), Memory>
        ensures { OnOk result (Adds holds self.old self.new (node_at addr node.now.level node.now.entries.items ∷ [])) };
}

/// The entries of the leaves.
impl Gather for Entries {
    ghost holds = { λ entries nodes. entries ≡ listed nodes };

    fn node(&mut self, _addr: u64, node: &NodeBody) -> Result<(), Memory> {
        if node.level == 1 {
            push_all(self, &node.entries)
        } else {
            Ok(())
        }
    }
}

/// The addresses of the nodes.
impl Gather for Addrs {
    ghost holds = { λ addrs nodes. addrs ≡ map (λ n. n.addr) nodes };

    fn node(&mut self, addr: u64, _node: &NodeBody) -> Result<(), Memory> {
        self.push(addr)
    }
}

/// Adds entries at the end of a list. After `Memory` the list may have some of them.
fn push_all(list: &mut Entries, entries: &[Entry]) -> Result<(), Memory>
    ensures { OnOk result (list.new ≡ list.old ++ entries.now) }
{
    for entry in entries {
        list.push(*entry)?;
    }
    Ok(())
}

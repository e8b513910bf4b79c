ghost use Rattle.std.specs.Prelude.{◌≤◌, ℕ, IfOk, IsErrOf, OnErr, map};
ghost use Rattle.sdbt_base.specs.Faults.{TellsOf};
ghost use Rattle.root_codec.specs.RootRecord.{FitsRoot};
ghost use Rattle.page_store.specs.Places.{root_want};
ghost use Rattle.btree_walk.specs.Nodes.{Lists, CutShort, FirstWrongOf, listed};
ghost use Rattle.btree_walk.specs.Looks.{OnlyLooks};

use crate::entry_list::Entries;
use crate::refusals::WalkRefusal;
use crate::walking::walk;
use page_store::{Buffers, Want};
use platform::Platform;
use root_codec::Root;
use sdbt_base::Addrs;
use std::alloc::Global;

/// The entries of all leaves of the tree of a root record, in order: its blocks, with where their data records are.
///
/// Each node is read once, also where the walk is cut short, and no data record. `BadRecord` comes exactly where a node does not fit, with the address of
/// the first one of these, where each node comes before those below it, and left before right.
pub fn entries<P: Platform>(
    alloc: Global,
    platform: &mut P,
    root: &Root,
    buf: &mut Buffers,
) -> Result<Entries, WalkRefusal>
    requires root { FitsRoot root.now }
    requires head { root.now.head ≤ P.head platform.old }
    ensures listed { P.tells → IfOk result (λ list.
        Lists (P.history platform.old).present.readable root.now listed (P.reads platform.old) (P.reads platform.new) list) }
    ensures wrong { P.tells → (addr : ℕ) → IsErrOf result (WalkRefusal.BadRecord addr) →
        FirstWrongOf (P.history platform.old).present.readable root.now addr }
    ensures cut { P.tells → OnErr result (CutShort (P.history platform.old).present.readable (root_want root.now) root.now.key (P.reads platform.old) (P.reads platform.new)) }
    ensures looks { OnlyLooks P.Platform platform.old platform.new }
    ensures cause { TellsOf WalkRefusal.PlatformFault result (P.faults platform.old) (P.faults platform.new) }
{
    let mut list = Entries::new(alloc);
    walk(platform, &Want::of_root(root), &root.key, buf, &mut list)?;
    Ok(list)
}

/// The addresses of all nodes of the tree of a root record: each before those below it, and left before right.
///
/// It reads and refuses as `entries` does.
pub fn addresses<P: Platform>(
    alloc: Global,
    platform: &mut P,
    root: &Root,
    buf: &mut Buffers,
) -> Result<Addrs, WalkRefusal>
    requires root { FitsRoot root.now }
    requires head { root.now.head ≤ P.head platform.old }
    ensures listed { P.tells → IfOk result (λ list.
        Lists (P.history platform.old).present.readable root.now (map (λ n. n.addr)) (P.reads platform.old) (P.reads platform.new) list) }
    ensures wrong { P.tells → (addr : ℕ) → IsErrOf result (WalkRefusal.BadRecord addr) →
        FirstWrongOf (P.history platform.old).present.readable root.now addr }
    ensures cut { P.tells → OnErr result (CutShort (P.history platform.old).present.readable (root_want root.now) root.now.key (P.reads platform.old) (P.reads platform.new)) }
    ensures looks { OnlyLooks P.Platform platform.old platform.new }
    ensures cause { TellsOf WalkRefusal.PlatformFault result (P.faults platform.old) (P.faults platform.new) }
{
    let mut list = Addrs::new(alloc);
    walk(platform, &Want::of_root(root), &root.key, buf, &mut list)?;
    Ok(list)
}

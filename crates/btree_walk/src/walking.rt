ghost use Rattle.std.specs.Prelude.{◌≡◌, ◌<◌, ◌≤◌, ◌+◌, ℕ, OnErr, OnOk, IsErrOf};
ghost use Rattle.sdbt_base.specs.Faults.{TellsOf};
ghost use Rattle.sdbt_base.specs.Keys.{version_of};
ghost use Rattle.node_codec.specs.Record.{NodeRecord, FitsNode};
ghost use Rattle.page_store.specs.Places.{FitsAt};
ghost use Rattle.page_store.specs.Tree.{IsMisfit};
ghost use Rattle.btree_walk.specs.Nodes.{Meets, Adds, CutShort, FirstWrong};
ghost use Rattle.btree_walk.specs.Looks.{OnlyLooks};

use crate::branches::branch_at;
use crate::gathering::Gather;
use crate::refusals::WalkRefusal;
use arrayvec::ArrayVec;
use node_codec::{Entry, NodeBody};
use page_store::{Buffers, Want, fetch_node};
use platform::Platform;
use record_versions::version_of;
use sdbt_base::Key;

/// Walks over the nodes from a place on, each before those below it, and gathers of each.
///
/// It goes no deeper than the level of the place, and reads each node once. After a refusal some nodes may be gathered.
pub(crate) fn walk<P: Platform, G: Gather>(
    platform: &mut P,
    want: &Want,
    key: &Key,
    buf: &mut Buffers,
    gathered: &mut G,
) -> Result<(), WalkRefusal>
    requires within { want.now.addr < P.head platform.old }
    requires level { 1 ≤ want.now.level }
    ensures met { P.tells → OnOk result (Meets (P.history platform.old).present.readable want.now key.now
        (Adds G.holds gathered.old gathered.new) (P.reads platform.old) (P.reads platform.new)) }
    ensures wrong { P.tells → (addr : ℕ) → IsErrOf result (WalkRefusal.BadRecord addr) →
        FirstWrong (P.history platform.old).present.readable addr want.now.most want.now.level want.now key.now }
    // Where it is refused no node was read twice.
    ensures cut { P.tells → OnErr result (CutShort (P.history platform.old).present.readable want.now key.now (P.reads platform.old) (P.reads platform.new)) }
    ensures looks { OnlyLooks P.Platform platform.old platform.new }
    ensures cause { TellsOf WalkRefusal.PlatformFault result (P.faults platform.old) (P.faults platform.new) }
{
    let mut node = NodeBody {
        level: want.level,
        version: version_of(key),
        entries: ArrayVec::new(),
    };
    read_node(platform, want, key, buf, &mut node.entries)?;
    gathered.node(want.addr, &node)?;
    if want.level == 1 {
        return Ok(());
    }
    for place in 0..node.entries.len() {
        let branch = branch_at(want, &node.entries, place);
        walk(platform, &branch.want, &branch.key, buf, gathered)?;
    }
    Ok(())
}

/// Reads the entries of the node of a place, by one read of its page.
fn read_node<P: Platform>(
    platform: &mut P,
    want: &Want,
    key: &Key,
    buf: &mut Buffers,
    entries: &mut ArrayVec<Entry, 64>,
) -> Result<(), WalkRefusal>
    requires within { want.now.addr < P.head platform.old }
    requires level { 1 ≤ want.now.level }
    ensures fits { P.tells → OnOk result
        (FitsAt (P.history platform.old).present.readable want.now key.now (NodeRecord want.now.level entries.new.items)) }
    ensures range { OnOk result (FitsNode (version_of key.now) want.now.addr want.now.level entries.new.items) }
    ensures misfit { P.tells → (addr : ℕ) → IsErrOf result (WalkRefusal.BadRecord addr) →
        IsMisfit (P.history platform.old).present.readable addr want.now key.now }
    ensures reads { P.tells → OnOk result (P.reads platform.new ≡ P.reads platform.old + 1) }
    ensures reads_most { P.tells → P.reads platform.new ≤ P.reads platform.old + 1 }
    ensures looks { OnlyLooks P.Platform platform.old platform.new }
    ensures cause { TellsOf WalkRefusal.PlatformFault result (P.faults platform.old) (P.faults platform.new) }
{
    fetch_node(platform, want, key, buf, entries)?;
    Ok(())
}

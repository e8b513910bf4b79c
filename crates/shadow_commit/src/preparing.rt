//! A commit up to its root record.
ghost use Rattle.std.specs.Prelude.{◌≡◌, ◌≤◌, ◌+◌, ◌*◌, suc, vec_len, vec_capacity, IfOk, IsErr, IsErrOf};
ghost use Rattle.sdbt_base.specs.Faults.{TellsOf};
ghost use Rattle.page_store.specs.Keeping.{KeepsKeys};
ghost use Rattle.btree_twigs.specs.Stubs.{stubs, nodes};
ghost use Rattle.btree_twigs.specs.Top.{child_level};
ghost use Rattle.btree_update.specs.Groves.{places_of, grown_in};
ghost use Rattle.shadow_commit.specs.Handing.{OnlyAdds, KnowsPlaces, StopsFrom};
ghost use Rattle.shadow_commit.specs.Ready.{CanPrepare, CanSealTop, IsSealed, IsReady, IsPrepareCause, IsUnbegun, ListsNewTree, SyncsBehind};

use crate::certifying::certify;
use crate::prepared::Prepared;
use crate::refusals::CommitRefusal;
use crate::sealing::seal_twig;
use btree_twigs::Child;
use btree_update::Grove;
use btree_walk::NodeReader;
use node_codec::Entry;
use page_store::AppendFault;
use platform::Platform;
use root_codec::Root;
use sdbt_base::Tape;
use std::alloc::Global;

/// Seals the nodes of a tree that are in memory, each after all below it, appends and syncs their pages, and answers what is left
/// to do: to replace the root record, that of the last commit, by one that says that so many blocks are mapped. All are of that root
/// record's version. The cache forgets the nodes that are gone, and then keeps those that are sealed, as the most recent ones.
///
/// `Full` comes exactly where there are more nodes in memory than free pages. All memory is taken before the first key is drawn.
/// After a fault pages may have been handed over, each under a key drawn for it. At each moment the cell is as before.
pub fn prepare<P: Platform, T: Tape>(
    alloc: Global,
    grove: &Grove,
    root: &Root,
    mapped: u64,
    platform: &mut P,
    tape: &mut T,
    reader: &mut NodeReader,
) -> Result<Prepared, CommitRefusal>
    requires can { CanPrepare (P.head platform.old) root.now mapped grove.now }
    ensures ready { IfOk result (IsReady P.tells (P.history platform.old).present (P.history platform.new).present (P.head platform.old) (P.head platform.new) (T.drawn tape.old) (T.drawn tape.new)
        reader.old.cache reader.new.cache root.now mapped grove.now) }
    ensures stops { IsErr result → StopsFrom root.now.version (P.head platform.old) (places_of grove.now) P.tells (P.history platform.old).present (P.history platform.new).present (T.drawn tape.old) (T.drawn tape.new) }
    ensures cause { IsPrepareCause P.Platform T.Tape platform.old platform.new tape.old tape.new (grown_in grove.now) result }
    ensures unbegun { IsUnbegun result → reader.new ≡ reader.old }
    ensures within { P.head platform.new ≤ P.head platform.old + grown_in grove.now }
    ensures keeps { KeepsKeys P.tells (T.drawn tape.old) (T.drawn tape.new) (P.history platform.old) (P.history platform.new)
        (KnowsPlaces (P.history platform.old).present (places_of grove.now)) (λ keys. IfOk result (λ prepared.
        ListsNewTree (P.history platform.old).present (P.history platform.new).present root.now.order (places_of grove.now) mapped prepared.root keys)) }
    ensures beside { OnlyAdds P.Platform T.Tape 1 platform.old platform.new tape.old tape.new }
{
    let needed = grove.grown();
    let head = platform.head();
    let free = platform.capacity() - head;
    if needed > free {
        return Err(CommitRefusal::Full { needed, free });
    }
    let Child::Grown { twig, .. } = grove.top() else {
        unreachable!()
    };
    let made = certify(alloc, twig, root, head, grove.gone(), grove.never())?;
    let mut entries = Vec::with_capacity(alloc, 64 * twig.level as usize)?;
    reader.cache.forget_all(grove.gone());
    let next = seal_all(
        grove.top(),
        root,
        mapped,
        &mut entries,
        platform,
        tape,
        reader,
    )?;
    Ok(Prepared {
        root: next,
        cert: made.cert,
        line: made.line,
    })
}

/// Seals the root node and all nodes in memory below it, syncs, and answers the root record that makes the commit once it is in
/// the cell.
fn seal_all<P: Platform, T: Tape>(
    top: &Child,
    root: &Root,
    mapped: u64,
    entries: &mut Vec<Entry>,
    platform: &mut P,
    tape: &mut T,
    reader: &mut NodeReader,
) -> Result<Root, AppendFault>
    requires can { CanSealTop (P.head platform.old) (P.capacity platform.old) root.now mapped top.now }
    requires room { vec_len entries.old + 64 * child_level top.now ≤ vec_capacity entries.old }
    ensures sealed { (at : CanSealTop (P.head platform.old) (P.capacity platform.old) root.now mapped top.now) → IfOk result (IsSealed P.tells (P.history platform.old).present (P.history platform.new).present
        (P.head platform.old) (P.head platform.new) (T.drawn tape.old) (T.drawn tape.new) reader.old.cache reader.new.cache root.now mapped (suc at.level) top.now (stubs (suc at.level) root.now.blocks top.now)) }
    ensures within { (at : CanSealTop (P.head platform.old) (P.capacity platform.old) root.now mapped top.now) → P.head platform.new ≤ P.head platform.old + nodes (suc at.level) top.now }
    ensures stops { (at : CanSealTop (P.head platform.old) (P.capacity platform.old) root.now mapped top.now) → IsErr result →
        StopsFrom root.now.version (P.head platform.old) (stubs (suc at.level) root.now.blocks top.now) P.tells (P.history platform.old).present (P.history platform.new).present (T.drawn tape.old) (T.drawn tape.new) }
    ensures beside { OnlyAdds P.Platform T.Tape 1 platform.old platform.new tape.old tape.new }
    ensures unsynced { P.tells → IsErrOf result AppendFault.TapeFault → P.changes platform.new ≡ P.changes platform.old }
    ensures behind { (at : CanSealTop (P.head platform.old) (P.capacity platform.old) root.now mapped top.now) → SyncsBehind P.Platform (nodes (suc at.level) top.now) platform.old platform.new }
    ensures platform_cause { TellsOf AppendFault.PlatformFault result (P.faults platform.old) (P.faults platform.new) }
    ensures tape_cause { TellsOf AppendFault.TapeFault result (T.faults tape.old) (T.faults tape.new) }
    ensures same_room { vec_capacity entries.new ≡ vec_capacity entries.old }
{
    let Child::Grown { twig, .. } = top else {
        unreachable!()
    };
    let placed = seal_twig(twig, root.version, entries, reader, platform, tape)?;
    let Ok(()) = platform.sync() else {
        return Err(AppendFault::PlatformFault);
    };
    Ok(Root {
        version: root.version,
        order: root.order,
        level: twig.level,
        blocks: root.blocks,
        commit: root.commit + 1,
        addr: placed.addr,
        key: placed.key,
        mapped,
        head: placed.addr + 1,
    })
}

//! Laws of commits. The functions do nothing: each has its law as its contract.
ghost use Rattle.std.specs.Prelude.{◌≢◌, ◌-◌, ◌≤◌, List, AllPairs, length};
ghost use Rattle.sdbt_base.specs.declared.lists.Unkept.{Unkept};
ghost use Rattle.platform.specs.Image.{Image};
ghost use Rattle.root_codec.specs.declared.root.Root.{Root};
ghost use Rattle.page_store.specs.Tree.{Parts, Place, joined};
ghost use Rattle.cert_maker.specs.Differ.{Differ};
ghost use Rattle.cert_maker.specs.Trace.{entries_of};
ghost use Rattle.btree_twigs.specs.Top.{IsTop};
ghost use Rattle.btree_update.specs.declared.groves.Grove.{Grove};
ghost use Rattle.btree_update.specs.Groves.{places_of};
ghost use Rattle.grove_accounts.specs.Holding.{HoldsTree};
ghost use Rattle.grove_accounts.specs.Certs.{AreWritten};
ghost use Rattle.shadow_commit.specs.Sealed.{Sealed};
ghost use Rattle.shadow_commit.specs.NewTree.{AreFrom, AreParts};
ghost use Rattle.shadow_commit.specs.Planned.{added_by};
ghost use Rattle.shadow_commit.specs.Ready.{Stand};

/// What stands below the places of a tree with changes, whose root node is in memory, is what a commit asks for.
pub fn changes_stand()
    ensures { (image : Image) (root : Root) (committed : List Place) (grove : Grove) (each : List Parts) →
        HoldsTree image root committed grove each → IsTop grove.order (grove.level - 1) grove.blocks grove.top →
        Stand image root.order (places_of grove) each (length (joined each).mapped) }
{}

/// What a commit adds, and what the tree let go of, is what the new tree and the tree before it differ by: its certificate is that of the two.
pub fn commit_differs()
    ensures { (image : Image) (root : Root) (committed : List Place) (grove : Grove) (each : List Parts) (nodes : List Sealed) (parts : Parts) (pages : List Unkept) →
        HoldsTree image root committed grove each → root.head ≤ length image.recorded →
        AreFrom (length image.recorded) nodes → AreParts nodes each parts → AllPairs (λ p q. p.addr ≢ q.addr) parts.places →
        AreWritten root.head (places_of grove) grove.never.items pages →
        Differ (entries_of committed) (entries_of parts.places) pages (added_by root.head (places_of grove) nodes) grove.gone.items grove.never.items }
{}

//! Laws of trees with changes over any pages, forged ones too. The functions do nothing: each has its law as its contract.
ghost use Rattle.std.specs.Prelude.{◌<◌, ◌≤◌, ◌⊎◌, ℕ, Bool, IsTrue, List, Some};
ghost use Rattle.platform.specs.Image.{Image, IsEarlier};
ghost use Rattle.node_codec.specs.declared.body.Entry.{Entry};
ghost use Rattle.node_codec.specs.Record.{DataRecord};
ghost use Rattle.root_codec.specs.declared.root.Root.{Root};
ghost use Rattle.page_store.specs.Places.{IsRecordAt, NothingFits, block_want};
ghost use Rattle.page_store.specs.Tree.{Wrong};
ghost use Rattle.btree_twigs.specs.Stubs.{Stub, Puts, Takes, datum};
ghost use Rattle.btree_update.specs.declared.groves.Grove.{Grove};
ghost use Rattle.btree_update.specs.Finding.{GroveFinds, GroveStops};
ghost use Rattle.btree_update.specs.Opens.{HasWay};
ghost use Rattle.btree_update.specs.Groves.{IsSound, IsWrongOnWay, KeepsTree, places_of};
ghost use Rattle.grove_accounts.specs.Holding.{IsTreeOf, IsSameSize, Turns};
ghost use Rattle.grove_accounts.specs.Followed.{FollowsTree};

/// The tree of a root record, with no node in memory, has its root as its one place.
pub fn root_follows()
    ensures { (pages : List (List ℕ)) (root : Root) (grove : Grove) → IsTreeOf root grove → FollowsTree pages root grove }
{}

/// What an update brings into memory beside the tree changes nothing.
pub fn ready_follows()
    ensures { (pages : List (List ℕ)) (root : Root) (old new : Grove) → KeepsTree old new → FollowsTree pages root old → FollowsTree pages root new }
{}

/// Pages that are added keep where the places of a tree come from.
pub fn follows_later()
    ensures { (image later : Image) (root : Root) (grove : Grove) → IsEarlier image later → FollowsTree image.readable root grove → FollowsTree later.readable root grove }
{}

/// With an insertion the places of a tree are those of its root record still, but for data records that came after it: the block's new one
/// is there.
pub fn insertion_follows()
    ensures { (image later : Image) (root : Root) (old new : Grove) (block addr : ℕ) (key content : List ℕ) → IsSound old → FollowsTree image.readable root old → IsSameSize old new →
        block < old.blocks → root.head ≤ addr →
        Turns image.readable block (HasWay block) (λ opened. Puts 0 old.blocks (datum block addr key) opened (places_of new)) old new →
        IsEarlier image later → IsRecordAt later.readable addr key (DataRecord block content) → FollowsTree later.readable root new }
{}

/// With a removal they are those of its root record still, but for data records that came after it.
pub fn removal_follows()
    ensures { (pages : List (List ℕ)) (root : Root) (old new : Grove) (block : ℕ) (may : Stub → Bool) → IsSound old → FollowsTree pages root old → IsSameSize old new → block < old.blocks →
        Turns pages block (λ s. HasWay block s ⊎ IsTrue (may s)) (λ opened. Takes 0 old.blocks block opened (places_of new)) old new → FollowsTree pages root new }
{}

/// What doesn't fit where an update or a look-up comes to it is a wrong place of the root record's tree, and so is a data record that isn't
/// there where a look-up found it.
pub fn misfit_is_wrong()
    ensures update { (pages : List (List ℕ)) (root : Root) (grove : Grove) (block addr : ℕ) → IsSound grove → FollowsTree pages root grove → IsWrongOnWay pages block grove addr → Wrong pages root addr }
    ensures look_up { (pages : List (List ℕ)) (root : Root) (grove : Grove) (block addr : ℕ) → IsSound grove → FollowsTree pages root grove → GroveStops pages block addr grove → Wrong pages root addr }
    ensures record { (pages : List (List ℕ)) (root : Root) (grove : Grove) (block : ℕ) (entry : Entry) → IsSound grove → FollowsTree pages root grove →
        GroveFinds pages block grove (Some entry) → NothingFits pages (block_want entry.addr block) entry.key → Wrong pages root entry.addr }
{}

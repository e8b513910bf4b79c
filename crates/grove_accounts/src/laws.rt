//! Laws of trees with changes. The functions do nothing: each has its law as its contract.
ghost use Rattle.std.specs.Prelude.{◌≡◌, ◌<◌, ◌≤◌, ◌⊎◌, ◌++◌, ℕ, Bool, IsTrue, List, [], ◌∷◌, Contains, length};
ghost use Rattle.sdbt_base.specs.Arrays.{Device};
ghost use Rattle.sdbt_base.specs.Traces.{Traced};
ghost use Rattle.sdbt_base.specs.declared.lists.Unkept.{Unkept};
ghost use Rattle.platform.specs.Image.{Image, IsEarlier};
ghost use Rattle.root_codec.specs.declared.root.Root.{Root};
ghost use Rattle.page_store.specs.Stands.{StandsBy};
ghost use Rattle.page_store.specs.Tree.{Parts, Place, joined};
ghost use Rattle.cert_maker.specs.Differ.{Differ};
ghost use Rattle.cert_maker.specs.Trace.{entries_of};
ghost use Rattle.btree_twigs.specs.Stubs.{Stub, Puts, Takes, datum};
ghost use Rattle.btree_update.specs.declared.groves.Grove.{Grove};
ghost use Rattle.btree_update.specs.Opens.{HasWay};
ghost use Rattle.btree_update.specs.Maps.{MapPuts, MapTakes};
ghost use Rattle.btree_update.specs.Groves.{IsSound, KeepsTree, places_of};
ghost use Rattle.grove_accounts.specs.Holding.{HoldsTree, Arrives, Turns, IsSameSize, IsTreeOf};
ghost use Rattle.grove_accounts.specs.Certs.{IsOwnStub, AreWritten, AddsNodes, IsSealedTree};

/// Where an image stands, the tree of its root record is what the record says.
pub fn root_holds()
    ensures { (image : Image) (device : Device) (root : Root) (parts : Parts) (grove : Grove) → StandsBy image device root parts → image.synced ≤ length image.recorded →
        IsTreeOf root grove → HoldsTree image root parts.places grove (parts ∷ []) }
{}

/// What an update brings into memory beside the tree changes nothing.
pub fn ready_holds()
    ensures { (image : Image) (root : Root) (committed : List Place) (old new : Grove) (each : List Parts) → KeepsTree old new → IsSound new →
        HoldsTree image root committed old each → HoldsTree image root committed new each }
{}

/// Pages that are added keep what a tree is.
pub fn holds_later()
    ensures { (image later : Image) (root : Root) (committed : List Place) (grove : Grove) (each : List Parts) → IsEarlier image later →
        HoldsTree image root committed grove each → HoldsTree later root committed grove each }
{}

/// With an insertion the tree has the block's record in the place of the one that was there, if one was, and keeps account of what it let go of.
pub fn insertion_holds()
    ensures holds { (image later : Image) (root : Root) (committed : List Place) (old new : Grove) (each : List Parts) (block addr : ℕ) (key content : List ℕ) →
        HoldsTree image root committed old each → IsSameSize old new → block < old.blocks → root.head ≤ length image.recorded →
        Turns image.readable block (HasWay block) (λ opened. Puts 0 old.blocks (datum block addr key) opened (places_of new)) old new → Arrives image later block addr key content →
        (after : List Parts) × HoldsTree later root committed new after
        × MapPuts (record { block = block; addr = addr; key = key; content = content }) (joined each).mapped (joined after).mapped }
    ensures own { (image : Image) (root : Root) (committed : List Place) (old new : Grove) (each : List Parts) (block addr : ℕ) (key : List ℕ) →
        HoldsTree image root committed old each → Turns image.readable block (HasWay block) (λ opened. Puts 0 old.blocks (datum block addr key) opened (places_of new)) old new →
        (s : Stub) → IsOwnStub root.head s → Contains (places_of new) s → (s ≡ datum block addr key) ⊎ Contains (places_of old) s }
    ensures written { (image : Image) (root : Root) (committed : List Place) (old new : Grove) (each : List Parts) (block addr : ℕ) (key : List ℕ) (pages : List Unkept) →
        HoldsTree image root committed old each → root.head ≤ addr → Turns image.readable block (HasWay block) (λ opened. Puts 0 old.blocks (datum block addr key) opened (places_of new)) old new →
        AreWritten root.head (places_of old) old.never.items pages → AreWritten root.head (places_of new) new.never.items (pages ++ record { block = block; addr = addr } ∷ []) }
{}

/// With a removal the tree is without the block's record, and keeps account of what it let go of.
pub fn removal_holds()
    ensures holds { (image : Image) (root : Root) (committed : List Place) (old new : Grove) (each : List Parts) (block : ℕ) (may : Stub → Bool) →
        HoldsTree image root committed old each → IsSameSize old new → block < old.blocks →
        Turns image.readable block (λ s. HasWay block s ⊎ IsTrue (may s)) (λ opened. Takes 0 old.blocks block opened (places_of new)) old new →
        (after : List Parts) × HoldsTree image root committed new after × MapTakes block (joined each).mapped (joined after).mapped }
    ensures own { (image : Image) (root : Root) (committed : List Place) (old new : Grove) (each : List Parts) (block : ℕ) (may : Stub → Bool) →
        HoldsTree image root committed old each → Turns image.readable block (λ s. HasWay block s ⊎ IsTrue (may s)) (λ opened. Takes 0 old.blocks block opened (places_of new)) old new →
        (s : Stub) → IsOwnStub root.head s → Contains (places_of new) s → Contains (places_of old) s }
    ensures written { (image : Image) (root : Root) (committed : List Place) (old new : Grove) (each : List Parts) (block : ℕ) (may : Stub → Bool) (pages : List Unkept) →
        HoldsTree image root committed old each → Turns image.readable block (λ s. HasWay block s ⊎ IsTrue (may s)) (λ opened. Takes 0 old.blocks block opened (places_of new)) old new →
        AreWritten root.head (places_of old) old.never.items pages → AreWritten root.head (places_of new) new.never.items pages }
{}

/// Once its nodes in memory have pages, what a tree let go of, and what it adds, is what the two trees differ by: the lists of the commit's certificate.
pub fn sealed_differs()
    ensures { (image : Image) (root : Root) (committed : List Place) (grove : Grove) (each : List Parts) (nodes after : List Place) (added : List Traced) (pages : List Unkept) →
        HoldsTree image root committed grove each → root.head ≤ length image.recorded → IsSealedTree image each nodes after →
        AddsNodes root.head nodes (places_of grove) added → AreWritten root.head (places_of grove) grove.never.items pages →
        Differ (entries_of committed) (entries_of after) pages added grove.gone.items grove.never.items }
{}

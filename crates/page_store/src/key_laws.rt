//! Laws of images and keys. The functions do nothing: each has its law as its contract.
ghost use Rattle.std.specs.Prelude.{◌≡◌, ℕ, List, Option, None, Some, [], ◌∷◌, ◌++◌, All, Contains, length};
ghost use Rattle.sdbt_base.specs.Keys.{bare};
ghost use Rattle.platform.specs.Image.{Image, MayLeave, MayHavePage, LeavesOnly, with_cell, all_synced};
ghost use Rattle.platform.specs.History.{History, During};
ghost use Rattle.seal_record.specs.Sealing.{Opens};
ghost use Rattle.root_codec.specs.declared.root.Root.{Root};
ghost use Rattle.root_codec.specs.RootRecord.{root_bytes};
ghost use Rattle.sdbt_base.specs.Arrays.{Device};
ghost use Rattle.page_store.specs.Tree.{Parts, Tree};
ghost use Rattle.page_store.specs.Stands.{StandsBy, Stands};
ghost use Rattle.key_graph.specs.Opening.{Yields};
ghost use Rattle.key_graph.specs.Chains.{Distinct, OneOpener};
ghost use Rattle.key_graph.specs.OwnKeys.{HaveOwnKeys};
ghost use Rattle.key_graph.specs.Maps.{IsClosed, AreFirst};
ghost use Rattle.page_store.specs.Kept.{links_of, Kept, ReachesTree};

/// A tree gives a map from addresses to keys that opening does not lead out of, from the key of its root record.
pub fn tree_is_closed()
    ensures { (pages : List (List ℕ)) (root : Root) (parts : Parts) → Tree pages root parts →
        IsClosed pages (bare root.key ∷ []) (links_of parts.places) }
{}

/// What keeps the keys of an image.
pub fn keeps_keys()
    ensures blank { (keys : List (List ℕ)) (image : Image) → image.recorded ≡ [] → image.cell ≡ None → Kept keys image }
    ensures drawn { (keys more : List (List ℕ)) (image : Image) → Kept keys image → Kept (keys ++ more) image }
    // A page that was, or may have been, handed over, sealed under a key that was drawn for it.
    ensures appended { (keys : List (List ℕ)) (key page : List ℕ) (image after : Image) (device : Option Device) →
        Stands image device → Kept keys image → Opens key (length image.recorded) page →
        ((other : List ℕ) → Yields key page other → Contains (keys ++ key ∷ []) other) →
        MayHavePage image page after → Kept (keys ++ key ∷ []) after }
    ensures synced { (keys : List (List ℕ)) (image : Image) → Kept keys image → Kept keys (all_synced image) }
    ensures cleared { (keys : List (List ℕ)) (image : Image) → Kept keys image → Kept keys (with_cell image None) }
    ensures swapped { (keys : List (List ℕ)) (image : Image) (device : Device) (root : Root) (parts : Parts) → Kept keys image →
        StandsBy (with_cell image (Some (root_bytes root))) device root parts → Contains keys (bare root.key) →
        All (λ p. Contains keys (bare p.key)) parts.places → Kept keys (with_cell image (Some (root_bytes root))) }
    // What a loss of power leaves is what the next run begins with.
    ensures left { (keys : List (List ℕ)) (image left : Image) (device : Option Device) →
        Stands image device → Kept keys image → MayLeave image left → Kept keys left }
{}

/// Chains from the root key of an image that stands and keeps its keys reach exactly its tree, where the keys are distinct
/// and each page, of those that came later too, is opened by one of them alone.
pub fn reaches_tree()
    ensures { (keys longer : List (List ℕ)) (image : Image) (device : Option Device) → Stands image device → Kept keys image →
        AreFirst image.recorded longer → HaveOwnKeys keys longer → Distinct keys → OneOpener keys longer → ReachesTree image }
{}

/// Where each moment of a run keeps the keys that there are at its end, and whatever a loss of power leaves then stands for a
/// device, chains of opening reach exactly the tree of what is left, at each moment.
pub fn moments_reach()
    ensures { (keys : List (List ℕ)) (old new : History) →
        During old new (λ image. (device : Option Device) × LeavesOnly (λ left. Stands left device) image) →
        During old new (Kept keys) → Distinct keys → OneOpener keys new.present.recorded →
        During old new (LeavesOnly ReachesTree) }
{}

ghost use Rattle.std.specs.Prelude.{◌<◌, ◌≤◌, ◌-◌, ◌*◌, ◌/◌, ◌^◌, ◌++◌, ℕ, suc, List, Option, length};
ghost use Rattle.node_codec.specs.declared.body.Entry.{Entry};
ghost use Rattle.root_codec.specs.declared.root.Root.{Root};
ghost use Rattle.page_store.specs.declared.wants.Want.{Want};
ghost use Rattle.page_store.specs.Places.{FitsAt, NothingFits};
ghost use Rattle.page_store.specs.Tree.{Parts, Subtree, Tree, WrongBelow};
ghost use Rattle.node_cache.specs.Cached.{Cached};
ghost use Rattle.btree_walk.specs.Sights.{Sees, Misses, StandsOver, KeepsOnly};
ghost use Rattle.btree_walk.specs.Finds.{Finds, Stops};
ghost use Rattle.btree_walk.specs.Mapped.{IsMappedAs};

/// A law: what is found below a place of a tree is the tree's entry of the block.
pub fn found_is_mapped()
    ensures { (pages : List (List ℕ)) (order level block : ℕ) (want : Want) (key path : List ℕ) (parts : Parts) (found : Option Entry) → want.addr < 2 ^ 64 →
        Subtree pages order (suc level) want key parts → Finds (FitsAt pages) order block found level want key path → IsMappedAs parts.mapped block found }
{}

/// A law: where a look-up stops, a place is wrong.
pub fn stopped_is_wrong()
    ensures { (pages : List (List ℕ)) (order level block addr : ℕ) (want : Want) (key : List ℕ) →
        Stops (FitsAt pages) order block (NothingFits pages) addr level want key → WrongBelow pages addr order (suc level) want key }
{}

/// A law: behind a cache whose nodes are what their pages are, what is seen is what the pages are; and such a cache
/// stays one.
pub fn sees_the_pages()
    ensures finds { (pages : List (List ℕ)) (cache : Cached) (order level block : ℕ) (want : Want) (key path : List ℕ) (found : Option Entry) → StandsOver pages cache →
        Finds (Sees cache.nodes pages) order block found level want key path → Finds (FitsAt pages) order block found level want key path }
    ensures stops { (pages : List (List ℕ)) (cache : Cached) (order level block addr : ℕ) (want : Want) (key : List ℕ) → want.addr < 2 ^ 64 → StandsOver pages cache →
        Stops (Sees cache.nodes pages) order block (Misses cache.nodes pages) addr level want key → Stops (FitsAt pages) order block (NothingFits pages) addr level want key }
    ensures stays { (pages : List (List ℕ)) (old new : Cached) → StandsOver pages old → KeepsOnly pages old new → StandsOver pages new }
{}

/// A law: a tree over pages is one over these and more.
pub fn stands_over_more_pages()
    ensures { (pages more : List (List ℕ)) (root : Root) (parts : Parts) → Tree pages root parts → Tree (pages ++ more) root parts }
{}

/// A law: a tree whose root is no leaf has at least two entries for each time that half the order goes into it, level by
/// level; so its level grows with the logarithm of its entries alone.
pub fn balance()
    ensures { (pages : List (List ℕ)) (root : Root) (parts : Parts) → Tree pages root parts → 2 ≤ root.level → 2 * (root.order / 2) ^ (root.level - 1) ≤ length parts.mapped }
{}

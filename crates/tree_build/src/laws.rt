//! Laws of builds. The functions do nothing: each has its law as its contract.
ghost use Rattle.std.specs.Prelude.{◌≡◌, ◌≤◌, ◌+◌, ℕ, List, map, length};
ghost use Rattle.node_codec.specs.declared.body.Entry.{Entry};
ghost use Rattle.root_codec.specs.declared.root.Root.{Root};
ghost use Rattle.tree_build.specs.Shape.{IsShaped, built, levels_over, shape_of};
ghost use Rattle.tree_build.specs.Nodes.{AreData, AreFrom, AreInOrder, AreNodes, HasTree, IsRootOver, places_of, planned, traced_of};

/// A law: the nodes of a build over data records make a tree, of the root record that names the last of them. It maps the blocks of the data
/// records to their contents, and its places are the data records and the nodes.
pub fn builds_a_tree()
    ensures { (pages : List (List ℕ)) (order blocks : ℕ) (records nodes : List Entry) (contents : List (List ℕ)) (root : Root)
        → IsShaped order (length records) → AreInOrder blocks records → AreData pages records contents → AreNodes pages order records nodes
        → IsRootOver order blocks records nodes root → HasTree pages order records nodes contents root }
{}

/// A law: a build makes at most one node more than there are data records, one at least, and 20 levels at most; and the shape has so many nodes.
pub fn few_nodes()
    ensures many { (order count : ℕ) → IsShaped order count → length (shape_of order count) ≡ built order count }
    ensures most { (order count : ℕ) → IsShaped order count → built order count ≤ count + 1 }
    ensures least { (order count : ℕ) → IsShaped order count → 1 ≤ built order count }
    ensures levels { (order count : ℕ) → IsShaped order count → (1 ≤ levels_over order count) × (levels_over order count ≤ 20) }
{}

/// A law: what was planned is what is said of the places, where the items have consecutive addresses.
pub fn planned_places()
    ensures { (order base : ℕ) (records nodes : List Entry) → IsShaped order (length records) → length nodes ≡ built order (length records)
        → AreFrom base records → AreFrom (base + length records) nodes
        → map traced_of (places_of order records nodes) ≡ planned order base (map (λ e. e.low) records) }
{}

//! Laws of listings, and of how many entries and levels a tree has. The functions do nothing: each has its law as its contract.
ghost use Rattle.std.specs.Prelude.{◌≡◌, ◌≤◌, ◌-◌, ◌*◌, ◌/◌, ◌^◌, ℕ, List, All, AllPairs, length, map};
ghost use Rattle.root_codec.specs.declared.root.Root.{Root};
ghost use Rattle.root_codec.specs.RootRecord.{FitsRoot};
ghost use Rattle.page_store.specs.Tree.{Parts, Tree, Wrong};
ghost use Rattle.btree_walk.specs.Nodes.{Node, NodesOf, FirstWrongOf, listed};
ghost use Rattle.btree_walk.specs.Mapped.{ApartByKey, ComesBefore, IsListedWithin, entry_of, node_addrs};

/// A law: the nodes of a tree list what it has, its mapped blocks and the addresses of its nodes, both in order; and none
/// of them is refused.
pub fn lists_the_tree()
    ensures entries { (pages : List (List ℕ)) (root : Root) (parts : Parts) (nodes : List Node) → FitsRoot root → Tree pages root parts →
        NodesOf pages root nodes → listed nodes ≡ map entry_of parts.mapped }
    ensures addrs { (pages : List (List ℕ)) (root : Root) (parts : Parts) (nodes : List Node) → FitsRoot root → Tree pages root parts →
        NodesOf pages root nodes → map (λ n. n.addr) nodes ≡ node_addrs parts.places }
    ensures stands { (pages : List (List ℕ)) (root : Root) (parts : Parts) (addr : ℕ) → FitsRoot root → Tree pages root parts → ¬ (FirstWrongOf pages root addr) }
{}

/// A law: pages decide what a walk answers. The nodes of a root record are one list at most, one of them at most is the first
/// that does not fit, and only one of these two is so; where one does not fit, that is a wrong place.
pub fn one_listing()
    ensures nodes { (pages : List (List ℕ)) (root : Root) (one other : List Node) → FitsRoot root → NodesOf pages root one → NodesOf pages root other → one ≡ other }
    ensures wrong { (pages : List (List ℕ)) (root : Root) (one other : ℕ) → FitsRoot root → FirstWrongOf pages root one → FirstWrongOf pages root other → one ≡ other }
    ensures either { (pages : List (List ℕ)) (root : Root) (nodes : List Node) (addr : ℕ) → FitsRoot root → NodesOf pages root nodes → ¬ (FirstWrongOf pages root addr) }
    ensures is_wrong { (pages : List (List ℕ)) (root : Root) (addr : ℕ) → FirstWrongOf pages root addr → Wrong pages root addr }
{}

/// A law: over any pages, no more entries are listed than there are blocks; so a list takes no more memory than that.
pub fn lists_few()
    ensures { (pages : List (List ℕ)) (root : Root) (nodes : List Node) → FitsRoot root → NodesOf pages root nodes → length (listed nodes) ≤ root.blocks }
{}

/// A law: listed entries are in the order of their blocks, of which each is one of the device, and their data records lie
/// below the root node; and so lies each place of a tree.
pub fn lists_in_order()
    ensures ordered { (pages : List (List ℕ)) (root : Root) (nodes : List Node) → FitsRoot root → NodesOf pages root nodes → AllPairs ComesBefore (listed nodes) }
    ensures within { (pages : List (List ℕ)) (root : Root) (nodes : List Node) → FitsRoot root → NodesOf pages root nodes → All (IsListedWithin 0 root.blocks root.addr) (listed nodes) }
    ensures addrs { (pages : List (List ℕ)) (root : Root) (parts : Parts) → Tree pages root parts → All (λ p. p.addr ≤ root.addr) parts.places }
{}

/// A law: a tree has at most as many entries as blocks; and where there are at most 1,048,576, so many entries as the
/// balance asks for are of no level above 20.
pub fn no_level_above()
    ensures count { (pages : List (List ℕ)) (root : Root) (parts : Parts) → FitsRoot root → Tree pages root parts → length parts.mapped ≤ root.blocks }
    ensures level { (order level count : ℕ) → 4 ≤ order → count ≤ 1048576 → 2 * (order / 2) ^ (level - 1) ≤ count → level ≤ 20 }
{}

/// A law: a page stands, under one key, at one place of a tree at most, be it a leaf, another node or a data record.
pub fn one_place()
    ensures { (pages : List (List ℕ)) (root : Root) (parts : Parts) → FitsRoot root → Tree pages root parts → AllPairs ApartByKey parts.places }
{}

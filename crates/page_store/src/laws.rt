//! Laws of trees and of what images stand for. The functions do nothing: each has its law as its contract.
ghost use Rattle.std.specs.Prelude.{◌≡◌, ℕ, List, Option, Some};
ghost use Rattle.platform.specs.Image.{Image, IsEarlier, LeavesOnly};
ghost use Rattle.platform.specs.History.{History, During};
ghost use Rattle.node_codec.specs.declared.body.Entry.{Entry};
ghost use Rattle.root_codec.specs.declared.root.Root.{Root};
ghost use Rattle.root_codec.specs.RootRecord.{FitsRoot};
ghost use Rattle.sdbt_base.specs.Arrays.{Device};
ghost use Rattle.page_store.specs.Tree.{Parts, Tree, Wrong};
ghost use Rattle.page_store.specs.Stands.{StandsBy, Stands};
ghost use Rattle.page_store.specs.Leaf.{leaf_parts, StandsByLeaf};

/// Over the same pages a root has one tree at most.
pub fn one_tree()
    ensures { (pages : List (List ℕ)) (root : Root) (one other : Parts) → FitsRoot root →
        Tree pages root one → Tree pages root other → one ≡ other }
{}

/// Where a root has a tree, none of its places is wrong.
pub fn no_wrong_place()
    ensures { (pages : List (List ℕ)) (root : Root) (parts : Parts) (addr : ℕ) → FitsRoot root →
        Tree pages root parts → ¬ (Wrong pages root addr) }
{}

/// An image stands for one device at most.
pub fn one_device()
    ensures { (image : Image) (one other : Option Device) →
        Stands image one → Stands image other → one ≡ other }
{}

/// As long as the cell stays as it is, a later image, and what a loss of power leaves of it, stands for the same device.
pub fn outlasts_loss_of_power()
    ensures { (image later : Image) (device : Option Device) →
        IsEarlier image later → later.cell ≡ image.cell → Stands image device →
        LeavesOnly (λ left. Stands left device) later }
{}

/// As long as the cell stays as it was, what a loss of power leaves of any moment's image stands for the same device.
pub fn stays_while_the_cell_stays()
    ensures { (old new : History) (device : Option Device) → Stands old.present device →
        During old new (λ image. image.cell ≡ old.present.cell) →
        During old new (LeavesOnly (λ left. Stands left device)) }
{}

/// An image that stands for a device by a leaf stands for it by the tree of that leaf, and so for no other one.
pub fn stands_by_leaf()
    ensures tree { (image : Image) (device : Device) (root : Root) (entries : List Entry) (contents : List (List ℕ)) →
        StandsByLeaf image device root entries contents →
        StandsBy image device root (leaf_parts root.addr root.key entries contents) }
    ensures stands { (image : Image) (device : Device) (root : Root) (entries : List Entry) (contents : List (List ℕ)) →
        StandsByLeaf image device root entries contents → Stands image (Some device) }
{}

/// An image that stands for a device by a root at level 1 stands for it by a leaf, and the parts are that leaf's.
pub fn leaf_of_stands()
    ensures { (image : Image) (device : Device) (root : Root) (parts : Parts) →
        root.level ≡ 1 → StandsBy image device root parts →
        (entries : List Entry) × (contents : List (List ℕ)) ×
        StandsByLeaf image device root entries contents ×
        (parts ≡ leaf_parts root.addr root.key entries contents) }
{}

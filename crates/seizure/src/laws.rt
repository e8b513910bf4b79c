//! Laws of seizures. The functions do nothing: each has its law as its contract.
ghost use Rattle.std.specs.Prelude.{◌≡◌, ◌≢◌, ◌↔◌, ℕ, List, [], ◌∷◌, AllPairs, Contains, length};
ghost use Rattle.std.specs.FinMap as map;
ghost use Rattle.sdbt_base.specs.Arrays.{Device};
ghost use Rattle.sdbt_base.specs.Keys.{bare};
ghost use Rattle.platform.specs.Image.{Image};
ghost use Rattle.root_codec.specs.declared.root.Root.{Root};
ghost use Rattle.key_graph.specs.Chains.{ReachedBody, KeyPremises};
ghost use Rattle.page_store.specs.Tree.{Parts};
ghost use Rattle.page_store.specs.Kept.{Kept};
ghost use Rattle.page_store.specs.Stands.{StandsBy};
ghost use Rattle.seizure.specs.Opened.{count_of_kind};
ghost use Rattle.seizure.specs.Report.{Seized, IsSeizure};

/// Where chains come to one body of a kind at an address at most, a seizure counts as many of that kind as there are
/// addresses of such bodies: of kind 1, as many as a tree that is reached exactly has data records.
pub fn counted_by_address()
    ensures { (roots pages : List (List ℕ)) (seized : Seized) (kind : ℕ) (addrs : List ℕ) → IsSeizure roots pages seized →
        AllPairs (λ one other. one ≢ other) addrs →
        ((addr : ℕ) → Contains addrs addr ↔ ((block : ℕ) × ReachedBody roots pages addr kind block)) →
        ((addr one other : ℕ) → ReachedBody roots pages addr kind one → ReachedBody roots pages addr kind other → one ≡ other) →
        count_of_kind kind seized.opened ≡ length addrs }
{}

/// Of an image that stands for a device, whatever number of levels its tree has, a seizure from its root record counts as
/// many data records as the tree has entries, under the premises on keys; and these are as many as the device has blocks.
pub fn a_seizure_counts_mapped_blocks()
    ensures entries { (keys : List (List ℕ)) (image : Image) (device : Device) (root : Root) (parts : Parts) (seized : Seized) → StandsBy image device root parts →
        Kept keys image → KeyPremises keys image.recorded → image.readable ≡ image.recorded → IsSeizure (bare root.key ∷ []) image.readable seized →
        count_of_kind 1 seized.opened ≡ length parts.mapped }
    ensures blocks { (image : Image) (device : Device) (root : Root) (parts : Parts) → StandsBy image device root parts →
        length parts.mapped ≡ map.len device.contents }
{}

//! Laws of what is deleted. The functions do nothing: each has its law as its contract.
ghost use Rattle.std.specs.Prelude.{◌≡◌, ◌≤◌, ◌^◌, ℕ, List, Option, length};
ghost use Rattle.sdbt_base.specs.Keys.{key_size};
ghost use Rattle.record_versions.specs.Versions.{IsVersion};
ghost use Rattle.platform.specs.Image.{LeavesOnly};
ghost use Rattle.key_graph.specs.Chains.{Distinct, OneOpener};
ghost use Rattle.sdbt_base.specs.Arrays.{Device};
ghost use Rattle.root_codec.specs.declared.root.Root.{Root};
ghost use Rattle.root_codec.specs.RootRecord.{root_bytes};
ghost use Rattle.platform.specs.History.{History, During};
ghost use Rattle.page_store.specs.Kept.{Kept, ReachesTree};
ghost use Rattle.page_store.specs.Stands.{Stands, IsSound};
ghost use Rattle.page_store.specs.Floors.{head_in, Forgets, KeepsDeleted, NeverReached, ReachesStill};

/// The head field of a root record.
pub fn head_of_root()
    ensures { (root : Root) → root.head ≤ 2 ^ 32 → IsVersion root.version → length root.key ≡ key_size root.version → head_in (root_bytes root) ≡ root.head }
{}

/// A run of calls, each of which forgets, keeps deleted what was deleted.
pub fn keeps_deleted()
    ensures start { (history : History) → IsSound history.present → KeepsDeleted history history }
    ensures more { (start old new : History) → KeepsDeleted start old → Forgets old new → KeepsDeleted start new }
    ensures then { (start mid new : History) → KeepsDeleted start mid → KeepsDeleted mid new → KeepsDeleted start new }
{}

/// Where chains of opening reach exactly the tree of each moment, what was deleted is reached no more.
pub fn never_reached()
    ensures { (old new : History) → KeepsDeleted old new → During old new ReachesTree → NeverReached old new }
{}

/// Where each moment of a run keeps the keys that there are at its end, the root key of a moment reaches, over the pages of
/// each later one, exactly the tree of its own moment.
pub fn reaches_still()
    ensures { (keys : List (List ℕ)) (old new : History) →
        During old new (λ image. (device : Option Device) × LeavesOnly (λ left. Stands left device) image) →
        During old new (Kept keys) → Distinct keys → OneOpener keys new.present.recorded → ReachesStill old new }
{}

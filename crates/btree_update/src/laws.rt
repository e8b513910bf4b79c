//! Laws of trees that are partly in memory. The functions do nothing: each has its law as its contract.
ghost use Rattle.std.specs.Prelude.{ℕ, List, All, suc, length, map, ◌<◌, ◌≤◌, ◌^◌};
ghost use Rattle.std.specs.List.Sorted.{IsStrictlyIncreasing};
ghost use Rattle.node_codec.specs.declared.body.Entry.{Entry};
ghost use Rattle.node_codec.specs.Record.{DataRecord, NodeRecord};
ghost use Rattle.page_store.specs.declared.wants.Want.{Want};
ghost use Rattle.page_store.specs.Places.{IsRecordAt, FitsAt};
ghost use Rattle.page_store.specs.Tree.{Parts, Mapped, Subtree, joined, node_parts};
ghost use Rattle.btree_twigs.specs.Stubs.{Stub, Puts, Takes, datum};
ghost use Rattle.btree_update.specs.GroveTree.{HasEach, Maps, stubs_at};
ghost use Rattle.btree_update.specs.Maps.{MapPuts, MapTakes, HasBlock};
ghost use Rattle.btree_update.specs.Opens.{Opens};
ghost use Rattle.btree_update.specs.declared.groves.Grove.{Grove};
ghost use Rattle.btree_update.specs.Groves.{IsSound, GroveMaps};

/// What is put among the places below the nodes in memory is put into what they map.
pub fn put_maps()
    ensures { (pages : List (List ℕ)) (order low high block addr : ℕ) (key content : List ℕ) (old new : List Stub) (mapped : List Mapped) →
        Puts low high (datum block addr key) old new → Maps pages order old mapped → IsRecordAt pages addr key (DataRecord block content) →
        (after : List Mapped) × Maps pages order new after × MapPuts (record { block = block; addr = addr; key = key; content = content }) mapped after }
{}

/// What is taken away among the places below the nodes in memory is taken out of what they map.
pub fn take_maps()
    ensures { (pages : List (List ℕ)) (order low high block : ℕ) (old new : List Stub) (mapped : List Mapped) → Takes low high block old new → Maps pages order old mapped →
        (after : List Mapped) × Maps pages order new after × MapTakes block mapped after }
{}

/// The places below a node that was read from its page map what the node maps.
pub fn read_maps()
    ensures { (pages : List (List ℕ)) (order level : ℕ) (want : Want) (key : List ℕ) (parts : Parts) (entries : List Entry) → want.addr < 2 ^ 64 →
        Subtree pages order (suc level) want key parts → IsRecordAt pages want.addr key (NodeRecord (suc level) entries) →
        Maps pages order (stubs_at level want.high entries) parts.mapped }
{}

/// A node that was sealed over places is a place of a tree, and maps what they map.
pub fn sealed_is()
    ensures { (pages : List (List ℕ)) (order level : ℕ) (want : Want) (key : List ℕ) (entries : List Entry) (parts : List Parts) →
        FitsAt pages want key (NodeRecord (suc level) entries) → HasEach pages order (stubs_at level want.high entries) parts →
        Subtree pages order (suc level) want key (node_parts want.addr key entries (joined parts)) }
{}

/// What is opened maps what it mapped.
pub fn opened_maps()
    ensures { (pages : List (List ℕ)) (order : ℕ) (places old new : List Stub) (mapped : List Mapped) →
        Opens pages order places old new → Maps pages order old mapped → Maps pages order new mapped }
{}

/// A tree whose root is no leaf maps as many blocks at least as two to the power of its level.
pub fn grove_maps_many()
    ensures { (pages : List (List ℕ)) (grove : Grove) (mapped : List Mapped) → IsSound grove → GroveMaps pages grove mapped → 2 ≤ grove.level → 2 ^ grove.level ≤ length mapped }
{}

/// The blocks that a tree maps ascend, and are blocks of its device.
pub fn grove_maps_ascend()
    ensures { (pages : List (List ℕ)) (grove : Grove) (mapped : List Mapped) → IsSound grove → GroveMaps pages grove mapped →
        IsStrictlyIncreasing (map (λ m. m.block) mapped) × All (λ m. m.block < grove.blocks) mapped }
{}

/// A tree maps every block of its device, where it maps as many as that has, or where that has no more of them than two to the power of the
/// tree's level.
pub fn grove_maps_all()
    ensures filled { (pages : List (List ℕ)) (grove : Grove) (mapped : List Mapped) (block : ℕ) → IsSound grove → GroveMaps pages grove mapped →
        grove.blocks ≤ length mapped → block < grove.blocks → HasBlock block mapped }
    ensures high { (pages : List (List ℕ)) (grove : Grove) (mapped : List Mapped) (block : ℕ) → IsSound grove → GroveMaps pages grove mapped →
        2 ≤ grove.level → grove.blocks ≤ 2 ^ grove.level → block < grove.blocks → HasBlock block mapped }
{}

ghost use Rattle.std.specs.Prelude.{◌≡◌, ◌↔◌, ◌⊎◌, ◌<◌, ◌≤◌, ◌+◌, ◌-◌, ◌*◌, ◌^◌, ℕ, List, [], None, suc, vec_len, vec_capacity, IfOk, IfSome, IsErrOf, IsTrue, IsFalse, Bool, Contains, length};
ghost use Rattle.root_codec.specs.RootRecord.{FitsRoot};
ghost use Rattle.node_codec.specs.declared.body.Entry.{Entry};
ghost use Rattle.node_codec.specs.Record.{DataRecord};
ghost use Rattle.page_store.specs.Places.{IsRecordAt};
ghost use Rattle.page_store.specs.Tree.{Parts, Mapped, Tree};
ghost use Rattle.btree_twigs.specs.declared.twigs.Child.TheVariants.{Kept};
ghost use Rattle.btree_twigs.specs.Stubs.{Stub, Puts, Takes, datum, stubs};
ghost use Rattle.btree_twigs.specs.Levels.{Node, Reshape, ReshapeDown};
ghost use Rattle.btree_update.specs.LetGo.{AreWiped, AreWipedBeside, AreAsWide, AreAsWideBeside, IsWipedRoot, IsWipedGrove, IsAsWide};
ghost use Rattle.btree_update.specs.Opens.{HasWay};
ghost use Rattle.btree_twigs.specs.Updates.{IsOpen, HasSpares, width_of};
ghost use Rattle.btree_twigs.specs.Top.{IsTop};
ghost use Rattle.btree_update.specs.Maps.{MapPuts, MapTakes, HasBlock, LacksBlock};
ghost use Rattle.sdbt_base.specs.Faults.{TellsOf};
ghost use Rattle.std.specs.Bool.{OnTrue, OnFalse};
ghost use Rattle.std.specs.declared.vec.Vec.{Vec};
ghost use Rattle.std.specs.declared.alloc.Global.{Global};
ghost use Rattle.btree_walk.specs.Looks.{Looks};
ghost use Rattle.btree_walk.specs.Mapped.{IsMappedAs};
ghost use Rattle.btree_walk.specs.Sights.{CachedFits, StandsOver};
ghost use Rattle.btree_update.specs.Among.{HaveNodes, CachesAmong};
ghost use Rattle.btree_twigs.specs.declared.twigs.Child.{Child, out-Child};
ghost use Rattle.btree_update.specs.declared.refusals.ReadyRefusal.{ReadyRefusal};
ghost use Rattle.btree_update.specs.Held.{Bound, bound, AreBelow};
ghost use Rattle.btree_update.specs.Holding.{HoldsFew, AddsSpares};
ghost use Rattle.btree_update.specs.Finding.{RootFinds, GroveFinds, GroveStops, KeepsWay, UsesCache};
ghost use Rattle.btree_update.specs.Warm.{CachesWay};
ghost use Rattle.btree_update.specs.Groves.{KeepsTree, IsSound, IsReadFrom, IsReadBeside, IsReadBesideAt, HasLevels, RefusesWrong, MayRise, CanInsert, CanRemove, GroveMaps, places_of, grown_in, IsAddressOf, LetsGo, Goes};

use crate::counting::count;
use crate::finding::find_root;
use crate::helping::help_root;
use crate::holding::{hold_way, least_of_root};
use crate::lacking::lacks_root;
use crate::opening::{note, open_root};
use crate::refusals::ReadyRefusal;
use crate::siblings::is_mapped;
use btree_twigs::{Child, Spot, Twig, find, level_of, put_top, take_top, wipe};
use btree_walk::NodeReader;
use node_cache::NodeCache;
use node_codec::Entry;
use page_store::FetchRefusal;
use platform::Platform;
use root_codec::Root;
use sdbt_base::{Key, Unkept};
use std::alloc::Global;

/// A device's tree while it is updated: some of its nodes are in memory, and the others on the medium as the last commit left
/// them.
pub struct Grove {
    order: u16,
    blocks: u64,
    head: u64,
    level: u8,
    top: Child,
    gone: Vec<u64>,
    never: Vec<Unkept>,
    held: Vec<Twig>,
    beside: Vec<Option<Twig>>,
    spares: Vec<Vec<Child>>,
}

impl Grove {
    /// The tree of a root record, with no node in memory. It takes no memory.
    pub fn of(alloc: Global, root: &Root) -> Grove
        requires root { FitsRoot root.now }
        ensures sound { IsSound result }
        ensures size { (result.order ≡ root.now.order) × (result.blocks ≡ root.now.blocks) × (result.head ≡ root.now.head) × (result.level ≡ root.now.level) }
        ensures top { result.top ≡ Kept 0 root.now.addr root.now.key }
        ensures lists { (result.gone.items ≡ []) × (result.never.items ≡ []) }
        ensures none_held { (result.held.items ≡ []) × (result.beside.items ≡ []) × (result.spares.items ≡ []) }
        ensures levels { (pages : List (List ℕ)) (parts : Parts) → Tree pages root.now parts → (levels : ℕ → List Node) × HasLevels pages result levels }
        ensures below { (head : ℕ) → root.now.addr < head → AreBelow (bound head (length root.now.key)) (places_of result) }
    {
        Grove {
            order: root.order,
            blocks: root.blocks,
            head: root.head,
            level: root.level,
            top: Child::Kept {
                low: 0,
                addr: root.addr,
                key: root.key,
            },
            gone: Vec::new(alloc),
            never: Vec::new(alloc),
            held: Vec::new(alloc),
            beside: Vec::new(alloc),
            spares: Vec::new(alloc),
        }
    }

    /// The root.
    pub fn top(&self) -> &Child
        ensures { result.now ≡ self.now.top }
    {
        &self.top
    }

    /// The committed addresses that were replaced or trimmed, and those of the committed nodes that are in memory now.
    pub fn gone(&self) -> &[u64]
        ensures { result.now ≡ self.now.gone.items }
    {
        &self.gone
    }

    /// The data pages that were written since the last commit, and replaced or trimmed.
    pub fn never(&self) -> &[Unkept]
        ensures { result.now ≡ self.now.never.items }
    {
        &self.never
    }

    /// The level of the root.
    pub fn level(&self) -> u8
        ensures { result ≡ self.now.level }
    {
        self.level
    }

    /// How many nodes are in memory.
    pub fn grown(&self) -> u64
        requires { IsSound self.now }
        ensures { result ≡ grown_in self.now }
    {
        // There are fewer than blocks, whose number is in range.
        let _blocks = self.blocks;
        count(&self.top, self.level)
    }

    /// The entry of a block, or `None` where it isn't mapped: from the nodes in memory, and below them from the medium, through the
    /// cache. `BadRecord` names a node on the way to the block that does not fit. No page is read where the cache keeps the way, as it does
    /// after an `Ok` where it has room for a node of each level.
    pub fn find<P: Platform>(
        &self,
        block: u64,
        platform: &mut P,
        reader: &mut NodeReader,
    ) -> Result<Option<Entry>, FetchRefusal>
        requires sound { IsSound self.now }
        requires to { block < self.now.blocks }
        requires within { (size : ℕ) × AreBelow (bound (P.head platform.old) size) (places_of self.now) }
        ensures found { P.tells → StandsOver (P.history platform.old).present.readable reader.old.cache → IfOk result (GroveFinds (P.history platform.old).present.readable block self.now) }
        ensures maps { P.tells → StandsOver (P.history platform.old).present.readable reader.old.cache → (mapped : List Mapped) → GroveMaps (P.history platform.old).present.readable self.now mapped →
            IfOk result (IsMappedAs mapped block) }
        ensures bad { P.tells → StandsOver (P.history platform.old).present.readable reader.old.cache → (addr : ℕ) → IsErrOf result (FetchRefusal.BadRecord addr) →
            GroveStops (P.history platform.old).present.readable block addr self.now }
        // Where the tree maps anything at all, no node is refused.
        ensures fits { P.tells → StandsOver (P.history platform.old).present.readable reader.old.cache → (mapped : List Mapped) → GroveMaps (P.history platform.old).present.readable self.now mapped →
            (addr : ℕ) → ¬ (IsErrOf result (FetchRefusal.BadRecord addr)) }
        ensures entry { IfOk result (λ found. IfSome found (λ e. (e.low ≡ block) × (e.addr < P.head platform.old))) }
        // What is cached is of the places that lead down from the nodes that the tree names.
        ensures caches { CachesAmong P.Platform (λ pages. HaveNodes pages (places_of self.now)) platform.old reader.old.cache reader.new.cache }
        ensures looks { Looks P.Platform self.now.level platform.old platform.new }
        ensures cause { TellsOf FetchRefusal.PlatformFault result (P.faults platform.old) (P.faults platform.new) }
        ensures uses { UsesCache P.Platform (λ kept. KeepsWay kept block self.now) self.now.level platform.old platform.new reader.old.cache reader.new.cache result }
    {
        find_root(
            platform,
            reader,
            self.order,
            block,
            &self.top,
            self.level,
            self.blocks,
        )
    }

    /// Whether the nodes in memory, and below them the cache, already say that a block isn't mapped. It reads nothing and changes nothing, nor
    /// the order in which nodes of the cache were used: where a node on the way is in neither, or does not fit, the answer is no.
    pub fn lacks(&self, block: u64, cache: &NodeCache) -> bool
        requires sound { IsSound self.now }
        requires to { block < self.now.blocks }
        requires within { (head size : ℕ) × (head ≤ 2 ^ 64) × AreBelow (bound head size) (places_of self.now) }
        ensures finds { IsTrue result ↔ RootFinds (CachedFits cache.now.nodes) self.now.order block (self.now.level - 1) self.now.blocks self.now.top None }
        // Over pages that say what the cache keeps, a look-up finds no entry of the block, and the tree maps it to nothing.
        ensures found { (pages : List (List ℕ)) → StandsOver pages cache.now → IsTrue result → GroveFinds pages block self.now None }
        ensures maps { (pages : List (List ℕ)) → StandsOver pages cache.now → IsTrue result → (mapped : List Mapped) → GroveMaps pages self.now mapped → LacksBlock block mapped }
    {
        lacks_root(cache, self.order, block, &self.top, self.level, self.blocks)
    }

    /// Reads what an update of a block may need, through the cache, and takes all memory that it may take; the tree is the same.
    /// Answers whether the block is mapped. `BadRecord` names a node on the way to the block, or beside it, that does not fit.
    pub fn ready<P: Platform>(
        &mut self,
        alloc: Global,
        block: u64,
        platform: &mut P,
        reader: &mut NodeReader,
    ) -> Result<bool, ReadyRefusal>
        requires sound { IsSound self.old }
        requires to { block < self.old.blocks }
        requires within { (size : ℕ) × AreBelow (bound (P.head platform.old) size) (places_of self.old) }
        // What was held before is not held any more. A node is read for each that is held now, at most, and none beside the way is held for a block that isn't
        // mapped; and no more lists for new nodes are taken than the update may need.
        ensures can { IfOk result (λ mapped. CanInsert block self.new × (IsTrue mapped → CanRemove block self.new)
            × HoldsFew P.Platform self.old.level (self.old.level - 1) platform.old platform.new [] self.new.held.items [] self.new.beside.items (IsFalse mapped)
            × AddsSpares (self.old.level + 1) self.old.spares.items self.new.spares.items) }
        ensures reads { P.tells → StandsOver (P.history platform.old).present.readable reader.old.cache →
            IfOk result (λ mapped. IsReadFrom (P.history platform.old).present.readable block self.new × (IsTrue mapped → IsReadBeside (P.history platform.old).present.readable block self.new)) }
        ensures mapped { P.tells → StandsOver (P.history platform.old).present.readable reader.old.cache →
            IfOk result (λ mapped. (map : List Mapped) → GroveMaps (P.history platform.old).present.readable self.old map → OnTrue mapped (HasBlock block map) × OnFalse mapped (LacksBlock block map)) }
        // The answer is what a look-up finds.
        ensures finds { P.tells → StandsOver (P.history platform.old).present.readable reader.old.cache →
            IfOk result (λ mapped. OnTrue mapped ((entry : Entry) × GroveFinds (P.history platform.old).present.readable block self.old (Some entry))
            × OnFalse mapped (GroveFinds (P.history platform.old).present.readable block self.old None)) }
        ensures bad { P.tells → StandsOver (P.history platform.old).present.readable reader.old.cache →
            RefusesWrong (P.history platform.old).present.readable block self.old (λ addr. IsErrOf result (ReadyRefusal.BadRecord addr)) }
        ensures sound { IsSound self.new }
        ensures tree { KeepsTree self.old self.new }
        // What is cached is of the places that lead down from the nodes that the tree names. Where the cache keeps the way, no more
        // pages are read than neighbours are held beside it, and one for each level above the leaves at most. After an `Ok` it keeps the
        // way, where it has room for a node and a neighbour of each level, and no page among such places has two keys.
        ensures caches { CachesWay P.Platform (λ pages. HaveNodes pages (places_of self.old)) (λ kept. KeepsWay kept block self.old)
            (λ _ kept. KeepsWay kept block self.old) (self.old.level - 1) (2 * self.old.level - 1)
            platform.old platform.new reader.old.cache reader.new.cache [] self.new.beside.items result }
        ensures looks { Looks P.Platform (2 * self.old.level) platform.old platform.new }
        ensures cause { TellsOf ReadyRefusal.PlatformFault result (P.faults platform.old) (P.faults platform.new) }
    {
        let_go_held(&mut self.held, &mut self.beside);
        let least = least_of_root(self.level);
        let left = hold_way(
            alloc,
            platform,
            reader,
            self.order,
            least,
            block,
            &self.top,
            self.level,
            self.blocks,
            &mut self.held,
            &mut self.beside,
        )?;
        make_spares(alloc, self.level, &mut self.spares)?;
        make_room(
            self.held.len(),
            self.beside.len(),
            &mut self.gone,
            &mut self.never,
        )?;
        Ok(is_mapped(left))
    }

    /// Maps a block to a data record, once all is at hand that this may need. The address of the record that it had is gone, where it
    /// was committed, and else never committed.
    pub fn insert(&mut self, block: u64, addr: u64, key: Key)
        requires can { CanInsert block self.old }
        requires small { self.old.level < 255 }
        ensures sound { IsSound self.new }
        ensures top { IsTop self.new.order (self.new.level - 1) self.new.blocks self.new.top }
        // No memory is taken for what is let go.
        ensures size { (self.new.order ≡ self.old.order) × (self.new.blocks ≡ self.old.blocks) × (self.new.head ≡ self.old.head)
            × (vec_capacity self.new.gone ≡ vec_capacity self.old.gone) × (vec_capacity self.new.never ≡ vec_capacity self.old.never) }
        ensures level { MayRise block self.old self.new }
        ensures has { Contains (places_of self.new) (datum block addr key) }
        ensures maps { (pages : List (List ℕ)) (mapped : List Mapped) (content : List ℕ) → IsReadFrom pages block self.old → GroveMaps pages self.old mapped
            → IsRecordAt pages addr key (DataRecord block content)
            → (after : List Mapped) × GroveMaps pages self.new after × MapPuts (record { block = block; addr = addr; key = key; content = content }) mapped after }
        ensures goes { (pages : List (List ℕ)) → IsReadFrom pages block self.old
            → Goes pages self.old.order self.old.level self.old.head block (HasWay block) (λ opened. Puts 0 self.old.blocks (datum block addr key) opened (places_of self.new))
            (places_of self.old) self.old.gone.items self.new.gone.items self.old.never.items self.new.never.items }
        ensures levels { (pages : List (List ℕ)) (levels : ℕ → List Node) → IsReadFrom pages block self.old → HasLevels pages self.old levels
            → (after : ℕ → List Node) × HasLevels pages self.new after × Reshape self.old.order block self.old.level self.new.level levels after }
        ensures below { (most : Bound) → AreBelow most (places_of self.old) → addr < most.head → length key ≡ most.size → AreBelow most (places_of self.new) }
        ensures grown { grown_in self.new ≤ grown_in self.old + (2 * self.old.level + 1) }
    {
        open_root(
            &mut self.top,
            self.level,
            block,
            &mut self.held,
            &mut self.gone,
        );
        let old = address_of(&self.top, block, self.blocks);
        let_go(self.head, block, old, &mut self.gone, &mut self.never);
        put_top(
            &mut self.top,
            self.order as usize,
            block,
            addr,
            key,
            &mut self.spares,
        );
        self.level = level_of(&self.top);
    }

    /// Maps a block to nothing, once all is at hand that this may need. The address of the record that it had is gone, where it
    /// was committed, and else never committed.
    pub fn remove(&mut self, block: u64)
        requires can { CanRemove block self.old }
        ensures sound { IsSound self.new }
        ensures top { IsTop self.new.order (self.new.level - 1) self.new.blocks self.new.top }
        // No memory is taken for what is let go.
        ensures size { (self.new.order ≡ self.old.order) × (self.new.blocks ≡ self.old.blocks) × (self.new.head ≡ self.old.head)
            × (vec_capacity self.new.gone ≡ vec_capacity self.old.gone) × (vec_capacity self.new.never ≡ vec_capacity self.old.never) }
        ensures level { (self.new.level ≡ self.old.level) ⊎ (self.new.level + 1 ≡ self.old.level) }
        ensures maps { (pages : List (List ℕ)) (mapped : List Mapped) → IsReadFrom pages block self.old → IsReadBeside pages block self.old → GroveMaps pages self.old mapped
            → (after : List Mapped) × GroveMaps pages self.new after × MapTakes block mapped after }
        // Beside the way no place is opened but those for which a neighbour's node is held.
        ensures goes { (pages : List (List ℕ)) (may : Stub → Bool) → IsReadFrom pages block self.old → IsReadBesideAt pages may block self.old
            → Goes pages self.old.order self.old.level self.old.head block (λ s. HasWay block s ⊎ IsTrue (may s)) (λ opened. Takes 0 self.old.blocks block opened (places_of self.new))
            (places_of self.old) self.old.gone.items self.new.gone.items self.old.never.items self.new.never.items }
        ensures levels { (pages : List (List ℕ)) (levels : ℕ → List Node) → IsReadFrom pages block self.old → IsReadBeside pages block self.old → HasLevels pages self.old levels
            → (after : ℕ → List Node) × HasLevels pages self.new after × ReshapeDown self.old.order block self.old.level self.new.level levels after }
        ensures below { (most : Bound) → AreBelow most (places_of self.old) → AreBelow most (places_of self.new) }
        ensures grown { grown_in self.new ≤ grown_in self.old + 2 * self.old.level }
    {
        open_root(
            &mut self.top,
            self.level,
            block,
            &mut self.held,
            &mut self.gone,
        );
        help_root(
            &mut self.top,
            self.level,
            block,
            &mut self.beside,
            &mut self.gone,
        );
        let addr = address_of(&self.top, block, self.blocks);
        let_go(self.head, block, addr, &mut self.gone, &mut self.never);
        take_top(&mut self.top, self.order as usize, block);
        self.level = level_of(&self.top);
    }

    /// Leaves nothing of the keys that the tree has: for one that is given up. Its nodes stay until it is let go, with zeros in the places of
    /// their children.
    pub fn wipe(&mut self)
        ensures wiped { IsWipedGrove self.new }
        ensures many { IsAsWide self.old self.new }
        ensures rest { (self.new.order ≡ self.old.order) × (self.new.blocks ≡ self.old.blocks) × (self.new.head ≡ self.old.head) × (self.new.level ≡ self.old.level)
            × (self.new.gone ≡ self.old.gone) × (self.new.never ≡ self.old.never) }
    {
        wipe_top(&mut self.top);
        wipe_held(&mut self.held);
        wipe_beside(&mut self.beside);
    }
}

/// A tree is let go once no key is left of it.
impl Drop for Grove {
    fn drop(self)
        requires { IsWipedGrove self }
    {
        let Grove {
            order: _,
            blocks: _,
            head: _,
            level: _,
            top: _,
            gone: _,
            never: _,
            held: _,
            beside: _,
            spares: _,
        } = self;
    }
}

/// Writes zeros over the key of a root, or over the room of one that is in memory, and over those of the nodes below it.
fn wipe_top(top: &mut Child)
    ensures wiped { IsWipedRoot (out-Child top.new) }
    ensures many { width_of top.new ≡ width_of top.old }
{
    match top {
        Child::Kept { key, .. } => *key = Key::from_bytes([0; 32]),
        Child::Grown { twig, .. } => wipe(twig),
    }
}

/// Lets the nodes go that are held, once zeros are written over their rooms.
fn let_go_held(held: &mut Vec<Twig>, beside: &mut Vec<Option<Twig>>)
    ensures { (held.new.items ≡ []) × (beside.new.items ≡ []) }
{
    wipe_held(held);
    clear_held(held);
    wipe_beside(beside);
    clear_beside(beside);
}

/// Writes zeros over the children of each node.
fn wipe_held(held: &mut [Twig])
    ensures wiped { AreWiped held.new }
    ensures many { AreAsWide held.old held.new }
{
    for twig in held.iter_mut() {
        wipe(twig);
    }
}

/// Writes zeros over the children of each node that is there.
fn wipe_beside(beside: &mut [Option<Twig>])
    ensures wiped { AreWipedBeside beside.new }
    ensures many { AreAsWideBeside beside.old beside.new }
{
    for node in beside.iter_mut() {
        if let Some(twig) = node {
            wipe(twig);
        }
    }
}

/// Lets go of nodes that have no key left.
fn clear_held(held: &mut Vec<Twig>)
    requires { AreWiped held.old.items }
    ensures { held.new.items ≡ [] }
{
    held.clear();
}

/// Lets go of nodes beside the way that have no key left.
fn clear_beside(beside: &mut Vec<Option<Twig>>)
    requires { AreWipedBeside beside.old.items }
    ensures { beside.new.items ≡ [] }
{
    beside.clear();
}

/// The address of a block's data record below a root in memory whose way to the block is in memory, or `None`.
fn address_of(top: &Child, block: u64, high: u64) -> Option<u64>
    ensures { (order below : ℕ) → IsTop order below high top.now → block < high → IsOpen block (stubs (suc below) high top.now)
        → IsAddressOf block (stubs (suc below) high top.now) result }
{
    match top {
        Child::Kept { .. } => None,
        Child::Grown { twig, .. } => match find(twig, block, high) {
            Spot::Found { addr, .. } => Some(addr),
            Spot::Absent => None,
            Spot::Below { .. } => None,
        },
    }
}

/// Lets go the address that a block had, where there is room.
fn let_go(head: u64, block: u64, old: Option<u64>, gone: &mut Vec<u64>, never: &mut Vec<Unkept>)
    requires gone_room { vec_len gone.old < vec_capacity gone.old }
    requires never_room { vec_len never.old < vec_capacity never.old }
    ensures lets_go { LetsGo head block old gone.old.items gone.new.items never.old.items never.new.items }
    ensures capacity { (vec_capacity gone.new ≡ vec_capacity gone.old) × (vec_capacity never.new ≡ vec_capacity never.old) }
{
    match old {
        None => {}
        Some(addr) => {
            if addr < head {
                note(gone, addr);
            } else {
                never.push_reserved(Unkept { block, addr });
            }
        }
    }
}

/// Makes empty lists for new nodes, one more than there are levels, with room for one child more than a node may have.
fn make_spares(alloc: Global, level: u8, spares: &mut Vec<Vec<Child>>) -> Result<(), ReadyRefusal>
    ensures made { (order : ℕ) → order ≤ 64 → HasSpares order 0 spares.old.items → IfOk result (λ _. HasSpares order (level + 1) spares.new.items) }
    ensures kept { (order : ℕ) → order ≤ 64 → HasSpares order 0 spares.old.items → HasSpares order 0 spares.new.items }
    ensures few { AddsSpares (level + 1) spares.old.items spares.new.items }
    ensures memory { (e : ReadyRefusal) → IsErrOf result e → e ≡ ReadyRefusal.Memory }
{
    while spares.len() <= level as usize {
        add_spare(alloc, spares)?;
    }
    Ok(())
}

/// Makes one such list.
fn add_spare(alloc: Global, spares: &mut Vec<Vec<Child>>) -> Result<(), ReadyRefusal>
    ensures count { IfOk result (λ _. vec_len spares.new ≡ vec_len spares.old + 1) }
    ensures kept { (order : ℕ) → order ≤ 64 → HasSpares order 0 spares.old.items → HasSpares order 0 spares.new.items }
    ensures few { (count : ℕ) → vec_len spares.old < count → AddsSpares count spares.old.items spares.new.items }
    ensures memory { (e : ReadyRefusal) → IsErrOf result e → e ≡ ReadyRefusal.Memory }
{
    spares.push(Vec::with_capacity(alloc, 65)?)?;
    Ok(())
}

/// Makes room for what an update may let go: so many nodes on the way and beside it, and a data record.
fn make_room(
    nodes: usize,
    beside: usize,
    gone: &mut Vec<u64>,
    never: &mut Vec<Unkept>,
) -> Result<(), ReadyRefusal>
    ensures gone { IfOk result (λ _. vec_len gone.new + (nodes + beside) < vec_capacity gone.new) }
    ensures never { IfOk result (λ _. vec_len never.new < vec_capacity never.new) }
    ensures kept { (gone.new.items ≡ gone.old.items) × (never.new.items ≡ never.old.items) }
    // It comes only where there was no room for these.
    ensures memory { (e : ReadyRefusal) → IsErrOf result e → (e ≡ ReadyRefusal.Memory)
        × ((vec_capacity gone.old < vec_len gone.old + (nodes + beside + 1)) ⊎ (vec_capacity never.old < vec_len never.old + 1)) }
{
    let Some(all) = nodes.checked_add(beside) else {
        return Err(ReadyRefusal::Memory);
    };
    let Some(more) = all.checked_add(1) else {
        return Err(ReadyRefusal::Memory);
    };
    gone.reserve(more)?;
    never.reserve(1)?;
    Ok(())
}

//! How the nodes in memory are sealed.
ghost use Rattle.std.specs.Prelude.{◌≡◌, ◌<◌, ◌≤◌, ◌+◌, ◌-◌, ◌*◌, ◌++◌, [], ◌∷◌, suc, vec_len, vec_capacity, IfOk, IsErr, drop, length, take};
ghost use Rattle.sdbt_base.specs.Keys.{key_size, IsKeyOf};
ghost use Rattle.sdbt_base.specs.Faults.{TellsOf};
ghost use Rattle.record_versions.specs.Versions.{IsVersion};
ghost use Rattle.btree_twigs.specs.Top.{child_level};
ghost use Rattle.btree_twigs.specs.Stubs.{level_of, children_of, nodes, nodes_below, stubs, stubs_below};
ghost use Rattle.shadow_commit.specs.Sealed.{Seals, SealsNode};
ghost use Rattle.shadow_commit.specs.Caching.{AreCached};
ghost use Rattle.shadow_commit.specs.Handing.{Adds, Stops, OnlyAdds};
ghost use Rattle.shadow_commit.specs.NewTree.{AreNodesOver};
ghost use Rattle.shadow_commit.specs.CanSeal.{CanSeal, CanSealChild};
ghost use Rattle.shadow_commit.specs.LetGo.{HaveNoKey};

use btree_twigs::{Child, Twig};
use btree_walk::NodeReader;
use node_codec::Entry;
use page_store::{AppendFault, Placed};
use platform::Platform;
use record_versions::is_key;
use sdbt_base::{Key, Tape};

/// Seals the nodes in memory in a version, each after all below it, has the cache keep them, and answers where the topmost is.
/// After a fault each page that was handed over is one of theirs, in order. `entries` has room for those of a node of each
/// level, behind what is there; that stays.
#[cycle(seal)]
pub(crate) fn seal_twig<P: Platform, T: Tape>(
    twig: &Twig,
    version: u8,
    entries: &mut Vec<Entry>,
    reader: &mut NodeReader,
    platform: &mut P,
    tape: &mut T,
) -> Result<Placed, AppendFault>
    requires can { CanSeal version (P.head platform.old) (P.capacity platform.old) twig.now }
    requires room { vec_len entries.old + 64 * level_of twig.now ≤ vec_capacity entries.old }
    ensures sealed { (at : CanSeal version (P.head platform.old) (P.capacity platform.old) twig.now) → IfOk result (λ placed.
        Adds (AreCached (λ nodes. SealsNode version (Seals version at.level) at.level (P.head platform.old) (children_of twig.now) nodes placed.addr placed.key) reader.old.cache reader.new.cache)
        P.tells (P.history platform.old).present (P.history platform.new).present (P.head platform.old) (P.head platform.new) (T.drawn tape.old) (T.drawn tape.new)) }
    ensures within { (at : CanSeal version (P.head platform.old) (P.capacity platform.old) twig.now) → P.head platform.new ≤ P.head platform.old + suc (nodes_below at.level twig.now) }
    ensures stops { (at : CanSeal version (P.head platform.old) (P.capacity platform.old) twig.now) → IsErr result →
        Stops (AreNodesOver version (P.head platform.old) (stubs_below at.level at.high twig.now)) P.tells (P.history platform.old).present (P.history platform.new).present (T.drawn tape.old) (T.drawn tape.new) }
    ensures beside { OnlyAdds P.Platform T.Tape 0 platform.old platform.new tape.old tape.new }
    ensures platform_cause { TellsOf AppendFault.PlatformFault result (P.faults platform.old) (P.faults platform.new) }
    ensures tape_cause { TellsOf AppendFault.TapeFault result (T.faults tape.old) (T.faults tape.new) }
    ensures entries { IfOk result (λ _. entries.new.items ≡ entries.old.items) }
    ensures same_room { vec_capacity entries.new ≡ vec_capacity entries.old }
{
    let begin = entries.len();
    for child in twig.children.iter() {
        let entry = seal_child(child, version, entries, reader, platform, tape)?;
        add(entries, entry);
    }
    let (_, own) = entries.split_at(begin);
    reader
        .buffers
        .put_node(platform.head(), twig.level, version, own);
    let placed = reader.buffers.append(platform, tape, version)?;
    reader
        .cache
        .put_node(placed.addr, &placed.key, twig.level, version, own);
    let_go(entries, twig.children.len());
    Ok(placed)
}

/// The entry that names a child, which is sealed first where it is in memory.
#[cycle(seal)]
fn seal_child<P: Platform, T: Tape>(
    child: &Child,
    version: u8,
    entries: &mut Vec<Entry>,
    reader: &mut NodeReader,
    platform: &mut P,
    tape: &mut T,
) -> Result<Entry, AppendFault>
    requires can { CanSealChild version (P.head platform.old) (P.capacity platform.old) child.now }
    requires room { vec_len entries.old + 64 * child_level child.now ≤ vec_capacity entries.old }
    ensures sealed { (at : CanSealChild version (P.head platform.old) (P.capacity platform.old) child.now) → IfOk result (λ entry.
        Adds (AreCached (λ nodes. Seals version at.level (P.head platform.old) child.now nodes entry) reader.old.cache reader.new.cache)
        P.tells (P.history platform.old).present (P.history platform.new).present (P.head platform.old) (P.head platform.new) (T.drawn tape.old) (T.drawn tape.new)) }
    ensures within { (at : CanSealChild version (P.head platform.old) (P.capacity platform.old) child.now) → P.head platform.new ≤ P.head platform.old + nodes at.level child.now }
    ensures stops { (at : CanSealChild version (P.head platform.old) (P.capacity platform.old) child.now) → IsErr result →
        Stops (AreNodesOver version (P.head platform.old) (stubs at.level at.high child.now)) P.tells (P.history platform.old).present (P.history platform.new).present (T.drawn tape.old) (T.drawn tape.new) }
    ensures beside { OnlyAdds P.Platform T.Tape 0 platform.old platform.new tape.old tape.new }
    ensures platform_cause { TellsOf AppendFault.PlatformFault result (P.faults platform.old) (P.faults platform.new) }
    ensures tape_cause { TellsOf AppendFault.TapeFault result (T.faults tape.old) (T.faults tape.new) }
    ensures entries { IfOk result (λ _. entries.new.items ≡ entries.old.items) }
    ensures same_room { vec_capacity entries.new ≡ vec_capacity entries.old }
{
    match child {
        Child::Kept { low, addr, key } => Ok(kept_entry(*low, *addr, key, version)),
        Child::Grown { low, twig } => {
            let placed = seal_twig(twig, version, entries, reader, platform, tape)?;
            Ok(Entry {
                low: *low,
                addr: placed.addr,
                key: placed.key,
            })
        }
    }
}

/// Puts an entry behind others, where there is room.
fn add(entries: &mut Vec<Entry>, entry: Entry)
    requires { vec_len entries.old < vec_capacity entries.old }
    ensures items { entries.new.items ≡ entries.old.items ++ entry ∷ [] }
    ensures capacity { vec_capacity entries.new ≡ vec_capacity entries.old }
{
    entries.push_reserved(entry);
}

/// Lets the last entries go, so many, once zeros are written over their keys: none is left in the room.
fn let_go(entries: &mut Vec<Entry>, count: usize)
    requires { count ≤ vec_len entries.old }
    ensures items { entries.new.items ≡ take (vec_len entries.old - count) entries.old.items }
    ensures capacity { vec_capacity entries.new ≡ vec_capacity entries.old }
{
    let begin = entries.len() - count;
    let (_, gone) = entries.split_at_mut(begin);
    wipe_keys(gone);
    cut_off(entries, count);
}

/// Cuts off the last entries, so many, in which no key is left.
fn cut_off(entries: &mut Vec<Entry>, count: usize)
    requires within { count ≤ vec_len entries.old }
    requires wiped { HaveNoKey (drop (vec_len entries.old - count) entries.old.items) }
    ensures items { entries.new.items ≡ take (vec_len entries.old - count) entries.old.items }
    ensures capacity { vec_capacity entries.new ≡ vec_capacity entries.old }
{
    entries.truncate(entries.len() - count);
}

/// Writes zeros over the key of each entry.
fn wipe_keys(entries: &mut [Entry])
    ensures { HaveNoKey entries.new }
{
    for entry in entries.iter_mut() {
        entry.key = Key::from_bytes([0; 32]);
    }
}

/// The entry of a child on the medium.
fn kept_entry(low: u64, addr: u64, key: &Key, version: u8) -> Entry
    requires version { IsVersion version }
    requires size { length key.now ≡ key_size version }
    ensures entry { result ≡ record { low = low; addr = addr; key = key.now } }
    ensures key { IsKeyOf version key.now }
{
    is_key(key);
    Entry {
        low,
        addr,
        key: *key,
    }
}

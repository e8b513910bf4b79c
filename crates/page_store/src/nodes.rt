ghost use Rattle.std.specs.Prelude.{◌≡◌, ◌<◌, ◌≤◌, ◌+◌, ℕ, [], IsTrue, IsFalse, OnOk, OnErr, IsErrOf, length};
ghost use Rattle.sdbt_base.specs.Faults.{TellsOf};
ghost use Rattle.sdbt_base.specs.Keys.{version_of};
ghost use Rattle.record_versions.specs.Versions.{IsVersion};
ghost use Rattle.node_codec.specs.Record.{Record, NodeRecord};
ghost use Rattle.page_store.specs.Places.{FitsAt, NothingFits, IsWantedRecord};
ghost use Rattle.page_store.specs.Reading.{ReadsPage};

use crate::buffers::Buffers;
use crate::refusals::FetchRefusal;
use crate::wants::Want;
use arrayvec::ArrayVec;
use node_codec::{Entry, decode_node};
use platform::Platform;
use record_versions::version_of;
use sdbt_base::Key;

/// Reads the node of a place of the tree, by one read of its page. Its level is the one that is wanted, and its entries
/// are then in `entries`, whatever was there. After a refusal there are none.
///
/// `BadRecord` comes exactly where the page was read and does not unseal to a node of the key's version that is wanted there,
/// or has not the digest that the key names.
pub fn fetch_node<P: Platform>(
    platform: &mut P,
    want: &Want,
    key: &Key,
    buf: &mut Buffers,
    entries: &mut ArrayVec<Entry, 64>,
) -> Result<(), FetchRefusal>
    requires within { want.now.addr < P.head platform.old }
    requires level { 1 ≤ want.now.level }

    ensures fits { P.tells → OnOk result
        (FitsAt (P.history platform.old).present.readable want.now key.now (NodeRecord want.now.level entries.new.items)) }
    // What is answered is what the buffer spells, whatever the platform tells.
    ensures wanted { OnOk result
        (IsWantedRecord (version_of key.now) want.now buf.new.body (NodeRecord want.now.level entries.new.items)) }
    ensures empty { OnErr result (entries.new.items ≡ []) }
    ensures nothing_fits { P.tells → (addr : ℕ) → IsErrOf result (FetchRefusal.BadRecord addr) →
        NothingFits (P.history platform.old).present.readable want.now key.now }
    ensures bad { (addr : ℕ) → IsErrOf result (FetchRefusal.BadRecord addr) → addr ≡ want.now.addr }

    ensures reads_page { ReadsPage P.Platform platform.old platform.new }
    ensures reads_ok { P.tells → OnOk result (P.reads platform.new ≡ P.reads platform.old + 1) }
    ensures reads_bad { P.tells → (addr : ℕ) → IsErrOf result (FetchRefusal.BadRecord addr) →
        P.reads platform.new ≡ P.reads platform.old + 1 }
    ensures cause { TellsOf FetchRefusal.PlatformFault result (P.faults platform.old) (P.faults platform.new) }
{
    entries.clear();
    let Ok(()) = buf.load(platform, want.addr, key) else {
        return Err(FetchRefusal::PlatformFault);
    };
    if !buf.has_digest_of(key) {
        return Err(FetchRefusal::BadRecord { addr: want.addr });
    }
    let version = version_of(key);
    if !is_node_wanted(want, version, &buf.body, entries) {
        return Err(FetchRefusal::BadRecord { addr: want.addr });
    }
    Ok(())
}

/// Whether the bytes are a node of the version that is wanted, whose entries are then in `entries`. Else there are none.
fn is_node_wanted(want: &Want, version: u8, body: &[u8], entries: &mut ArrayVec<Entry, 64>) -> bool
    requires size { length body.now ≡ 4128 }
    requires level { 1 ≤ want.now.level }
    requires version { IsVersion version }
    ensures found { IsTrue result → IsWantedRecord version want.now body.now (NodeRecord want.now.level entries.new.items) }
    ensures none { IsFalse result → (value : Record) → ¬ (IsWantedRecord version want.now body.now value) }
    ensures empty { IsFalse result → entries.new.items ≡ [] }
{
    let Some(level) = decode_node(body, want.addr, version, entries) else {
        return false;
    };
    if want.is_met_by(level, entries.as_slice()) {
        true
    } else {
        entries.clear();
        false
    }
}

ghost use Rattle.std.specs.Prelude.{◌≡◌, ◌<◌, ◌+◌, ℕ, IsTrue, IsFalse, OnOk, IsErrOf, drop, length};
ghost use Rattle.sdbt_base.specs.Faults.{TellsOf};
ghost use Rattle.sdbt_base.specs.Keys.{version_of};
ghost use Rattle.node_codec.specs.Record.{Record, DataRecord};
ghost use Rattle.page_store.specs.Buffer.{content_of};
ghost use Rattle.page_store.specs.Places.{FitsAt, NothingFits, IsWantedRecord};
ghost use Rattle.page_store.specs.Reading.{ReadsPage};

use crate::buffers::Buffers;
use crate::refusals::FetchRefusal;
use crate::wants::Want;
use node_codec::decode_block;
use platform::Platform;
use sdbt_base::Key;

/// Reads the data record of a block, by one read of its page. Its content is then `buf.content()`.
///
/// `BadRecord` comes exactly where the page was read and does not unseal to the data record that is wanted
/// there, or has not the digest that the key names. No node is made on the way.
pub fn fetch_block<P: Platform>(
    platform: &mut P,
    want: &Want,
    key: &Key,
    buf: &mut Buffers,
) -> Result<(), FetchRefusal>
    requires within { want.now.addr < P.head platform.old }
    requires block { want.now.level ≡ 0 }

    ensures fits { P.tells → OnOk result
        (FitsAt (P.history platform.old).present.readable want.now key.now (DataRecord want.now.low (content_of buf.new))) }
    // What is answered is what the buffer spells, whatever the platform tells.
    ensures wanted { OnOk result
        (IsWantedRecord (version_of key.now) want.now buf.new.body (DataRecord want.now.low (content_of buf.new))) }
    ensures nothing_fits { P.tells → (addr : ℕ) → IsErrOf result (FetchRefusal.BadRecord addr) →
        NothingFits (P.history platform.old).present.readable want.now key.now }
    ensures bad { (addr : ℕ) → IsErrOf result (FetchRefusal.BadRecord addr) → addr ≡ want.now.addr }

    ensures reads_page { ReadsPage P.Platform platform.old platform.new }
    ensures reads_ok { P.tells → OnOk result (P.reads platform.new ≡ P.reads platform.old + 1) }
    ensures reads_bad { P.tells → (addr : ℕ) → IsErrOf result (FetchRefusal.BadRecord addr) →
        P.reads platform.new ≡ P.reads platform.old + 1 }
    ensures cause { TellsOf FetchRefusal.PlatformFault result (P.faults platform.old) (P.faults platform.new) }
{
    let Ok(()) = buf.load(platform, want.addr, key) else {
        return Err(FetchRefusal::PlatformFault);
    };
    if !buf.has_digest_of(key) {
        return Err(FetchRefusal::BadRecord { addr: want.addr });
    }
    if !is_block_wanted(want, &buf.body) {
        return Err(FetchRefusal::BadRecord { addr: want.addr });
    }
    Ok(())
}

/// Whether the bytes are the data record that is wanted, which is the same in each version.
fn is_block_wanted(want: &Want, body: &[u8]) -> bool
    requires size { length body.now ≡ 4128 }
    requires block { want.now.level ≡ 0 }
    ensures found { IsTrue result → (version : ℕ) → IsWantedRecord version want.now body.now (DataRecord want.now.low (drop 32 body.now)) }
    ensures none { IsFalse result → (version : ℕ) (value : Record) → ¬ (IsWantedRecord version want.now body.now value) }
{
    match decode_block(body, want.addr) {
        Some(block) => block == want.low,
        None => false,
    }
}

//! The data records of a device, sealed anew.
ghost use Rattle.std.specs.Prelude.{◌≡◌, ◌<◌, ℕ, All, Contains, IfOk, IsErrOf, length};
ghost use Rattle.sdbt_base.specs.Faults.{TellsOf};
ghost use Rattle.sdbt_base.specs.Keys.{bare};
ghost use Rattle.page_store.specs.Places.{NothingFits, block_want};
ghost use Rattle.page_store.specs.Keeping.{KeepsKeys};
ghost use Rattle.page_store.specs.Stands.{IsSound};
ghost use Rattle.tree_build.specs.Building.{OnlyAdds};
ghost use Rattle.device_core.specs.Copying.{CanCopy, Copies, CopiesOne, StopsAt};

use node_codec::Entry;
use page_store::{AppendFault, Buffers, FetchRefusal, Want, fetch_block};
use platform::Platform;
use sdbt_base::Tape;

/// The version in which records are copied.
const VERSION: u8 = 2;

/// Why a data record was not copied.
#[derive(Clone, Copy, Debug, PartialEq, Eq)]
pub(crate) enum CopyRefusal {
    /// The page at this address is not the data record of its block.
    BadRecord {
        /// The address.
        addr: u64,
    },
    /// No key was drawn.
    TapeFault,
    /// The platform failed.
    PlatformFault,
}

impl From<FetchRefusal> for CopyRefusal {
    ghost use Rattle.std.specs.Prelude.{◌≡◌};
    ghost use Rattle.device_core.specs.Copying.{unread};

    ghost from_gives = { λ fetch copy. copy ≡ unread fetch };

    fn from(fetch: FetchRefusal) -> CopyRefusal {
        match fetch {
            FetchRefusal::BadRecord { addr } => CopyRefusal::BadRecord { addr },
            FetchRefusal::PlatformFault => CopyRefusal::PlatformFault,
        }
    }
}

impl From<AppendFault> for CopyRefusal {
    ghost use Rattle.std.specs.Prelude.{◌≡◌};
    ghost use Rattle.device_core.specs.Copying.{unplaced};

    ghost from_gives = { λ fault copy. copy ≡ unplaced fault };

    fn from(fault: AppendFault) -> CopyRefusal {
        match fault {
            AppendFault::TapeFault => CopyRefusal::TapeFault,
            AppendFault::PlatformFault => CopyRefusal::PlatformFault,
        }
    }
}

/// Reads the data record of each entry, and appends it anew in version 2, in their order; the entry then names the new one.
///
/// `BadRecord` names the first data record that does not fit. After a refusal pages may have been handed over, each under a
/// key drawn for it.
pub(crate) fn copy_records<P: Platform, T: Tape>(
    entries: &mut [Entry],
    source: &mut Buffers,
    target: &mut Buffers,
    platform: &mut P,
    tape: &mut T,
) -> Result<(), CopyRefusal>
    requires can { CanCopy (P.head platform.old) (P.capacity platform.old) entries.old }
    ensures copies { IfOk result (λ _. Copies P.tells (P.head platform.old) (P.head platform.new)
        (P.history platform.old).present (P.history platform.new).present entries.old entries.new) }
    ensures wrong { P.tells → (addr : ℕ) → IsErrOf result (CopyRefusal.BadRecord addr)
        → StopsAt (P.history platform.old).present.readable addr entries.old }
    // Each moment keeps the keys that the image kept before, and at the end those of the new entries are listed.
    ensures keeps { KeepsKeys P.tells (T.drawn tape.old) (T.drawn tape.new) (P.history platform.old) (P.history platform.new)
        (λ keys. IsSound (P.history platform.old).present)
        (λ keys. IfOk result (λ _. All (λ e. Contains keys (bare e.key)) entries.new)) }
    ensures beside { OnlyAdds P.Platform T.Tape (length entries.old) (length entries.old) platform.old platform.new tape.old tape.new }
    ensures platform_cause { TellsOf CopyRefusal.PlatformFault result (P.faults platform.old) (P.faults platform.new) }
    ensures tape_cause { TellsOf CopyRefusal.TapeFault result (T.faults tape.old) (T.faults tape.new) }
{
    for entry in entries.iter_mut() {
        *entry = copy_record(entry, source, target, platform, tape)?;
    }
    Ok(())
}

/// Reads the data record of an entry, appends it anew in version 2, and answers the entry that names the new one.
fn copy_record<P: Platform, T: Tape>(
    entry: &Entry,
    source: &mut Buffers,
    target: &mut Buffers,
    platform: &mut P,
    tape: &mut T,
) -> Result<Entry, CopyRefusal>
    requires within { entry.now.addr < P.head platform.old }
    requires room { P.head platform.old < P.capacity platform.old }
    requires block { entry.now.low < 1048576 }
    ensures copied { IfOk result (CopiesOne P.tells (P.head platform.old) (P.head platform.new)
        (P.history platform.old).present (P.history platform.new).present entry.now) }
    ensures wrong { P.tells → (addr : ℕ) → IsErrOf result (CopyRefusal.BadRecord addr)
        → (addr ≡ entry.now.addr)
        × NothingFits (P.history platform.old).present.readable (block_want entry.now.addr entry.now.low) entry.now.key }
    ensures keeps { KeepsKeys P.tells (T.drawn tape.old) (T.drawn tape.new) (P.history platform.old) (P.history platform.new)
        (λ keys. IsSound (P.history platform.old).present)
        (λ keys. IfOk result (λ copy. Contains keys (bare copy.key))) }
    ensures beside { OnlyAdds P.Platform T.Tape 1 1 platform.old platform.new tape.old tape.new }
    ensures platform_cause { TellsOf CopyRefusal.PlatformFault result (P.faults platform.old) (P.faults platform.new) }
    ensures tape_cause { TellsOf CopyRefusal.TapeFault result (T.faults tape.old) (T.faults tape.new) }
{
    let want = Want::of_block(entry.addr, entry.low);
    fetch_block(platform, &want, &entry.key, source)?;
    target.put_block(platform.head(), entry.low, source.content());
    let placed = target.append(platform, tape, VERSION)?;
    Ok(Entry {
        low: entry.low,
        addr: placed.addr,
        key: placed.key,
    })
}

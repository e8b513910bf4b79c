//! The device that another one comes to: the one that there is, or a new one.
ghost use Rattle.std.specs.Prelude.{◌≡◌, ◌≤◌, ◌+◌, ◌%◌, None, Err};
ghost use Rattle.sdbt_base.specs.Rises.{MayRiseBy};
ghost use Rattle.transfer.specs.Opening.{OpensTarget, halt_of_format};
ghost use Rattle.transfer.specs.Running.{LookedThere};

use crate::halts::Halt;
use crate::running::CACHED_NODES;
use device_core::{FormatRefusal, format};
use device_session::Session;
use platform::Platform;
use sdbt_base::{Sink, Tape};
use session_calls::{DeviceStop, mount_session};
use std::alloc::Global;

/// A session on the device that another one comes to.
#[derive(Drop)]
pub(crate) struct Target {
    /// The session, without a change.
    pub session: Session,
    /// Whether the device was made here.
    pub is_new: bool,
}

/// Opens a session on the device that there is, or else on a new one of so many blocks and of this order.
pub(crate) fn open_target<Q: Platform, T: Tape, L: Sink>(
    alloc: Global,
    to: &mut Q,
    tape: &mut T,
    ledger: &mut L,
    blocks: u64,
    order: u16,
) -> Result<Target, Halt>
    requires sized { (1 ≤ blocks) × (blocks ≤ 1048576) }
    requires ordered { (4 ≤ order) × (order ≤ 64) × (order % 2 ≡ 0) }
    ensures target { OpensTarget Q.Platform T.Tape L.Sink to.old to.new tape.old tape.new ledger.old ledger.new blocks order result }
    ensures there { LookedThere Q.tells (Q.history to.old).present result }
    // The cell is looked at once, and twice more where a device is made.
    ensures looks { Q.tells → (Q.reads to.new ≤ Q.reads to.old + 3) × (((Q.history to.old).present.cell ≡ None → ⊥) → Q.reads to.new ≤ Q.reads to.old + 1) }
    // All pages are synced, and a root record is put there, where a device is made.
    ensures changes { Q.tells → MayRiseBy 2 (Q.changes to.old) (Q.changes to.new) × (((Q.history to.old).present.cell ≡ None → ⊥) → Q.changes to.new ≡ Q.changes to.old) }
{
    match mount_session(alloc, to, CACHED_NODES) {
        Ok(Some(session)) => Ok(Target {
            session,
            is_new: false,
        }),
        Ok(None) => make_target(alloc, to, tape, ledger, blocks, order),
        Err(stop) => Err(Halt::To(stop)),
    }
}

/// Makes a device where there is none, and opens a session on it.
fn make_target<Q: Platform, T: Tape, L: Sink>(
    alloc: Global,
    to: &mut Q,
    tape: &mut T,
    ledger: &mut L,
    blocks: u64,
    order: u16,
) -> Result<Target, Halt>
    requires sized { (1 ≤ blocks) × (blocks ≤ 1048576) }
    requires ordered { (4 ≤ order) × (order ≤ 64) × (order % 2 ≡ 0) }
    requires empty { Q.tells → (Q.history to.old).present.cell ≡ None }
    ensures target { OpensTarget Q.Platform T.Tape L.Sink to.old to.new tape.old tape.new ledger.old ledger.new blocks order result }
    ensures there { Q.tells → result ≡ Err (Halt.To DeviceStop.BadRoot) → ⊥ }
    ensures looks { Q.tells → Q.reads to.new ≤ Q.reads to.old + 2 }
    ensures changes { Q.tells → MayRiseBy 2 (Q.changes to.old) (Q.changes to.new) }
{
    match format(alloc, to, tape, ledger, blocks, order) {
        Ok(()) => {}
        Err(refusal) => return Err(halt_of(refusal)),
    }
    match mount_session(alloc, to, CACHED_NODES) {
        Ok(Some(session)) => Ok(Target {
            session,
            is_new: true,
        }),
        Ok(None) => Err(Halt::To(DeviceStop::BadRoot)),
        Err(stop) => Err(Halt::To(stop)),
    }
}

/// The halt at a device that was not made.
fn halt_of(refusal: FormatRefusal) -> Halt
    ensures { result ≡ halt_of_format refusal }
{
    match refusal {
        FormatRefusal::NotEmpty => Halt::NotEmpty,
        FormatRefusal::Full => Halt::Full,
        FormatRefusal::Memory => Halt::To(DeviceStop::Memory),
        FormatRefusal::TapeFault => Halt::To(DeviceStop::Tape),
        FormatRefusal::PlatformFault => Halt::To(DeviceStop::Platform),
        FormatRefusal::LedgerFault => Halt::To(DeviceStop::Ledger),
    }
}

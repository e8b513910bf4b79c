//! Calls on either side, each with the halt of its side.
ghost use Rattle.std.specs.Prelude.{◌≡◌, ◌-◌, ◌<◌, ◌≤◌, ℕ, All, Some, Err, IfErr, IfOk, OnOk, length};
ghost use Rattle.device_session.specs.Damage.{HasPut};
ghost use Rattle.device_session.specs.Open.{blocks_of, root_of};
ghost use Rattle.session_calls.specs.Along.{Along, Drawn, drawn_by};
ghost use Rattle.session_calls.specs.Carrying.{IsReady};
ghost use Rattle.transfer.specs.Counts.{counts};
ghost use Rattle.transfer.specs.Halts.{Blames};
ghost use Rattle.std.specs.FinMap as map;
ghost use Rattle.sdbt_base.specs.Arrays.{Device, Session as OpenSession, mounted, padded, written};
ghost use Rattle.device_course.specs.States.{IsAt};
ghost use Rattle.transfer.specs.Moving.{IsReadHalt, ReadsHere, WritesHere};
ghost use Rattle.transfer.specs.Reads.{Walks};
ghost use Rattle.transfer.specs.Running.{HaltsFrom, HaltsTo, WantsNoMemory, alone};
ghost use Rattle.transfer.specs.Whole.{HasBlocks, ReadsTree};

use crate::halts::Halt;
use crate::listing::list_blocks;
use device_session::Session;
use platform::Platform;
use sdbt_base::Tape;
use session_calls::{DeviceStop, read_block, write_block};
use std::alloc::Global;

/// Reads a block of the device that is moved.
pub(crate) fn read_source<P: Platform>(
    source: &mut Session,
    from: &mut P,
    block: u64,
    out: &mut [u8],
) -> Result<(), Halt>
    requires size { length out.old ≡ 4096 }
    requires ready { IsReady P.tells (alone P.Platform from.old) source.old }
    requires within { block < blocks_of source.old }
    ensures along { (any : Drawn) → Along P.Platform 0 21 from.old from.new any any source.old source.new }
    ensures blame { (to tape output ledger : ℕ) → Blames (counts (P.faults from.old) to tape output ledger)
        (counts (P.faults from.new) to tape output ledger) result }
    ensures wrong { IfErr result (HaltsFrom P.tells (P.history from.new).present) }
    ensures memory { IfErr result WantsNoMemory }
    ensures leads { P.tells → (there : Device) (array : OpenSession) → IsAt (P.history from.old).present (Some source.old) (mounted there array)
        → ReadsHere (P.history from.new).present source.new there array block out.new result }
    // On any pages: a block that doesn't fit is none of zeros.
    ensures reads { ReadsTree P.tells (P.history from.old).present source.old source.new block out.new result }
    ensures size { length out.new ≡ 4096 }
{
    match read_block(source, from, block, out) {
        Ok(()) => Ok(()),
        Err(stop) => Err(Halt::From(stop)),
    }
}

/// Reads a block of the device that it is moved to.
pub(crate) fn read_target<Q: Platform>(
    target: &mut Session,
    to: &mut Q,
    block: u64,
    out: &mut [u8],
) -> Result<(), Halt>
    requires size { length out.old ≡ 4096 }
    requires ready { IsReady Q.tells (alone Q.Platform to.old) target.old }
    requires within { block < blocks_of target.old }
    ensures along { (any : Drawn) → Along Q.Platform 0 21 to.old to.new any any target.old target.new }
    ensures blame { (from tape output ledger : ℕ) → Blames (counts from (Q.faults to.old) tape output ledger)
        (counts from (Q.faults to.new) tape output ledger) result }
    ensures full { result ≡ Err Halt.Full → ⊥ }
    ensures wrong { IfErr result (HaltsTo Q.tells (Unit {0}) ⊥ (Q.history to.new).present) }
    ensures memory { IfErr result WantsNoMemory }
    ensures leads { Q.tells → (there : Device) (array : OpenSession) → IsAt (Q.history to.old).present (Some target.old) (mounted there array)
        → ReadsHere (Q.history to.new).present target.new there array block out.new result }
    // On any pages: a block that doesn't fit is none of zeros, nor like another one.
    ensures reads { ReadsTree Q.tells (Q.history to.old).present target.old target.new block out.new result }
    ensures size { length out.new ≡ 4096 }
{
    match read_block(target, to, block, out) {
        Ok(()) => Ok(()),
        Err(stop) => Err(Halt::To(stop)),
    }
}

/// Writes a block of the device that it is moved to, where a page is free.
pub(crate) fn write_target<Q: Platform, T: Tape>(
    target: &mut Session,
    to: &mut Q,
    tape: &mut T,
    block: u64,
    content: &[u8],
) -> Result<(), Halt>
    requires size { length content.now ≤ 4096 }
    requires ready { IsReady Q.tells (alone Q.Platform to.old) target.old }
    requires within { block < blocks_of target.old }
    ensures along { Along Q.Platform 1 40 to.old to.new (drawn_by T.Tape tape.old) (drawn_by T.Tape tape.new) target.old target.new }
    ensures blame { (from output ledger : ℕ) → Blames (counts from (Q.faults to.old) (T.faults tape.old) output ledger)
        (counts from (Q.faults to.new) (T.faults tape.new) output ledger) result }
    ensures full { result ≡ Err Halt.Full → Q.head to.new ≡ Q.capacity to.new }
    ensures short { Q.head to.old ≡ Q.capacity to.old → result ≡ Err Halt.Full }
    ensures room { result ≡ Err (Halt.To DeviceStop.Memory) → Q.head to.new < Q.capacity to.new }
    // A record of a block is not read here.
    ensures wrong { IfErr result (HaltsTo Q.tells ⊥ (Unit {0}) (Q.history to.new).present) }
    ensures leads { Q.tells → (there : Device) (array : OpenSession) → IsAt (Q.history to.old).present (Some target.old) (mounted there array)
        → WritesHere (Q.history to.new).present target.new there (written array block content.now) result }
    // On any pages: behind a write that was done a look-up of the block comes to the content, and one of each other block to what it came to before.
    ensures puts { Q.tells → OnOk result (HasPut (Q.history to.old).present.readable (Q.history to.new).present.readable target.old target.new block (padded content.now)) }
{
    if to.head() == to.capacity() {
        return Err(Halt::Full);
    }
    match write_block(target, to, tape, block, content) {
        Ok(()) => Ok(()),
        Err(stop) => Err(Halt::To(stop)),
    }
}

/// The mapped blocks of the device that is moved.
pub(crate) fn list_source<P: Platform>(
    alloc: Global,
    source: &Session,
    from: &mut P,
) -> Result<Vec<u64>, Halt>
    requires ready { IsReady P.tells (alone P.Platform from.old) source.now }
    ensures within { IfOk result (λ blocks. All (λ block. block < blocks_of source.now) blocks.items) }
    ensures count { IfOk result (λ blocks. length blocks.items ≡ (root_of source.now).mapped) }
    // On any pages: each node fits, and the blocks are those of its entries.
    ensures listed { P.tells → IfOk result (λ blocks. HasBlocks (P.history from.old).present (root_of source.now) blocks.items) }
    ensures along { (any : Drawn) → Along P.Platform 0 (P.reads from.new - P.reads from.old) from.old from.new any any source.now source.now }
    ensures walks { P.tells → Walks (P.history from.old).present (root_of source.now) 0 (P.reads from.new - P.reads from.old) }
    ensures blame { (to tape output ledger : ℕ) → Blames (counts (P.faults from.old) to tape output ledger)
        (counts (P.faults from.new) to tape output ledger) result }
    ensures wrong { IfErr result (HaltsFrom P.tells (P.history from.new).present) }
    ensures image { P.tells → (P.history from.new).present ≡ (P.history from.old).present }
    ensures lists { P.tells → (there : Device) (array : OpenSession) → IsAt (P.history from.old).present (Some source.now) (mounted there array)
        → IfOk result (λ blocks. blocks.items ≡ map.keys there.contents) × IfErr result IsReadHalt }
{
    match list_blocks(alloc, source, from) {
        Ok(blocks) => Ok(blocks),
        Err(stop) => Err(Halt::From(stop)),
    }
}

/// The mapped blocks of the device that it is moved to.
pub(crate) fn list_target<Q: Platform>(
    alloc: Global,
    target: &Session,
    to: &mut Q,
) -> Result<Vec<u64>, Halt>
    requires ready { IsReady Q.tells (alone Q.Platform to.old) target.now }
    ensures count { IfOk result (λ blocks. length blocks.items ≡ (root_of target.now).mapped) }
    // On any pages: each node fits, and the blocks are those of its entries.
    ensures listed { Q.tells → IfOk result (λ blocks. HasBlocks (Q.history to.old).present (root_of target.now) blocks.items) }
    ensures along { (any : Drawn) → Along Q.Platform 0 (Q.reads to.new - Q.reads to.old) to.old to.new any any target.now target.now }
    ensures walks { Q.tells → Walks (Q.history to.old).present (root_of target.now) 0 (Q.reads to.new - Q.reads to.old) }
    ensures blame { (from tape output ledger : ℕ) → Blames (counts from (Q.faults to.old) tape output ledger)
        (counts from (Q.faults to.new) tape output ledger) result }
    ensures full { result ≡ Err Halt.Full → ⊥ }
    ensures wrong { IfErr result (HaltsTo Q.tells ⊥ ⊥ (Q.history to.new).present) }
    ensures image { Q.tells → (Q.history to.new).present ≡ (Q.history to.old).present }
    ensures lists { Q.tells → (there : Device) (array : OpenSession) → IsAt (Q.history to.old).present (Some target.now) (mounted there array)
        → IfOk result (λ blocks. blocks.items ≡ map.keys there.contents) × IfErr result IsReadHalt }
{
    match list_blocks(alloc, target, to) {
        Ok(blocks) => Ok(blocks),
        Err(stop) => Err(Halt::To(stop)),
    }
}

//! A run: the device that is moved, the one that it comes to, and the last line.
ghost use Rattle.std.specs.Prelude.{◌≡◌, ◌-◌, ◌*◌, ◌<◌, ◌≤◌, [], ℕ, false, All, None, Some, Err, IfErr, IfOk, IsOk, IsTrue, Option, length};
ghost use Rattle.device_session.specs.Open.{blocks_of, is_touched, needed_by, number_of, root_of};
ghost use Rattle.device_session.specs.Reading.{room_of};
ghost use Rattle.transfer.specs.Reads.{IsWritten, ReadsCompared, ReadsFew, ReadsFilled, ReadsFound};
ghost use Rattle.transfer.specs.Changes.{ChangesFew, clears_of};
ghost use Rattle.transfer.specs.Refusals.{AreAlike, HaltsAt, IsIdle, IsOtherThan};
ghost use Rattle.device_course.specs.States.{around};
ghost use Rattle.session_calls.specs.Along.{Along, Drawn};
ghost use Rattle.session_calls.specs.Carrying.{IsReady};
ghost use Rattle.std.specs.FinMap as map;
ghost use Rattle.sdbt_base.specs.Arrays.{Device, mounted, session_on};
ghost use Rattle.device_course.specs.States.{IsAt};
ghost use Rattle.page_store.specs.Stands.{Stands};
ghost use Rattle.device_terms.specs.Served.{IsServedImage};
ghost use Rattle.transfer.specs.Copies.{IsAlike, IsBlank};
ghost use Rattle.transfer.specs.Moving.{IsShort, Matches, Moves, Reaches, Refusing, Went};
ghost use Rattle.transfer.specs.Both.{AreReady, FillsBoth, ReadsBoth};
ghost use Rattle.transfer.specs.Counts.{counts};
ghost use Rattle.transfer.specs.Halts.{Blames};
ghost use Rattle.session_calls.specs.Spans.{Spans};
ghost use Rattle.transfer.specs.Whole.{CopiesOnce, FillsOnce, HasBlocks, HasNone, IsFilled, IsMoved, IsNew, IsRead, IsReadThrough, MovesWhole, SeesAll, SeesOther, WhereDone};
ghost use Rattle.transfer.specs.Running.{Clears, HasMapped, HasNumber, HasSome, IsBehindMount, Looked, LookedThere, MeetsWrong, alone};

use crate::copying::{commit_target, copy_blocks};
use crate::halts::{Halt, Moved, put_last_line, put_moved};
use crate::matching::{has_same, is_alike, is_fresh};
use crate::opening::open_target;
use crate::sides::{list_source, list_target};
use device_core::clear;
use device_session::Session;
use platform::Platform;
use sdbt_base::{Sink, Tape};
use session_calls::{DeviceStop, mount_session};
use std::alloc::Global;

/// How many nodes each session keeps in memory.
pub(crate) const CACHED_NODES: usize = 256;

/// Moves a device, and says last what was moved, or why none was.
pub(crate) fn run<P: Platform, Q: Platform, T: Tape, O: Sink, L: Sink>(
    alloc: Global,
    from: &mut P,
    to: &mut Q,
    tape: &mut T,
    output: &mut O,
    ledger: &mut L,
) -> Result<(), Halt>
    ensures from { Clears P.tells None (alone P.Platform from.old) (alone P.Platform from.new) (IsOk result) }
    ensures to { Spans Q.tells (around Q.Platform T.Tape L.Sink to.old tape.old ledger.old)
        (around Q.Platform T.Tape L.Sink to.new tape.new ledger.new) (IsOk result) }
    ensures blame { Blames (counts (P.faults from.old) (Q.faults to.old) (T.faults tape.old) (O.faults output.old) (L.faults ledger.old))
        (counts (P.faults from.new) (Q.faults to.new) (T.faults tape.new) (O.faults output.new) (L.faults ledger.new)) result }
    ensures went { Went P.tells Q.tells (P.history from.old) (P.history from.new) (Q.history to.old) (Q.history to.new) (Q.capacity to.old - Q.head to.old) result (O.written output.old) (O.written output.new) }
    ensures reads { ReadsFew P.Platform Q.Platform 1 from.old from.new to.old to.new × ChangesFew P.Platform Q.Platform (clears_of result) from.old from.new to.old to.new }
{
    match move_device(alloc, from, to, tape, ledger) {
        Ok(moved) => put_moved(&moved, output),
        Err(halt) => Err(put_last_line(halt, output)),
    }
}

/// Moves the device on `from`, if there is one.
fn move_device<P: Platform, Q: Platform, T: Tape, L: Sink>(
    alloc: Global,
    from: &mut P,
    to: &mut Q,
    tape: &mut T,
    ledger: &mut L,
) -> Result<Moved, Halt>
    ensures from { Clears P.tells None (alone P.Platform from.old) (alone P.Platform from.new) (IsOk result) }
    ensures to { Spans Q.tells (around Q.Platform T.Tape L.Sink to.old tape.old ledger.old)
        (around Q.Platform T.Tape L.Sink to.new tape.new ledger.new) (IsOk result) }
    ensures blame { (output : ℕ) → Blames (counts (P.faults from.old) (Q.faults to.old) (T.faults tape.old) output (L.faults ledger.old))
        (counts (P.faults from.new) (Q.faults to.new) (T.faults tape.new) output (L.faults ledger.new)) result }
    // On any pages: which record is named.
    ensures wrong { IfErr result (MeetsWrong P.tells Q.tells (HasSome (Q.history to.old).present) ⊥ (P.history from.new).present (Q.history to.new).present) }
    ensures looked { Looked P.tells (P.history from.old).present result }
    ensures there { LookedThere Q.tells (Q.history to.old).present result × ReadsFew P.Platform Q.Platform 1 from.old from.new to.old to.new
        × ChangesFew P.Platform Q.Platform (clears_of result) from.old from.new to.old to.new }
    ensures refused { Refusing P.tells Q.tells (P.history from.old).present (Q.history to.old).present (Q.capacity to.old - Q.head to.old) result }
    ensures told { IfOk result (λ moved. (P.tells → HasMapped (P.history from.old).present moved.blocks) × (Q.tells → HasNumber (Q.history to.new).present moved.number)) }
    ensures whole { MovesWhole P.tells Q.tells (P.history from.old).present (P.history from.new).present (Q.history to.old) (Q.history to.new) result }
    // From one device to another one, or to none.
    ensures leads { P.tells → Q.tells → (device : Device) (there : Option Device) → Stands (P.history from.old).present (Some device) → IsServedImage (P.history from.old).present
        → Stands (Q.history to.old).present there → IsServedImage (Q.history to.old).present
        → Moves (P.history from.old) (P.history from.new) (Q.history to.old) (Q.history to.new) device there (IsShort device 1 (Q.capacity to.old - Q.head to.old)) result }
{
    match mount_session(alloc, from, CACHED_NODES) {
        Ok(Some(source)) => move_session(alloc, source, from, to, tape, ledger),
        Ok(None) => Err(Halt::NoDevice),
        Err(stop) => Err(Halt::From(stop)),
    }
}

/// Moves the device that a session is open on: its cell is cleared once the other one has all of it.
fn move_session<P: Platform, Q: Platform, T: Tape, L: Sink>(
    alloc: Global,
    first: Session,
    from: &mut P,
    to: &mut Q,
    tape: &mut T,
    ledger: &mut L,
) -> Result<Moved, Halt>
    // The session has no change, and its cache has room for a node of each level.
    requires ready { IsReady P.tells (alone P.Platform from.old) first × (20 ≤ room_of first) × (is_touched first ≡ false) }
    ensures from { Clears P.tells (Some first) (alone P.Platform from.old) (alone P.Platform from.new) (IsOk result) }
    ensures to { Spans Q.tells (around Q.Platform T.Tape L.Sink to.old tape.old ledger.old)
        (around Q.Platform T.Tape L.Sink to.new tape.new ledger.new) (IsOk result) }
    ensures blame { (output : ℕ) → Blames (counts (P.faults from.old) (Q.faults to.old) (T.faults tape.old) output (L.faults ledger.old))
        (counts (P.faults from.new) (Q.faults to.new) (T.faults tape.new) output (L.faults ledger.new)) result }
    ensures wrong { IfErr result (MeetsWrong P.tells Q.tells (HasSome (Q.history to.old).present) ⊥ (P.history from.new).present (Q.history to.new).present) }
    ensures leads { P.tells → Q.tells → (device : Device) (there : Option Device) → IsAt (P.history from.old).present (Some first) (mounted device (session_on device))
        → Stands (Q.history to.old).present there → IsServedImage (Q.history to.old).present
        → Moves (P.history from.old) (P.history from.new) (Q.history to.old) (Q.history to.new) device there (IsShort device 1 (Q.capacity to.old - Q.head to.old)) result }
    ensures refused { Refusing P.tells Q.tells (P.history from.old).present (Q.history to.old).present (Q.capacity to.old - Q.head to.old) result }
    ensures told { IfOk result (λ moved. (moved.blocks ≡ first.mapped) × (Q.tells → HasNumber (Q.history to.new).present moved.number)) }
    ensures moves { WhereDone P.tells (P.history from.new).present result (IsMoved P.tells Q.tells (P.history from.old).present (Q.history to.old) (Q.history to.new) first) }
    ensures there { LookedThere Q.tells (Q.history to.old).present result × ReadsFew P.Platform Q.Platform 0 from.old from.new to.old to.new
        × ChangesFew P.Platform Q.Platform (clears_of result) from.old from.new to.old to.new }
    ensures behind { IfErr result IsBehindMount }
{
    let mut source = first;
    let blocks = source.mapped();
    let number = fill(alloc, &mut source, from, to, tape, ledger)?;
    match clear(from) {
        Ok(()) => Ok(Moved { blocks, number }),
        Err(_) => Err(Halt::From(DeviceStop::Platform)),
    }
}

/// Makes the device on `to` one that has all that a session on `from` reads, and answers its commit number.
fn fill<P: Platform, Q: Platform, T: Tape, L: Sink>(
    alloc: Global,
    source: &mut Session,
    from: &mut P,
    to: &mut Q,
    tape: &mut T,
    ledger: &mut L,
) -> Result<u64, Halt>
    requires ready { IsReady P.tells (alone P.Platform from.old) source.old × (is_touched source.old ≡ false) }
    ensures from { (few : ℕ) × ((any : Drawn) → Along P.Platform 0 few from.old from.new any any source.old source.new) }
    ensures to { Spans Q.tells (around Q.Platform T.Tape L.Sink to.old tape.old ledger.old)
        (around Q.Platform T.Tape L.Sink to.new tape.new ledger.new) (IsOk result) }
    ensures blame { (output : ℕ) → Blames (counts (P.faults from.old) (Q.faults to.old) (T.faults tape.old) output (L.faults ledger.old))
        (counts (P.faults from.new) (Q.faults to.new) (T.faults tape.new) output (L.faults ledger.new)) result }
    ensures wrong { IfErr result (MeetsWrong P.tells Q.tells (HasSome (Q.history to.old).present) ⊥ (P.history from.new).present (Q.history to.new).present) }
    ensures leads { P.tells → Q.tells → (device : Device) (there : Option Device) → IsAt (P.history from.old).present (Some source.old) (mounted device (session_on device))
        → Stands (Q.history to.old).present there → IsServedImage (Q.history to.old).present
        → Reaches (Q.history to.old) (Q.history to.new) device there (IsShort device 1 (Q.capacity to.old - Q.head to.old)) result }
    ensures there { LookedThere Q.tells (Q.history to.old).present result }
    ensures refused { Refusing P.tells Q.tells (P.history from.old).present (Q.history to.old).present (Q.capacity to.old - Q.head to.old) result }
    ensures behind { IfErr result IsBehindMount }
    ensures reads { ReadsFew P.Platform Q.Platform 0 from.old from.new to.old to.new × ChangesFew P.Platform Q.Platform 0 from.old from.new to.old to.new }
    // On any pages: all of the first device was read, and copied; and the number is that of the root record there.
    ensures moves { IfOk result (λ number. IsMoved P.tells Q.tells (P.history from.old).present (Q.history to.old) (Q.history to.new) source.old
        × (Q.tells → HasNumber (Q.history to.new).present number)) }
{
    let blocks = source.blocks();
    let order = source.root().order;
    let target = open_target(alloc, to, tape, ledger, blocks, order)?;
    fill_target(
        alloc,
        source,
        target.session,
        target.is_new,
        from,
        to,
        tape,
        ledger,
    )
}

/// The same of the device that a session on `to` is open on.
fn fill_target<P: Platform, Q: Platform, T: Tape, L: Sink>(
    alloc: Global,
    source: &mut Session,
    target: Session,
    is_new: bool,
    from: &mut P,
    to: &mut Q,
    tape: &mut T,
    ledger: &mut L,
) -> Result<u64, Halt>
    requires source { IsReady P.tells (alone P.Platform from.old) source.old }
    requires target { IsReady Q.tells (around Q.Platform T.Tape L.Sink to.old tape.old ledger.old) target }
    // Its cache has room for a node of each level.
    requires room { 20 ≤ room_of target }
    ensures both { FillsBoth P.Platform Q.Platform T.Tape L.Sink (λ few most. IsIdle target → ReadsFilled P.tells Q.tells (P.history from.old).present (Q.history to.old).present source.old target is_new few most)
        (1 ≤ (root_of target).mapped) ((IsTrue is_new → Q.tells → HasNone (Q.history to.old).present) → IsIdle target → ⊥) ((IsTrue is_new → ⊥) × IsWritten target) from.old from.new to.old to.new tape.old tape.new ledger.old ledger.new source.old source.new target result }
    ensures refused { IsIdle target → IfErr result (HaltsAt (IsOtherThan (root_of source.old) (root_of target)
        (SeesOther P.tells Q.tells (P.history from.old).present (Q.history to.old).present source.old target)) (root_of source.old).mapped (Q.capacity to.old - Q.head to.old)) }
    ensures unlike { (AreAlike (root_of source.old) (root_of target) → ⊥) → (result ≡ Err Halt.NotEmpty) × (from.new ≡ from.old) × (to.new ≡ to.old) }
    ensures read { IfOk result (λ number. IsReadThrough P.tells (P.history from.old).present source.old) }
    ensures fills { (IsTrue is_new → Q.tells → HasBlocks (Q.history to.old).present (root_of target) []) → IsIdle target
        → IfOk result (λ number. IsFilled P.tells Q.tells (P.history from.old).present (Q.history to.old) (Q.history to.new) source.old target (IsNew is_new target)) }
    ensures leads { P.tells → Q.tells → (device there : Device) → IsAt (P.history from.old).present (Some source.old) (mounted device (session_on device))
        → IsAt (Q.history to.old).present (Some target) (mounted there (session_on there)) → (IsTrue is_new → IsBlank device there)
        → Reaches (Q.history to.old) (Q.history to.new) device (Some there) (IsShort device 0 (Q.capacity to.old - Q.head to.old)) result }
{
    if !is_alike(source, &target) {
        return Err(Halt::NotEmpty);
    }
    let blocks = list_source(alloc, source, from)?;
    if is_new {
        copy(&blocks, source, target, from, to, tape, ledger)
    } else {
        fill_found(alloc, &blocks, source, target, from, to, tape, ledger)
    }
}

/// The same of a device that there was on `to`: it may have all of it already, or was never written.
fn fill_found<P: Platform, Q: Platform, T: Tape, L: Sink>(
    alloc: Global,
    blocks: &[u64],
    source: &mut Session,
    found: Session,
    from: &mut P,
    to: &mut Q,
    tape: &mut T,
    ledger: &mut L,
) -> Result<u64, Halt>
    requires { AreReady P.tells Q.tells (alone P.Platform from.old) (around Q.Platform T.Tape L.Sink to.old tape.old ledger.old) source.old found blocks.now }
    ensures both { FillsBoth P.Platform Q.Platform T.Tape L.Sink (λ few most. found.mapped ≡ (root_of found).mapped → ReadsFound Q.tells (Q.history to.old).present found blocks.now few most)
        (1 ≤ (root_of found).mapped) (found.mapped ≡ (root_of found).mapped → ⊥) (IsWritten found) from.old from.new to.old to.new tape.old tape.new ledger.old ledger.new source.old source.new found result }
    ensures refused { needed_by found ≡ 0 → IfErr result (HaltsAt (((number_of found ≡ 0) × (found.mapped ≡ 0) → ⊥)
        × SeesAll P.tells Q.tells (P.history from.old).present (Q.history to.old).present source.old found blocks.now false) (length blocks.now) (Q.capacity to.old - Q.head to.old)) }
    ensures fills { found.mapped ≡ (root_of found).mapped → IfOk result (λ number. FillsOnce P.tells Q.tells (P.history from.old).present (Q.history to.old) (Q.history to.new) source.old found blocks.now
        ((number_of found ≡ 0) × (found.mapped ≡ 0))) }
    ensures read { IfOk result (λ number. All (IsRead P.tells (P.history from.old).present source.old) blocks.now) }
    ensures leads { P.tells → Q.tells → (device there : Device) → IsAt (P.history from.old).present (Some source.old) (mounted device (session_on device))
        → IsAt (Q.history to.old).present (Some found) (mounted there (session_on there)) → blocks.now ≡ map.keys device.contents → IsAlike device there
        → Reaches (Q.history to.old) (Q.history to.new) device (Some there) (IsShort device 0 (Q.capacity to.old - Q.head to.old)) result }
{
    let mut target = found;
    let number = target.number();
    let fresh = is_fresh(&target);
    let has = has_all(alloc, blocks, source, &mut target, from, to)?;
    if has {
        return Ok(number);
    }
    if fresh {
        copy(blocks, source, target, from, to, tape, ledger)
    } else {
        Err(Halt::NotEmpty)
    }
}

/// Whether a session on `to` has these mapped blocks of one on `from` and no other, each with the same content.
fn has_all<P: Platform, Q: Platform>(
    alloc: Global,
    blocks: &[u64],
    source: &mut Session,
    target: &mut Session,
    from: &mut P,
    to: &mut Q,
) -> Result<bool, Halt>
    requires { AreReady P.tells Q.tells (alone P.Platform from.old) (alone Q.Platform to.old) source.old target.old blocks.now }
    ensures both { ReadsBoth P.Platform Q.Platform (ReadsCompared Q.tells (Q.history to.old).present target.old blocks.now) (1 ≤ (root_of target.old).mapped)
        from.old from.new to.old to.new source.old source.new target.old target.new result }
    // On any pages: the second device's blocks were read, and where it is so, a look-up of each comes to one content on both; else they are others, or have other contents.
    ensures sees { IfOk result (SeesAll P.tells Q.tells (P.history from.old).present (Q.history to.old).present source.old target.old blocks.now) }
    ensures leads { P.tells → Q.tells → (device there : Device) → IsAt (P.history from.old).present (Some source.old) (mounted device (session_on device))
        → IsAt (Q.history to.old).present (Some target.old) (mounted there (session_on there)) → blocks.now ≡ map.keys device.contents
        → Matches (P.history from.new).present (Q.history to.new).present source.new target.new device there (session_on device) (session_on there) (there.contents ≡ device.contents) result }
{
    let others = list_target(alloc, target, to)?;
    if others.as_slice() == blocks {
        has_same(blocks, source, target, from, to)
    } else {
        Ok(false)
    }
}

/// Copies these blocks, and commits them.
fn copy<P: Platform, Q: Platform, T: Tape, L: Sink>(
    blocks: &[u64],
    source: &mut Session,
    first: Session,
    from: &mut P,
    to: &mut Q,
    tape: &mut T,
    ledger: &mut L,
) -> Result<u64, Halt>
    requires { AreReady P.tells Q.tells (alone P.Platform from.old) (around Q.Platform T.Tape L.Sink to.old tape.old ledger.old) source.old first blocks.now }
    ensures both { FillsBoth P.Platform Q.Platform T.Tape L.Sink (λ few most. (few ≤ 21 * length blocks.now) × (most ≤ 40 * length blocks.now)) ⊥ (HasNone (Q.history to.old).present → ⊥) ⊥
        from.old from.new to.old to.new tape.old tape.new ledger.old ledger.new source.old source.new first result }
    ensures refused { needed_by first ≡ 0 → IfErr result (HaltsAt ⊥ (length blocks.now) (Q.capacity to.old - Q.head to.old)) }
    // On any pages: they were copied before the commit.
    ensures copied { IfOk result (λ number. CopiesOnce P.tells Q.tells (P.history from.old).present (Q.history to.old) (Q.history to.new) source.old first blocks.now) }
    ensures leads { P.tells → Q.tells → (device there : Device) → IsAt (P.history from.old).present (Some source.old) (mounted device (session_on device))
        → IsAt (Q.history to.old).present (Some first) (mounted there (session_on there)) → blocks.now ≡ map.keys device.contents → IsBlank device there
        → Reaches (Q.history to.old) (Q.history to.new) device (Some there) (IsShort device 0 (Q.capacity to.old - Q.head to.old)) result }
{
    let mut target = first;
    copy_blocks(blocks, source, &mut target, from, to, tape)?;
    commit_target(target, to, tape, ledger)
}

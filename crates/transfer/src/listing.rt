//! Which blocks a device has mapped.
ghost use Rattle.std.specs.Prelude.{◌≡◌, ◌-◌, ◌<◌, All, IfErr, IfOk, Some, length, map};
ghost use Rattle.platform.specs.Calls.{Looks};
ghost use Rattle.sdbt_base.specs.Counts.{counts};
ghost use Rattle.device_session.specs.Open.{blocks_of, IsOpen, root_of};
ghost use Rattle.session_calls.specs.Blame.{IsBlamed};
ghost use Rattle.session_calls.specs.Damage.{IsMounted};
ghost use Rattle.std.specs.FinMap as maps;
ghost use Rattle.sdbt_base.specs.Arrays.{Device, Session as OpenSession, mounted};
ghost use Rattle.device_course.specs.States.{IsAt};
ghost use Rattle.transfer.specs.Moving.{IsSoundStop};
ghost use Rattle.transfer.specs.Listing.{IsListStop, IsOfEntries, stop_of_walk};
ghost use Rattle.transfer.specs.Reads.{Walks};
ghost use Rattle.transfer.specs.Whole.{HasBlocks};

use btree_walk::{Entries, WalkRefusal, entries};
use device_session::Session;
use page_store::Buffers;
use platform::Platform;
use session_calls::DeviceStop;
use std::alloc::Global;

/// The mapped blocks of the device that a session without a change is open on, in their order. Each node is read once. Stops at the
/// root node where its root record says that other blocks are mapped than the tree has.
pub(crate) fn list_blocks<P: Platform>(
    alloc: Global,
    session: &Session,
    platform: &mut P,
) -> Result<Vec<u64>, DeviceStop>
    requires open { IsOpen session.now (P.head platform.old) }
    ensures within { IfOk result (λ blocks. All (λ block. block < blocks_of session.now) blocks.items) }
    ensures count { IfOk result (λ blocks. length blocks.items ≡ (root_of session.now).mapped) }
    // On any pages: each node fits, and the blocks are those of its entries.
    ensures listed { P.tells → IfOk result (λ blocks. HasBlocks (P.history platform.old).present (root_of session.now) blocks.items) }
    ensures looks { Looks P.Platform platform.old platform.new }
    ensures walks { P.tells → Walks (P.history platform.old).present (root_of session.now) 0 (P.reads platform.new - P.reads platform.old) }
    ensures blame { IsBlamed (counts (P.faults platform.old) 0 0 0 0) (counts (P.faults platform.new) 0 0 0 0) result }
    ensures wrong { IfErr result (IsListStop (P.tells × IsMounted (P.history platform.old).present session.now) (P.history platform.new).present) }
    // Of a device these are its mapped blocks, in their order.
    ensures lists { P.tells → (there : Device) (array : OpenSession) → IsAt (P.history platform.old).present (Some session.now) (mounted there array)
        → IfOk result (λ blocks. blocks.items ≡ maps.keys there.contents) × IfErr result IsSoundStop }
{
    let Ok(mut buffers) = Buffers::new(alloc) else {
        return Err(DeviceStop::Memory);
    };
    let root = session.root();
    match entries(alloc, platform, root, &mut buffers) {
        Ok(list) => {
            if list.len() as u64 == root.mapped {
                lows_of(alloc, &list, root.blocks, root.addr)
            } else {
                Err(DeviceStop::BadRecord { addr: root.addr })
            }
        }
        Err(refusal) => Err(stop_of(refusal)),
    }
}

/// The blocks of entries. Stops at the address where one is none of so many blocks.
fn lows_of(alloc: Global, list: &Entries, blocks: u64, addr: u64) -> Result<Vec<u64>, DeviceStop>
    ensures blocks { IfOk result (λ lows. All (λ block. block < blocks) lows.items × (lows.items ≡ map (λ e. e.low) list.now)) }
    ensures stops { IfErr result (IsOfEntries list.now blocks addr) }
{
    let mut lows = Vec::new(alloc);
    for place in 0..list.len() {
        let low = list.at(place).low;
        if low >= blocks {
            return Err(DeviceStop::BadRecord { addr });
        }
        let Ok(()) = lows.push(low) else {
            return Err(DeviceStop::Memory);
        };
    }
    Ok(lows)
}

/// The stop that a refused walk comes to.
fn stop_of(refusal: WalkRefusal) -> DeviceStop
    ensures { result ≡ stop_of_walk refusal }
{
    match refusal {
        WalkRefusal::BadRecord { addr } => DeviceStop::BadRecord { addr },
        WalkRefusal::PlatformFault => DeviceStop::Platform,
        WalkRefusal::Memory => DeviceStop::Memory,
    }
}

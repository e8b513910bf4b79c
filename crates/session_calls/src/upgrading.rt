ghost use Rattle.std.specs.Prelude.{◌≡◌, None};
ghost use Rattle.sdbt_base.specs.Arrays.{State};
ghost use Rattle.device_course.specs.States.{IsAt};
ghost use Rattle.session_calls.specs.Upgrades.{AnswersUpgrade, UpgradeGoes, UpgradeLeads, answer_of_refusal};

use crate::stops::DeviceStop;
use device_core::{UpgradeRefusal, upgrade};
use platform::Platform;
use sdbt_base::{Sink, Tape};
use std::alloc::Global;

/// What an upgrade answers that doesn't stop.
#[derive(Clone, Copy, Debug, PartialEq, Eq)]
pub enum UpgradeReply {
    /// There is no device.
    NoDevice,
    /// The device is of version 2 already.
    AlreadyUpgraded,
    /// Fewer pages are free than the upgrade needs.
    Full,
    /// The device is one of version 2 now.
    Upgraded {
        /// Its number.
        number: u64,
    },
}

/// Makes a device of version 1 one of version 2, where as many pages are free as that needs. No session may be open on it.
///
/// With each other reply all is as it was. After a stop the device is the one from before, or, where the platform failed, that one or
/// the upgraded one.
pub fn upgrade_device<P: Platform, T: Tape, L: Sink>(
    alloc: Global,
    platform: &mut P,
    tape: &mut T,
    ledger: &mut L,
) -> Result<UpgradeReply, DeviceStop>
    ensures goes { UpgradeGoes P.Platform T.Tape L.Sink platform.old platform.new tape.old tape.new ledger.old ledger.new result }
    ensures answers { AnswersUpgrade P.Platform T.Tape platform.old platform.new tape.old tape.new result }
    ensures leads { P.tells → (entry : State) → IsAt (P.history platform.old).present None entry
        → UpgradeLeads P.Platform platform.old platform.new entry result }
{
    match upgrade(alloc, platform, tape, ledger) {
        Ok(number) => Ok(UpgradeReply::Upgraded { number }),
        Err(refusal) => answer_of(refusal),
    }
}

/// The answer that a refused upgrade comes to.
fn answer_of(refusal: UpgradeRefusal) -> Result<UpgradeReply, DeviceStop>
    ensures { result ≡ answer_of_refusal refusal }
{
    match refusal {
        UpgradeRefusal::NoDevice => Ok(UpgradeReply::NoDevice),
        UpgradeRefusal::BadRoot => Err(DeviceStop::BadRoot),
        UpgradeRefusal::AlreadyUpgraded => Ok(UpgradeReply::AlreadyUpgraded),
        UpgradeRefusal::Full { .. } => Ok(UpgradeReply::Full),
        UpgradeRefusal::BadRecord { addr } => Err(DeviceStop::BadRecord { addr }),
        UpgradeRefusal::Memory => Err(DeviceStop::Memory),
        UpgradeRefusal::TapeFault => Err(DeviceStop::Tape),
        UpgradeRefusal::PlatformFault => Err(DeviceStop::Platform),
        UpgradeRefusal::LedgerFault => Err(DeviceStop::Ledger),
    }
}

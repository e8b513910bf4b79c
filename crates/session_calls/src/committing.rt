ghost use Rattle.std.specs.Prelude.{◌≡◌, Some};
ghost use Rattle.sdbt_base.specs.Arrays.{Device, Session as OpenSession, mounted};
ghost use Rattle.device_session.specs.Open.{IsOpen};
ghost use Rattle.device_course.specs.States.{IsAt};
ghost use Rattle.session_calls.specs.Commits.{AnswersCommit, CommitGoes, CommitLeads, stop_of_fault};
ghost use Rattle.session_calls.specs.Damage.{IsMounted};

use crate::stops::DeviceStop;
use device_session::{CommitFault, CommitReply, Session};
use platform::Platform;
use sdbt_base::{Sink, Tape};

/// A session that goes on behind its commit, and what the commit answered.
#[derive(Drop)]
pub struct Committed {
    /// The session: without a change where there is a number, and else as it was.
    pub session: Session,
    /// The number that the device has now, or that too few pages are free.
    pub reply: CommitReply,
}

/// Makes a session's changes the device's, where enough pages are free, and hands the session back.
///
/// `Full` comes exactly where fewer pages are free than the commit needs, and all is then as it was. A stop ends the session, whose
/// buffers are wiped: the device is the one from before, or, where the platform failed, that one or the one with the session's array.
pub fn commit_session<P: Platform, T: Tape, L: Sink>(
    mut session: Session,
    platform: &mut P,
    tape: &mut T,
    ledger: &mut L,
) -> Result<Committed, DeviceStop>
    requires open { IsOpen session (P.head platform.old) }
    requires mounted { P.tells → IsMounted (P.history platform.old).present session }
    ensures goes { CommitGoes P.Platform T.Tape L.Sink platform.old platform.new tape.old tape.new ledger.old ledger.new session result }
    ensures answers { AnswersCommit P.Platform T.Tape platform.old platform.new tape.old tape.new ledger.old ledger.new session result }
    ensures leads { P.tells → (device : Device) (array : OpenSession) → IsAt (P.history platform.old).present (Some session) (mounted device array)
        → CommitLeads (P.history platform.old) (P.history platform.new) device array result }
{
    match session.commit(platform, tape, ledger) {
        Ok(reply) => Ok(Committed { session, reply }),
        Err(fault) => {
            session.wipe();
            session.let_go();
            Err(stop_of(fault))
        }
    }
}

/// The stop that a failed commit comes to.
fn stop_of(fault: CommitFault) -> DeviceStop
    ensures { result ≡ stop_of_fault fault }
{
    match fault {
        CommitFault::Memory => DeviceStop::Memory,
        CommitFault::TapeFault => DeviceStop::Tape,
        CommitFault::LedgerFault => DeviceStop::Ledger,
        CommitFault::PlatformFault => DeviceStop::Platform,
    }
}

//! Trims.
ghost use Rattle.std.specs.Prelude.{◌≡◌, IfErr, IfOk, length};
ghost use Rattle.byte_arrays.specs.Ranges.{covered_blocks};
ghost use Rattle.device_session.specs.Open.{IsOpen, blocks_of};
ghost use Rattle.nbd_terms.specs.Turn.{Trims};
ghost use Rattle.session_calls.specs.Along.{Along, Drawn};
ghost use Rattle.sdbt_base.specs.Counts.{Counts};
ghost use Rattle.session_calls.specs.Damage.{IsMounted};
ghost use Rattle.nbd_core.specs.Damages.{SaysTrue};
ghost use Rattle.nbd_core.specs.Found.{FindsSame, HasTrimmed};
ghost use Rattle.nbd_core.specs.Halts.{Blames};
ghost use Rattle.nbd_core.specs.Meets.{HasMet};
ghost use Rattle.nbd_core.specs.Reads.{reads_at};
ghost use Rattle.nbd_core.specs.Serving.{IsWithin};
ghost use Rattle.nbd_core.specs.Stopped.{StopsTrimming};
ghost use Rattle.nbd_core.specs.Turns.{LeadsOn, MayCome};

use crate::halts::{Halt, after_stop};
use byte_arrays::covered;
use device_session::Session;
use nbd_lang::{Outcome, Request, RequestKind};
use platform::Platform;
use session_calls::trim_block;

/// Trims the blocks that lie whole in a range.
pub(crate) fn trim<P: Platform>(
    session: &mut Session,
    platform: &mut P,
    request: &Request,
) -> Result<Outcome, Halt>
    requires open { IsOpen session.old (P.head platform.old) }
    requires within { IsWithin request.now (blocks_of session.old) }
    ensures along { (drawn : Drawn) → Along P.Platform
        (length (covered_blocks request.now.offset request.now.length))
        (reads_at RequestKind.Trim request.now.offset request.now.length)
        platform.old platform.new drawn drawn session.old session.new }
    ensures blame { (rest : Counts)
        → Blames (record rest { platform = P.faults platform.old })
        (record rest { platform = P.faults platform.new }) result }
    ensures head { P.head platform.new ≡ P.head platform.old }
    ensures halts { IfErr result (λ halt. halt ≡ Halt.Platform) }
    ensures comes { IfOk result (MayCome RequestKind.Trim) }
    ensures leads { LeadsOn P.Platform platform.old platform.new session.old session.new
        (λ outcome entry next. Trims entry
        (covered_blocks request.now.offset request.now.length) outcome next) result }
    // On any pages: look-ups find the blocks no more; or those before one at which memory lacked, or a page doesn't fit.
    ensures damage { P.tells → IsMounted (P.history platform.old).present session.old
        → IfOk result (SaysTrue
        (StopsTrimming (P.history platform.old).present (P.history platform.new).present session.old session.new
        (covered_blocks request.now.offset request.now.length) (λ there. Unit {0}))
        (StopsTrimming (P.history platform.old).present (P.history platform.new).present session.old session.new
        (covered_blocks request.now.offset request.now.length) (λ there. HasMet RequestKind.Trim there
        (P.history platform.new).present request.now.offset request.now.length))
        (HasTrimmed (P.history platform.old).present (P.history platform.new).present
        session.old session.new (covered_blocks request.now.offset request.now.length))
        (FindsSame (P.history platform.old).present (P.history platform.new).present
        session.old session.new)) }
{
    let blocks = covered(request.offset, request.length as u64);
    for block in blocks.start..blocks.end {
        match trim_block(session, platform, block) {
            Ok(()) => {}
            Err(stop) => return after_stop(stop),
        }
    }
    Ok(Outcome::Done)
}

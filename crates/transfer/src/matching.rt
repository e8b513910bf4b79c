//! Whether two devices have the same blocks.
ghost use Rattle.std.specs.Prelude.{◌≡◌, ◌<◌, ◌≤◌, ◌*◌, ◌↔◌, All, Some, IfErr, IfOk, IsTrue, length};
ghost use Rattle.device_session.specs.Open.{blocks_of, number_of, root_of};
ghost use Rattle.session_calls.specs.Carrying.{IsReady};
ghost use Rattle.transfer.specs.Both.{AreReady, ReadsBoth};
ghost use Rattle.sdbt_base.specs.Arrays.{Device, Session as OpenSession, content_of, mounted};
ghost use Rattle.device_course.specs.States.{IsAt};
ghost use Rattle.transfer.specs.Moving.{Matches};
ghost use Rattle.transfer.specs.Running.{WantsNoMemory, alone};
ghost use Rattle.transfer.specs.Whole.{Compares, ComparesAll};

use crate::halts::Halt;
use crate::sides::{read_source, read_target};
use device_session::Session;
use platform::Platform;
use sdbt_base::BLOCK;

/// Whether two devices have as many blocks, and trees of the same order.
pub(crate) fn is_alike(source: &Session, target: &Session) -> bool
    ensures { IsTrue result ↔ ((blocks_of source.now ≡ blocks_of target.now) × ((root_of source.now).order ≡ (root_of target.now).order)) }
{
    source.blocks() == target.blocks() && source.root().order == target.root().order
}

/// Whether a session without a change is on a device that was never written.
pub(crate) fn is_fresh(session: &Session) -> bool
    ensures { IsTrue result ↔ ((number_of session.now ≡ 0) × (session.now.mapped ≡ 0)) }
{
    session.number() == 0 && session.mapped() == 0
}

/// Whether each of these blocks has the same content on both.
pub(crate) fn has_same<P: Platform, Q: Platform>(
    blocks: &[u64],
    source: &mut Session,
    target: &mut Session,
    from: &mut P,
    to: &mut Q,
) -> Result<bool, Halt>
    requires { AreReady P.tells Q.tells (alone P.Platform from.old) (alone Q.Platform to.old) source.old target.old blocks.now }
    ensures both { ReadsBoth P.Platform Q.Platform (λ few most. (few ≤ 21 * length blocks.now) × (most ≤ 21 * length blocks.now)) (1 ≤ length blocks.now)
        from.old from.new to.old to.new source.old source.new target.old target.new result }
    ensures leads { P.tells → Q.tells → (device there : Device) (array other : OpenSession) → IsAt (P.history from.old).present (Some source.old) (mounted device array)
        → IsAt (Q.history to.old).present (Some target.old) (mounted there other)
        → Matches (P.history from.new).present (Q.history to.new).present source.new target.new device there array other
        (All (λ block. content_of array.contents block ≡ content_of other.contents block) blocks.now) result }
    ensures memory { IfErr result WantsNoMemory }
    // On any pages: a look-up of each comes to one content on both, or those of one block to contents that differ.
    ensures same { IfOk result (ComparesAll P.tells Q.tells (P.history from.old).present (Q.history to.old).present source.old target.old blocks.now) }
{
    let mut content = [0; BLOCK];
    let mut other = [0; BLOCK];
    for block in blocks {
        if !has_same_block(*block, source, target, from, to, &mut content, &mut other)? {
            return Ok(false);
        }
    }
    Ok(true)
}

/// Whether a block has the same content on both, each read into a place of its own.
fn has_same_block<P: Platform, Q: Platform>(
    block: u64,
    source: &mut Session,
    target: &mut Session,
    from: &mut P,
    to: &mut Q,
    content: &mut [u8],
    other: &mut [u8],
) -> Result<bool, Halt>
    requires size { length content.old ≡ 4096 }
    requires other_size { length other.old ≡ 4096 }
    requires source { IsReady P.tells (alone P.Platform from.old) source.old }
    requires target { IsReady Q.tells (alone Q.Platform to.old) target.old }
    requires within { block < blocks_of source.old }
    requires alike { blocks_of target.old ≡ blocks_of source.old }
    ensures both { ReadsBoth P.Platform Q.Platform (λ few most. (few ≤ 21) × (most ≤ 21)) (Unit {0}) from.old from.new to.old to.new source.old source.new target.old target.new result }
    ensures leads { P.tells → Q.tells → (device there : Device) (array other : OpenSession) → IsAt (P.history from.old).present (Some source.old) (mounted device array)
        → IsAt (Q.history to.old).present (Some target.old) (mounted there other)
        → Matches (P.history from.new).present (Q.history to.new).present source.new target.new device there array other
        (content_of array.contents block ≡ content_of other.contents block) result }
    ensures memory { IfErr result WantsNoMemory }
    // On any pages: the look-ups of it come to one content on both, or to contents that differ.
    ensures same { IfOk result (Compares P.tells Q.tells (P.history from.old).present (Q.history to.old).present source.old target.old block) }
    ensures size { length content.new ≡ 4096 }
    ensures other_size { length other.new ≡ 4096 }
{
    read_source(source, from, block, content)?;
    match read_target(target, to, block, other) {
        Ok(()) => Ok(is_same(content, other)),
        Err(halt) => Err(halt),
    }
}

/// Whether two contents have the same bytes.
fn is_same(content: &[u8], other: &[u8]) -> bool
    ensures { IsTrue result ↔ (content.now ≡ other.now) }
{
    content == other
}

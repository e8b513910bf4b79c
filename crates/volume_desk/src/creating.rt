//! Creates volumes.
ghost use Rattle.std.specs.Prelude.{◌≡◌, ◌≢◌, ◌↔◌, ◌+◌, ◌≤◌, ℕ, List, true, false, IfErr, IfOk, IsTrue};
ghost use Rattle.device_session.specs.Open.{IsOpen, blocks_of};
ghost use Rattle.device_course.specs.Held.{Held};
ghost use Rattle.session_calls.specs.Along.{drawn_by};
ghost use Rattle.volume_table.specs.Names.{IsName};
ghost use Rattle.volume_table.specs.Tables.{IsTable, Lacks};
ghost use Rattle.volume_table.specs.declared.volume.Volume.{Volume};
ghost use Rattle.volume_lines.specs.Lines as lines;
ghost use Rattle.volume_lines.specs.Replies.{IsWords, said};
ghost use Rattle.volume_terms.specs.Turn.{Creates};
ghost use Rattle.volume_terms.specs.Volumes.{IsCount, IsNamed};
ghost use Rattle.session_calls.specs.Calling.{Calls};
ghost use Rattle.volume_desk.specs.Causes.{AnswersOver, sizes};
ghost use Rattle.volume_desk.specs.Drawing.{DrewFor, tally};
ghost use Rattle.volume_desk.specs.Reads.{reads_in};
ghost use Rattle.volume_desk.specs.Turns.{IsHeld, TurnsTo};

use crate::changing::change;
use device_session::Session;
use platform::Platform;
use sdbt_base::Tape;
use session_calls::DeviceStop;
use volume_lines::Reply;
use volume_table::{Name, Table};

/// Makes a volume of so many blocks of zeros.
pub(crate) fn create<P: Platform, T: Tape>(
    table: &mut Table,
    session: &mut Session,
    platform: &mut P,
    tape: &mut T,
    name: &Name,
    count: u64,
) -> Result<Reply, DeviceStop>
    requires open { IsOpen session.old (P.head platform.old) }
    requires table { IsTable (blocks_of session.old) table.old }
    requires name { IsName name.now }
    ensures calls { (buffer : List ℕ) → Calls P.Platform (1 + blocks_of session.old) (reads_in table.old (lines.Create name.now count) buffer result) platform.old platform.new
        (drawn_by T.Tape tape.old) (drawn_by T.Tape tape.new) session.old session.new result }
    ensures table { IsTable (blocks_of session.old) table.new }
    ensures left { IfErr result (λ stop. table.new ≡ table.old) }
    ensures words { IfOk result IsWords }
    ensures turns { P.tells → (entry : Held) (buffer : List ℕ) → IsHeld (P.history platform.old).present (P.head platform.old) session.old table.old entry
        → TurnsTo (P.history platform.new).present (P.head platform.new) table.new session.new entry
        (λ reply next. Creates (P.capacity platform.old) table.old entry name.now count reply next) (entry.pages ≢ P.capacity platform.old) buffer result }
    // On any pages: why it is answered so.
    ensures any { (buffer : List ℕ) → AnswersOver P.tells (P.history platform.old).present (P.history platform.new).present session.old session.new
        (sizes (blocks_of session.old) (P.head platform.new) (P.capacity platform.new)) table.old table.new (lines.Create name.now count) buffer result }
    // Which keys it draws, each for a page.
    ensures drew { (buffer : List ℕ) → IfOk result (λ reply. DrewFor (tally (T.drawn tape.old) (P.head platform.old)) (lines.Create name.now count) (said reply buffer) (tally (T.drawn tape.new) (P.head platform.new))) }
{
    if has_volume(table, name) {
        return Ok(Reply::Exists);
    }
    if !is_count(count, session.blocks()) {
        return Ok(Reply::Range);
    }
    let mut next = table.duplicate();
    let Some(volume) = next.put(*name, count, session.blocks()) else {
        return Ok(Reply::NoRoom);
    };
    if platform.head() == platform.capacity() {
        return Ok(Reply::Full);
    }
    match change(session, platform, tape, &next, &volume) {
        Ok(()) => {
            *table = next;
            Ok(Reply::Created)
        }
        Err(stop) => Err(stop),
    }
}

/// Whether a table has a volume of this name.
fn has_volume(table: &Table, name: &Name) -> bool
    ensures there { result ≡ true → (v : Volume) × IsNamed table.now name.now v }
    ensures lacks { result ≡ false → Lacks table.now name.now }
{
    match table.find(name) {
        Some((_at, _volume)) => true,
        None => false,
    }
}

/// Whether a device of so many blocks can have a volume of this many.
fn is_count(count: u64, blocks: u64) -> bool
    ensures { IsTrue result ↔ IsCount blocks count }
{
    1 <= count && count <= blocks
}

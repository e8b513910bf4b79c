//! Reads, writes and trims blocks of volumes.
ghost use Rattle.std.specs.Prelude.{◌≡◌, ◌≢◌, ◌<◌, ◌≤◌, ◌^◌, ℕ, List, IfOk, IfErr, length};
ghost use Rattle.device_session.specs.Open.{IsOpen, blocks_of};
ghost use Rattle.device_course.specs.Held.{Held};
ghost use Rattle.session_calls.specs.Along.{Drawn, drawn_by};
ghost use Rattle.volume_table.specs.Tables.{IsTable};
ghost use Rattle.volume_lines.specs.Lines as lines;
ghost use Rattle.volume_lines.specs.Replies.{CanWrite, FitsBlock, IsWords, said};
ghost use Rattle.volume_terms.specs.Turn.{OnBlock, Reads, Trims, Writes};
ghost use Rattle.session_calls.specs.Calling.{Calls};
ghost use Rattle.volume_desk.specs.Causes.{AnswersOver, sizes};
ghost use Rattle.volume_desk.specs.Drawing.{DrewFor, tally};
ghost use Rattle.volume_desk.specs.Reads.{reads_in};
ghost use Rattle.volume_desk.specs.Turns.{IsBlockAt, IsHeld, NoBlock, TurnsTo};

use device_session::Session;
use platform::Platform;
use sdbt_base::{BLOCK, Tape};
use session_calls::{DeviceStop, read_block, trim_block, write_block};
use volume_lines::{Reply, reply_with_content};
use volume_table::{Name, Table};

/// The device's block that is this one of the volume of this name, or the reply that there is none.
fn block_of(table: &Table, name: &Name, block: u64) -> Result<u64, Reply>
    requires { (blocks : ℕ) × (blocks < 2 ^ 64) × IsTable blocks table.now }
    ensures found { IfOk result (IsBlockAt table.now name.now block) }
    ensures none { IfErr result (NoBlock table.now name.now block) }
{
    match table.find(name) {
        None => Err(Reply::Unknown),
        Some((_, volume)) => {
            if block < volume.count {
                Ok(volume.start + block)
            } else {
                Err(Reply::Range)
            }
        }
    }
}

/// Reads a block of a volume into the buffer.
pub(crate) fn read<P: Platform>(
    table: &Table,
    buffer: &mut [u8; BLOCK],
    session: &mut Session,
    platform: &mut P,
    name: &Name,
    block: u64,
) -> Result<Reply, DeviceStop>
    requires open { IsOpen session.old (P.head platform.old) }
    requires table { IsTable (blocks_of session.old) table.now }
    ensures calls { (drawn : Drawn) → Calls P.Platform 0 (reads_in table.now (lines.Read name.now block) buffer.new result) platform.old platform.new drawn drawn session.old session.new result }
    ensures written { IfOk result (λ reply. CanWrite (said reply buffer.new)) }
    ensures short { IfOk result FitsBlock }
    ensures turns { P.tells → (entry : Held) → IsHeld (P.history platform.old).present (P.head platform.old) session.old table.now entry
        → TurnsTo (P.history platform.new).present (P.head platform.new) table.now session.new entry
        (λ reply next. OnBlock table.now entry name.now block Reads reply next) (Unit {0}) buffer.new result }
    // On any pages: why it is answered so.
    ensures any { AnswersOver P.tells (P.history platform.old).present (P.history platform.new).present session.old session.new
        (sizes (blocks_of session.old) (P.head platform.new) (P.capacity platform.new)) table.now table.now (lines.Read name.now block) buffer.new result }
{
    match block_of(table, name, block) {
        Err(reply) => Ok(reply),
        Ok(at) => match read_block(session, platform, at, buffer) {
            Ok(()) => Ok(reply_with_content(buffer)),
            Err(stop) => Err(stop),
        },
    }
}

/// Writes a block of a volume: at most 4,096 bytes, and zeros up to its end.
pub(crate) fn write<P: Platform, T: Tape>(
    table: &Table,
    session: &mut Session,
    platform: &mut P,
    tape: &mut T,
    name: &Name,
    block: u64,
    content: &[u8],
) -> Result<Reply, DeviceStop>
    requires size { length content.now ≤ 4096 }
    requires open { IsOpen session.old (P.head platform.old) }
    requires table { IsTable (blocks_of session.old) table.now }
    ensures calls { (buffer : List ℕ) → Calls P.Platform 1 (reads_in table.now (lines.Write name.now block content.now) buffer result) platform.old platform.new
        (drawn_by T.Tape tape.old) (drawn_by T.Tape tape.new) session.old session.new result }
    ensures words { IfOk result IsWords }
    ensures turns { P.tells → (entry : Held) (buffer : List ℕ) → IsHeld (P.history platform.old).present (P.head platform.old) session.old table.now entry
        → TurnsTo (P.history platform.new).present (P.head platform.new) table.now session.new entry
        (λ reply next. OnBlock table.now entry name.now block (Writes (P.capacity platform.old) content.now) reply next) (entry.pages ≢ P.capacity platform.old) buffer result }
    // On any pages: why it is answered so.
    ensures any { (buffer : List ℕ) → AnswersOver P.tells (P.history platform.old).present (P.history platform.new).present session.old session.new
        (sizes (blocks_of session.old) (P.head platform.new) (P.capacity platform.new)) table.now table.now (lines.Write name.now block content.now) buffer result }
    // Which keys it draws, each for a page.
    ensures drew { (buffer : List ℕ) → IfOk result (λ reply. DrewFor (tally (T.drawn tape.old) (P.head platform.old)) (lines.Write name.now block content.now) (said reply buffer) (tally (T.drawn tape.new) (P.head platform.new))) }
{
    match block_of(table, name, block) {
        Err(reply) => Ok(reply),
        Ok(at) => {
            if platform.head() == platform.capacity() {
                return Ok(Reply::Full);
            }
            match write_block(session, platform, tape, at, content) {
                Ok(()) => Ok(Reply::Done),
                Err(stop) => Err(stop),
            }
        }
    }
}

/// Trims a block of a volume.
pub(crate) fn trim<P: Platform>(
    table: &Table,
    session: &mut Session,
    platform: &mut P,
    name: &Name,
    block: u64,
) -> Result<Reply, DeviceStop>
    requires open { IsOpen session.old (P.head platform.old) }
    requires table { IsTable (blocks_of session.old) table.now }
    ensures calls { (drawn : Drawn) (buffer : List ℕ) → Calls P.Platform 1 (reads_in table.now (lines.Trim name.now block) buffer result) platform.old platform.new drawn drawn session.old session.new result }
    ensures head { P.head platform.new ≡ P.head platform.old }
    ensures words { IfOk result IsWords }
    ensures turns { P.tells → (entry : Held) (buffer : List ℕ) → IsHeld (P.history platform.old).present (P.head platform.old) session.old table.now entry
        → TurnsTo (P.history platform.new).present (P.head platform.new) table.now session.new entry
        (λ reply next. OnBlock table.now entry name.now block Trims reply next) (Unit {0}) buffer result }
    // On any pages: why it is answered so.
    ensures any { (buffer : List ℕ) → AnswersOver P.tells (P.history platform.old).present (P.history platform.new).present session.old session.new
        (sizes (blocks_of session.old) (P.head platform.new) (P.capacity platform.new)) table.now table.now (lines.Trim name.now block) buffer result }
{
    match block_of(table, name, block) {
        Err(reply) => Ok(reply),
        Ok(at) => match trim_block(session, platform, at) {
            Ok(()) => Ok(Reply::Done),
            Err(stop) => Err(stop),
        },
    }
}

//! What the definitions say of one another: functions that do nothing, whose clauses are laws.
ghost use Rattle.std.specs.Prelude.{◌≡◌, ◌+◌, ◌*◌, ◌/◌, ◌++◌, ℕ, List, [], length};
ghost use Rattle.sdbt_base.specs.Arrays.{Session, content_of, written, unmapped};
ghost use Rattle.byte_arrays.specs.Arrays.{bytes_at, with_bytes};
ghost use Rattle.byte_arrays.specs.Ranges.{IsCovered, blocks_from, touched_blocks, covered_blocks};
ghost use Rattle.byte_arrays.specs.Parts.{IsPart, IsAtPart};
ghost use Rattle.nbd_lang.specs.Requests.{RequestSent};
ghost use Rattle.nbd_lang.specs.Replies.{Reply};
ghost use Rattle.device_course.specs.Held.{Held, trim_all};
ghost use Rattle.nbd_terms.specs.Bytes.{array_of, write_all};
ghost use Rattle.nbd_terms.specs.Turn.{Turn};
ghost use Rattle.device_course.specs.Leading.{last_of, Led, EndsAt};

/// A law: after a write, block by block, the array has the write's bytes in their place, and all
/// others as before.
pub fn write_puts_its_bytes()
    ensures { (session : Session) (offset : ℕ) (put : List ℕ) (place : ℕ)
        → array_of (write_all session (with_bytes (array_of session) offset put)
        (touched_blocks offset (length put))) place
        ≡ with_bytes (array_of session) offset put place }
{}

/// A law: after a trim the array has zeros in the blocks that the range covers, and all other bytes
/// as before.
pub fn trim_clears_the_blocks_it_covers()
    ensures covered { (session : Session) (offset n place : ℕ) → IsCovered offset n (place / 4096)
        → array_of (trim_all session (covered_blocks offset n)) place ≡ 0 }
    ensures elsewhere { (session : Session) (offset n place : ℕ)
        → ¬ IsCovered offset n (place / 4096)
        → array_of (trim_all session (covered_blocks offset n)) place ≡ array_of session place }
{}

/// A law: a write is done part by part. A block that is written with what the array is to have
/// there is the next of those that the range touches, and what it held is what the array had there.
pub fn parts_are_written()
    ensures step { (session : Session) (offset : ℕ) (put : List ℕ)
        (done block start count parts : ℕ) (content : List ℕ)
        → IsPart offset (length put) done block start count → IsAtPart offset done parts
        → content ≡ bytes_at (with_bytes (array_of session) offset put) (4096 * block) 4096
        → written (write_all session (with_bytes (array_of session) offset put)
        (blocks_from (offset / 4096) parts)) block content
        ≡ write_all session (with_bytes (array_of session) offset put)
        (blocks_from (offset / 4096) (parts + 1)) }
    ensures before { (session : Session) (array : ℕ → ℕ) (first n block : ℕ) (content : List ℕ)
        → block ≡ first + n
        → content ≡ content_of (write_all session array (blocks_from first n)).contents block
        → length content ≡ 4096
        → content ≡ bytes_at (array_of session) (4096 * block) 4096 }
{}

/// A law: a trim is done block by block.
pub fn trims_follow()
    ensures { (session : Session) (first n : ℕ)
        → trim_all session (blocks_from first (n + 1))
        ≡ unmapped (trim_all session (blocks_from first n)) (first + n) }
{}

/// A law: how parts of a run lead on.
pub fn parts_lead_on()
    ensures { (capacity : ℕ) (entry : Held) (asked more : List RequestSent)
        (answers others : List Reply) (ahead : List Held)
        → length answers ≡ length asked
        → (one : Led (Turn capacity) (λ held. held.device) EndsAt entry asked answers [])
        → Led (Turn capacity) (λ held. held.device) EndsAt
        (last_of entry one.states) more others ahead
        → Led (Turn capacity) (λ held. held.device) EndsAt entry (asked ++ more)
        (answers ++ others) ahead }
{}

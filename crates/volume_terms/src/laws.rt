//! What the definitions say of one another: functions that do nothing, whose clauses are laws.
ghost use Rattle.std.specs.Prelude.{◌≡◌, ◌≢◌, ◌+◌, ◌*◌, ◌<◌, ◌≤◌, ◌^◌, ℕ, List, All, length};
ghost use Rattle.device_course.specs.Held.{Held};
ghost use Rattle.device_course.specs.Leading.{Leads, last_of};
ghost use Rattle.volume_table.specs.declared.volume.Volume.{Volume};
ghost use Rattle.volume_lines.specs.Lines.{Line};
ghost use Rattle.volume_lines.specs.Replies.{Reply, Destroyed};
ghost use Rattle.volume_terms.specs.Counting.{IsNotShort, IsRoomy, needed_for_line, pages_ahead};
ghost use Rattle.volume_terms.specs.Destroyed.{IsFree, IsFreeUntilTaken, LeavesNothing};
ghost use Rattle.volume_terms.specs.Own.{Array, AreOf, HasOwn};
ghost use Rattle.volume_terms.specs.Turn.{Turn};
ghost use Rattle.volume_terms.specs.Volumes.{IsTabled, VolumeIn};

/// A law: for each name, the lines of a run that have it, with their replies, are those of a machine
/// that knows this one volume and no other. That there is no room, or the medium is full, and the
/// numbers of commits are free.
pub fn each_volume_has_its_own_replies()
    ensures { (capacity : ℕ) (entry : Held) (table : List Volume) (lines : List (List ℕ))
        (replies : List Reply) (states : List Held) (name : List ℕ)
        → entry.device.blocks < 2 ^ 64 → IsTabled entry table
        → Leads (Turn capacity) entry lines replies states
        → HasOwn entry (last_of entry states) name lines replies }
{}

/// A law: which lines have a name, and what its volume is, is determined.
pub fn lines_of_a_name_are_determined()
    ensures lines { (name : List ℕ) (lines : List (List ℕ)) (replies : List Reply)
        (a b : List (Line × Reply))
        → AreOf name lines replies a → AreOf name lines replies b → a ≡ b }
    ensures volume { (held : Held) (name : List ℕ) (a b : Array) → held.device.blocks < 2 ^ 64
        → VolumeIn held name a → VolumeIn held name b → a ≡ b }
{}

/// A law: a line that is answered that a volume is destroyed leaves a device that has no block of it
/// and each other block but the first as the session had it. Such a block is free from there on until
/// a volume has it again.
pub fn destroyed_blocks_are_free()
    ensures destroyed { (capacity : ℕ) (old : Held) (line : List ℕ) (number : ℕ) (new : Held)
        → Turn capacity old line (Destroyed number) new → LeavesNothing old line new }
    ensures free { (capacity block : ℕ) (entry : Held) (lines : List (List ℕ))
        (replies : List Reply) (states : List Held)
        → entry.device.blocks < 2 ^ 64 → block ≢ 0 → IsFree block entry
        → Leads (Turn capacity) entry lines replies states → IsFreeUntilTaken block states }
{}

/// A law: where enough pages are free for each line, none is refused for want of them; and how many
/// pages a run adds, with those that a commit needs behind it.
pub fn enough_pages_are_enough()
    ensures enough { (capacity : ℕ) (entry : Held) (lines : List (List ℕ)) (replies : List Reply)
        (states : List Held)
        → IsRoomy capacity entry (length lines) → Leads (Turn capacity) entry lines replies states
        → All IsNotShort replies }
    ensures most { (capacity : ℕ) (entry : Held) (lines : List (List ℕ)) (replies : List Reply)
        (states : List Held)
        → Leads (Turn capacity) entry lines replies states
        → pages_ahead (last_of entry states)
        ≤ pages_ahead entry + needed_for_line entry.device.blocks * length replies }
{}

/// A law: block 0 has a table behind each line.
pub fn tables_stay()
    ensures blocks { (capacity : ℕ) (old : Held) (line : List ℕ) (reply : Reply) (new : Held)
        → Turn capacity old line reply new → new.device.blocks ≡ old.device.blocks }
    ensures tabled { (capacity : ℕ) (old : Held) (line : List ℕ) (reply : Reply) (new : Held)
        (table : List Volume)
        → IsTabled old table → Turn capacity old line reply new
        → (next : List Volume) × IsTabled new next }
{}

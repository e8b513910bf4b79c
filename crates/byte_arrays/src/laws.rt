//! What the definitions say of one another: functions that do nothing, whose clauses are laws.
ghost use Rattle.std.specs.Prelude.{◌≡◌, ◌⊎◌, ◌+◌, ◌<◌, ◌≤◌, ◌/◌, ◌↔◌, ◌++◌, ℕ, List, Contains, length};
ghost use Rattle.byte_arrays.specs.Arrays.{bytes_at, with_bytes};
ghost use Rattle.byte_arrays.specs.Ranges.{IsTouched, IsCovered, touched_blocks, covered_blocks};
ghost use Rattle.byte_arrays.specs.Parts.{IsPart, IsAtPart};

/// A law: bytes that were put in are read where they were put, and all others are as before.
pub fn writes_stay_in_their_range()
    ensures there { (array : ℕ → ℕ) (offset : ℕ) (put : List ℕ)
        → bytes_at (with_bytes array offset put) offset (length put) ≡ put }
    ensures elsewhere { (array : ℕ → ℕ) (offset : ℕ) (put : List ℕ) (place n : ℕ)
        → (place + n ≤ offset) ⊎ (offset + length put ≤ place)
        → bytes_at (with_bytes array offset put) place n ≡ bytes_at array place n }
{}

/// A law: two ranges, one behind the other, are read as one.
pub fn reads_join()
    ensures { (array : ℕ → ℕ) (place n more : ℕ)
        → bytes_at array place (n + more)
        ≡ bytes_at array place n ++ bytes_at array (place + n) more }
{}

/// A law: the lists of blocks are those that a range touches and those that it covers.
pub fn touched_and_covered()
    ensures touched { (offset n block : ℕ)
        → Contains (touched_blocks offset n) block ↔ IsTouched offset n block }
    ensures covered { (offset n block : ℕ)
        → Contains (covered_blocks offset n) block ↔ IsCovered offset n block }
{}

/// A law: the parts of a range are in the blocks that it touches, one after the other, and are as
/// many.
pub fn parts_follow()
    ensures block { (offset n done block start count parts : ℕ)
        → IsPart offset n done block start count
        → IsAtPart offset done parts → block ≡ offset / 4096 + parts }
    ensures next { (offset n done block start count parts : ℕ)
        → IsPart offset n done block start count
        → IsAtPart offset done parts → done + count < n
        → IsAtPart offset (done + count) (parts + 1) }
    ensures last { (offset n done block start count parts : ℕ)
        → IsPart offset n done block start count
        → IsAtPart offset done parts → done + count ≡ n
        → length (touched_blocks offset n) ≡ parts + 1 }
{}

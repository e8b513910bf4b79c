ghost use Rattle.std.specs.Prelude.{◌≡◌, ℕ, List, ◌<◌, ◌^◌};
ghost use Rattle.tpm_nv.specs.Messages.{IsData};
ghost use Rattle.tpm_nv.specs.Areas.{Area, Describes};

/// A law: a reply says one thing. What an index is, with which index it is, and what it holds, are
/// decided by the bytes.
pub fn one_spelling()
    ensures public { (index other : ℕ) (a b : Area) (reply : List ℕ) → index < 2 ^ 32 → other < 2 ^ 32
        → Describes index a reply → Describes other b reply → (index ≡ other) × (a ≡ b) }
    ensures content { (a b reply : List ℕ) → IsData a reply → IsData b reply → a ≡ b }
{}

ghost use Rattle.std.specs.Prelude.{◌≡◌, ◌≢◌, ◌<◌, ◌^◌, ℕ, List};
ghost use Rattle.volume_table.specs.Tables.{IsTable, table_bytes, Has};
ghost use Rattle.volume_table.specs.declared.volume.Volume.{Volume};

/// A law: no two tables have the same bytes.
pub fn one_spelling()
    ensures { (blocks other : ℕ) (a b : List Volume) → blocks < 2 ^ 64 → other < 2 ^ 64 → IsTable blocks a → IsTable other b
        → table_bytes a ≡ table_bytes b → a ≡ b }
{}

/// A law: no block is in two volumes of a table, and block 0 is in none.
pub fn ranges_are_disjoint()
    ensures apart { (blocks block i j : ℕ) (table : List Volume) → IsTable blocks table → i ≢ j → Has table i block → Has table j block → ⊥ }
    ensures first { (blocks i : ℕ) (table : List Volume) → IsTable blocks table → Has table i 0 → ⊥ }
{}

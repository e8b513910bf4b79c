ghost use Rattle.std.specs.Prelude.{◌≡◌, ℕ, ◌^◌, ◌<◌};
ghost use Rattle.node_codec.specs.Record.{Record, FitsRecord, record_bytes};
ghost use Rattle.node_codec.specs.Laws.{AreOne};

/// A law: the bytes of a record decide its address and its value, and of a node the version.
pub fn one_spelling()
    ensures { (version later addr other : ℕ) (a b : Record) → addr < 2 ^ 64 → other < 2 ^ 64 → FitsRecord version addr a → FitsRecord later other b → record_bytes version addr a ≡ record_bytes later other b → (addr ≡ other) × AreOne version later a b }
{}

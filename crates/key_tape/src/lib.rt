//! Tapes: where the keys of records come from.
//!
//! A [`SeedTape`] draws the keys of a number, the same ones on each run. A [`SourceTape`] draws its keys
//! from the bytes of a source, such as the system's randomness. That drawn keys are distinct is a premise of
//! those who ask for it, and no claim of either tape.
#![tactic(auto)]

mod seed_tape;
mod source_tape;

pub use seed_tape::SeedTape;
pub use source_tape::SourceTape;

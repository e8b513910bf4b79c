//! Judges a ledger that comes from an input: whether a root record is to be believed with it.
#![tactic(auto)]

mod judging;
mod reader;
mod refusals;

pub use judging::judge;
pub use refusals::JudgeRefusal;

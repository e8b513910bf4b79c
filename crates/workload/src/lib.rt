//! Scripts that follow from a number: a day's ordinary use of a device, the same on each run.
#![tactic(auto)]

mod draws;
mod laws;
mod scripts;
mod steps;
mod summaries;

pub use laws::generated_commands_are_ordinary;
pub use scripts::{MAX_COUNT, script};
pub use summaries::{Tally, lines_behind};

#[cfg(test)]
mod tests;

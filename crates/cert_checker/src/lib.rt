//! The checker of certificates: what a ledger must say to be believed, and what follows where it is.
#![tactic(auto)]

mod chains;
mod change;
mod checker;
mod fresh;
mod gone;
mod held;
mod laws;
mod listing;
mod live;
mod nodes;
mod numbers;
mod rules;
mod run;
mod search;
mod stepping;
mod updates;
mod verdict;

pub use checker::Checker;
pub use laws::{
    facts_stay, fits_first, fits_next, fits_waits, format_fits, one_first, soundness, succession,
};
pub use verdict::{CheckRefusal, Verdict};

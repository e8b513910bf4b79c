//! Serves the lines of volumes, over a session and the table that its block 0 spells.
#![tactic(auto)]

mod blocks;
mod changing;
mod committing;
mod creating;
mod serving;

pub use serving::{Answered, Desk, serve_line};

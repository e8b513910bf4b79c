//! Serves an input of lines of volumes to its end, over a session and the table that its block 0 spells.
#![tactic(auto)]

mod serving;

pub use serving::serve_input;

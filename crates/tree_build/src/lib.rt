//! A tree built anew over data records: nodes of half the order each, level by level from the leaves up.
//!
//! The data records come first, in order of their blocks, and their nodes behind them, left to right and one level after another, each at
//! the next address and under a key of its own. How many nodes there will be, and what each is over, follows from the order and the
//! number of data records alone: so memory is taken, and a certificate written, before anything is sealed.
#![tactic(auto)]

mod building;
mod laws;
mod planning;
mod shapes;

pub use building::build;
pub use laws::{builds_a_tree, few_nodes, planned_places};
pub use planning::plan;
pub use shapes::{Shape, Span, built, shape};

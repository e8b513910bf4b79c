//! What a run over volumes promises: which reply belongs to which line, and what of it each volume
//! alone sees. Definitions, and laws as the clauses of functions that do nothing.
#![tactic(auto)]

mod laws;

pub use laws::{
    destroyed_blocks_are_free, each_volume_has_its_own_replies, enough_pages_are_enough,
    lines_of_a_name_are_determined, tables_stay,
};

//! What a tree that is partly in memory is over an image, and what it keeps account of for its next certificate.
#![tactic(auto)]

mod following;
mod laws;

pub use following::{
    follows_later, insertion_follows, misfit_is_wrong, ready_follows, removal_follows, root_follows,
};
pub use laws::{
    holds_later, insertion_holds, ready_holds, removal_holds, root_holds, sealed_differs,
};

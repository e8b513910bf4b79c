//! What servers share that take lines and put replies: the bytes of a line that has not ended, lines of text that are put, why a run
//! stops, and how lines that are handled one after another add up.
#![tactic(auto)]

mod pending;
mod stop;
mod texts;

pub use pending::Pending;
pub use stop::Stop;
pub use texts::{last_line, push_text, put_line};

//! The lines that a device with volumes is served by, and the replies to them: their grammar, and
//! their texts.
#![tactic(auto)]

mod lines;
mod replies;
mod words;
mod writing;

pub use lines::{Line, lines_spell_one_thing, long_lines_are_bad, parse_line};
pub use replies::{Reply, reply_with_content};
pub use writing::ReplyWriter;

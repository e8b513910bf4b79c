//! The script language of the device: lines, commands, replies, and the array machine that says
//! which reply belongs to which command.
#![tactic(auto)]

mod commands;
mod devices;
mod line_buffer;
mod machine;
mod reading;
mod replies;
mod words;
mod writing;

pub use commands::{
    Command, lines_spell_one_command, long_lines_are_bad, parse, parse_write_operands,
};
pub use devices::{Contents, Device, Session};
pub use machine::{Machine, is_in_limits, reply_with_content};
pub use reading::{is_refusal_text, read_reply, replies_are_determined, replies_are_lines};
pub use replies::Reply;
pub use words::parse_number;
pub use writing::ReplyWriter;

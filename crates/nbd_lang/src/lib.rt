//! The words of an NBD client and of its server, in the layout of NBD's fixed newstyle: the
//! greeting and the client's flags, options and their answers, requests and their replies. Each has
//! one spelling and one reading.
//! (<https://github.com/NetworkBlockDevice/nbd/blob/master/doc/proto.md>)
#![tactic(auto)]

mod answers;
mod fields;
mod greeting;
mod laws;
mod options;
mod replies;
mod requests;

pub use answers::{Answer, EXPORT_ANSWER, OPTION_REPLY, write_export_answer, write_option_reply};
pub use greeting::{CLIENT_FLAGS, ClientFlags, GREETING, read_flags};
pub use laws::{
    flags_read_one_way, greeting_is_spelled, options_read_one_way, requests_read_one_way,
};
pub use options::{OPTION_HEAD, OPTION_MAGIC, OptionHead, OptionKind, is_option, read_option};
pub use replies::{Outcome, REPLY_HEAD, write_reply_head};
pub use requests::{
    LONGEST, REQUEST_HEAD, REQUEST_MAGIC, Request, RequestKind, is_request, read_request,
};

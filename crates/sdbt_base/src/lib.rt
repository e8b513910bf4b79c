//! What every crate of Kavastair stands on: sizes, keys, faults, and the traits of the outside.
//!
//! Bytes come in through a [`Source`] and go out through a [`Sink`]; keys come from a [`Tape`]. Each of
//! them counts its faults, and answers a fault only where that count rose.
#![tactic(auto)]

mod faults;
mod key_slot;
mod keys;
mod limits;
mod lines;
mod list_tape;
mod lists;
mod mem_sink;
mod mem_source;
mod read_source;
mod sinks;
mod sources;
mod tapes;
mod transfers;
mod write_sink;

pub use faults::{Memory, PlatformFault, SinkFault, SourceFault, TapeFault};
pub use key_slot::KeySlot;
pub use keys::Key;
pub use limits::{
    BLOCK, KEY, MAX_BLOCKS, MAX_INPUT, MAX_LEVEL, MAX_ORDER, MAX_PAGES, RECORD, ROOT,
};
pub use lines::Line;
pub use list_tape::ListTape;
pub use lists::{Addrs, Listed, Unkept, UnkeptList};
pub use mem_sink::MemSink;
pub use mem_source::MemSource;
pub use read_source::ReadSource;
pub use sinks::Sink;
pub use sources::{Source, ends_behind};
pub use tapes::Tape;
pub use transfers::{copy_front, read_whole, write_whole};
pub use write_sink::WriteSink;

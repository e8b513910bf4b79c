//! The replies to lines.
ghost use Rattle.std.specs.Prelude.{◌≡◌};
ghost use Rattle.script_lang.specs.Arrays.{trimmed};
ghost use Rattle.volume_lines.specs.Replies as replies;
ghost use Rattle.volume_lines.specs.Replies.{said, FitsBlock, CanWrite};

use sdbt_base::BLOCK;

/// The answer to a line. What a block holds stands apart, at the front of a buffer.
#[derive(Clone, Copy, Debug, PartialEq, Eq)]
pub enum Reply {
    /// There is a new volume.
    Created,
    /// There is a volume of this name already.
    Exists,
    /// There are 64 volumes, or so many blocks are free nowhere.
    NoRoom,
    /// There is no volume of this name.
    Unknown,
    /// What a block holds, without its trailing zero bytes: so many bytes of the buffer.
    Content { count: usize },
    /// The write or trim is done, but not committed.
    Done,
    /// The block, or the number of blocks, is out of range.
    Range,
    /// The medium has no room for this.
    Full,
    /// There is no such volume any more, and the device has this commit number.
    Destroyed { number: u64 },
    /// There is no such volume any more, but the medium has no room for the commit.
    Uncommitted,
    /// The device has all changes, and this commit number.
    Committed { number: u64 },
    /// The line is outside the grammar.
    Bad,
}

/// The reply that gives the content of the block in the buffer: all of it but its trailing zeros.
pub fn reply_with_content(buffer: &[u8; BLOCK]) -> Reply
    ensures value { said result buffer.now ≡ replies.Content (trimmed buffer.now) }
    // The reply can be written.
    ensures written { CanWrite (said result buffer.now) }
    ensures short { FitsBlock result }
{
    match script_lang::reply_with_content(buffer) {
        script_lang::Reply::Content { count } => Reply::Content { count },
        _ => unreachable!(),
    }
}

//! The replies to the commands of a script.

/// The answer to a line. What a block holds stands apart, at the front of a buffer.
#[derive(Clone, Copy, Debug, PartialEq, Eq)]
pub enum Reply {
    /// There is a new device, with commit number 0.
    Formatted,
    /// There is a session, over the device with this commit number.
    Mounted { number: u64 },
    /// What a block holds, without its trailing zero bytes: so many bytes of the buffer.
    Content { count: usize },
    /// The write or trim is in the session.
    Done,
    /// The device has the session's blocks, and this commit number.
    Committed { number: u64 },
    /// The session is given up.
    Dropped,
    /// There is no device any more.
    Erased,
    /// The device has version 2, and this commit number.
    Upgraded { number: u64 },
    /// The number of the session's mapped blocks, and the commit number.
    Stat { mapped: u64, number: u64 },
    /// How many pages there are, and how many nodes and blocks can be read.
    Seized { pages: u64, nodes: u64, blocks: u64 },
    /// The line is outside the grammar.
    Bad,
    /// There is no session.
    Unmounted,
    /// There is a session already.
    AlreadyMounted,
    /// There is a device already.
    NotEmpty,
    /// There is no device.
    NoDevice,
    /// The device has version 2 already.
    AlreadyUpgraded,
    /// The block, or a number of the format, is out of range.
    Range,
    /// The medium has no room for this.
    Full,
}

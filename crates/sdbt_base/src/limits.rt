//! The sizes of the formats, and the limits of a device.

/// The bytes of a block's content.
pub const BLOCK: usize = 4096;

/// The bytes of a record, and so of a page of the medium: 32 bytes of head, and a block.
pub const RECORD: usize = 4128;

/// The bytes of the root record.
pub const ROOT: usize = 128;

/// The bytes of a key.
pub const KEY: usize = 32;

/// The greatest number of blocks of a device.
pub const MAX_BLOCKS: u64 = 1_048_576;

/// The greatest order of a tree, which is the greatest number of entries of a node.
pub const MAX_ORDER: u16 = 64;

/// The greatest level of a root node. A leaf has level 1.
pub const MAX_LEVEL: u8 = 20;

/// The greatest number of pages of a medium: 2^32.
pub const MAX_PAGES: u64 = 4_294_967_296;

/// The greatest number of bytes that one run takes from its input: 2^32.
pub const MAX_INPUT: u64 = 4_294_967_296;

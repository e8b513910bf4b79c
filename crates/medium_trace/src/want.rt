use std::alloc::{AllocError, AllocFailed};

/// There was no memory for what the call wanted to keep.
#[derive(Clone, Copy, Debug, PartialEq, Eq)]
pub struct Memory;

impl From<AllocError> for Memory {
    fn from(_: AllocError) -> Self {
        Memory
    }
}

impl<T: Drop> From<AllocFailed<T>> for Memory {
    fn from(_: AllocFailed<T>) -> Self {
        Memory
    }
}

//! Want of memory.

use std::alloc::{AllocError, AllocFailed};

/// Memory ran out. Nothing tells when it does, so no clause says when this answer comes.
#[derive(Clone, Copy, Debug, PartialEq, Eq)]
pub struct Memory;

impl<T: Drop> From<AllocFailed<T>> for Memory {
    fn from(_failure: AllocFailed<T>) -> Memory {
        Memory
    }
}

impl From<AllocError> for Memory {
    fn from(_failure: AllocError) -> Memory {
        Memory
    }
}

//! Want of memory.

use std::alloc::{AllocError, AllocFailed};

/// Want of memory: the one answer that no clause ties to a cause.
#[derive(Clone, Copy, Debug, PartialEq, Eq)]
pub struct Mem;

impl From<AllocError> for Mem {
    fn from(_: AllocError) -> Mem {
        Mem
    }
}

impl<T: Drop> From<AllocFailed<T>> for Mem {
    fn from(_: AllocFailed<T>) -> Mem {
        Mem
    }
}

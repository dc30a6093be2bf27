//! What a call of this crate answers in place of a value.

use std::alloc::{AllocError, AllocFailed};

/// Memory ran out.
#[derive(Debug, Clone, Copy, PartialEq, Eq, Drop)]
pub struct Memory;

impl From<AllocError> for Memory {
    fn from(_refused: AllocError) -> Memory {
        Memory
    }
}

impl<T: Drop> From<AllocFailed<T>> for Memory {
    fn from(_refused: AllocFailed<T>) -> Memory {
        Memory
    }
}

impl From<hsearch::Memory> for Memory {
    fn from(_refused: hsearch::Memory) -> Memory {
        Memory
    }
}

//! What a call of this crate answers in place of a value.

use std::alloc::AllocError;

/// Memory ran out.
#[derive(Debug, Clone, Copy, PartialEq, Eq, Drop)]
pub struct Memory;

impl From<conn_store::Memory> for Memory {
    fn from(_refused: conn_store::Memory) -> Memory {
        Memory
    }
}

impl From<AllocError> for Memory {
    fn from(_refused: AllocError) -> Memory {
        Memory
    }
}

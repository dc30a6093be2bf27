//! What a call of this crate answers in place of a value.

use std::alloc::AllocError;

/// A read or a write moved no byte, and the link counted a fault.
#[derive(Debug, Clone, Copy, PartialEq, Eq)]
pub struct LinkFault;

/// Memory ran out.
#[derive(Debug, Clone, Copy, PartialEq, Eq)]
pub struct Memory;

impl From<AllocError> for Memory {
    fn from(_refused: AllocError) -> Memory {
        Memory
    }
}

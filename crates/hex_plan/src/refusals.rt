//! What a call of this crate answers in place of a value.

use std::alloc::{AllocError, AllocFailed};

/// An archive did not take a turn, and counted a fault.
#[derive(Debug, Clone, Copy, PartialEq, Eq, Drop)]
pub struct ArchiveFault;

/// Memory ran out.
#[derive(Debug, Clone, Copy, PartialEq, Eq, Drop)]
pub struct Memory;

impl From<AllocError> for Memory {
    fn from(_refused: AllocError) -> Memory {
        Memory
    }
}

impl From<hsearch::Memory> for Memory {
    fn from(_refused: hsearch::Memory) -> Memory {
        Memory
    }
}

impl<T: Drop> From<AllocFailed<T>> for Memory {
    fn from(_refused: AllocFailed<T>) -> Memory {
        Memory
    }
}

impl From<hex_found::Memory> for Memory {
    fn from(_refused: hex_found::Memory) -> Memory {
        Memory
    }
}

impl From<win_cert::Memory> for Memory {
    fn from(_refused: win_cert::Memory) -> Memory {
        Memory
    }
}

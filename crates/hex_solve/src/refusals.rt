//! What a call of this crate answers in place of a value.

/// Memory ran out.
#[derive(Debug, Clone, Copy, PartialEq, Eq, Drop)]
pub struct Memory;

impl From<hsearch::Memory> for Memory {
    fn from(_refused: hsearch::Memory) -> Memory {
        Memory
    }
}

impl From<win_cert::Memory> for Memory {
    fn from(_refused: win_cert::Memory) -> Memory {
        Memory
    }
}

impl From<hex_found::Memory> for Memory {
    fn from(_refused: hex_found::Memory) -> Memory {
        Memory
    }
}

//! What a call of this crate answers in place of a value.

/// Memory ran out.
#[derive(Debug, Clone, Copy, PartialEq, Eq, Drop)]
pub struct Memory;

impl From<cert_check::Memory> for Memory {
    fn from(_refused: cert_check::Memory) -> Memory {
        Memory
    }
}

impl From<cert_draft::Memory> for Memory {
    fn from(_refused: cert_draft::Memory) -> Memory {
        Memory
    }
}

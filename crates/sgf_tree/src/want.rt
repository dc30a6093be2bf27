//! The answer if memory runs out.

/// Memory ran out.
#[derive(Debug, Clone, Copy, PartialEq, Eq)]
pub struct Memory;

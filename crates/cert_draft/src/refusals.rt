//! What a call of this crate answers in place of a value.

/// Memory ran out.
#[derive(Debug, Clone, Copy, PartialEq, Eq, Drop)]
pub struct Memory;

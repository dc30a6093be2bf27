//! Why bytes are refused.

use thiserror::Error;

/// Why bytes are not read as a collection. `TooDeep` comes before `NotSgf`.
#[derive(Clone, Copy, Debug, PartialEq, Eq, Drop, Error)]
pub enum SgfError {
    /// The bytes are no collection's text. `at` is the length of the longest prefix that some
    /// collection's text begins with.
    #[error("not SGF at byte {at}")]
    NotSgf { at: usize },
    /// More than 64 trees are open at a place of that prefix.
    #[error("the trees nest too deep")]
    TooDeep,
    /// Memory ran out.
    #[error("out of memory")]
    Memory,
}

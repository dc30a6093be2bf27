//! How an engine chooses its moves.

use hex_plan::Means;
use tree_words::Knobs;

/// How an engine chooses its moves.
#[derive(Clone, Copy, Debug, PartialEq, Eq)]
pub struct Options {
    /// The knobs of its searches. The seed is that of the first turn's.
    pub knobs: Knobs,
    /// By what means it chooses beside its searches.
    pub means: Means,
}

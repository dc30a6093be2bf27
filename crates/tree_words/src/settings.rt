//! The knobs of a search, and their ranges.

/// The most workers of a search.
pub const MOST_WORKERS: u32 = 64;

/// The most playouts of a search. A record's leaf stays far below 2^32, and each count below the
/// bound of a score.
pub const MOST_PLAYOUTS: u32 = 1_000_000;

/// The fewest words of a block area: the largest block has room behind the root's.
pub const LEAST_WORDS: u32 = 1_024;

/// The most words of a block area: 128 MiB.
pub const MOST_WORDS: u32 = 16_777_216;

/// The greatest expand number.
pub const MOST_EXPAND: u32 = 1_000;

/// What a search is told besides its board: how many workers and playouts, its seed, and the
/// constants of its tree.
#[derive(Clone, Copy, Debug, PartialEq, Eq)]
pub struct Knobs {
    /// How many workers search: 1 to [`MOST_WORKERS`].
    pub workers: u32,
    /// How many playouts are made: 1 to [`MOST_PLAYOUTS`].
    pub playouts: u32,
    /// The seed of the playouts.
    pub seed: u64,
    /// How many words the block area has: [`LEAST_WORDS`] to [`MOST_WORDS`].
    pub words: u32,
    /// From how many visits on a node gets a block: 1 to [`MOST_EXPAND`].
    pub expand: u32,
    /// The weight of few visits in a score, in 256th parts: 0 to `MOST_WEIGHT` of uct_table.
    pub weight: u32,
}

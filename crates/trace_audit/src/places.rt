//! Where each field of a text stands among those behind its name.
//!
//! A set of cells has two fields, the low word and then the high one; its place is that of the low
//! one.

/// The cells on a side of the board.
pub(crate) const SIZE_FIELD: usize = 0;

/// The black stones.
pub(crate) const BLACK_FIELD: usize = 1;

/// The white stones.
pub(crate) const WHITE_FIELD: usize = 3;

/// The number of the player to move.
pub(crate) const PLAYER_FIELD: usize = 5;

/// The allowed cells.
pub(crate) const ALLOWED_FIELD: usize = 6;

/// How many workers searched.
pub(crate) const WORKERS_FIELD: usize = 8;

/// How many playouts were made.
pub(crate) const PLAYOUTS_FIELD: usize = 9;

/// The seed.
pub(crate) const SEED_FIELD: usize = 10;

/// How many words the block area has.
pub(crate) const WORDS_FIELD: usize = 11;

/// From how many visits on a node got a block.
pub(crate) const EXPAND_FIELD: usize = 12;

/// The weight of few visits.
pub(crate) const WEIGHT_FIELD: usize = 13;

/// How many words of the tree follow.
pub(crate) const COUNT_FIELD: usize = 14;

/// How many fields there are.
pub(crate) const FIELDS: usize = 15;

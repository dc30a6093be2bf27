//! Why a collection is no game.

use thiserror::Error;

/// Why a collection has no game. They come in the order `NotHex`, `BadSize`, `BadSetup`, `BadMove`.
#[derive(Clone, Copy, Debug, PartialEq, Eq, Drop, Error)]
pub enum GameError {
    /// The root has no GM, or its first value is not 11, the number of Hex.
    #[error("not a game of Hex")]
    NotHex,
    /// The first SZ of the root is no size from 1 to 11.
    #[error("not a board's size")]
    BadSize,
    /// `index` is the first move, counted from 0 along the main line, that is refused.
    #[error("move {index} is refused")]
    BadMove { index: u32 },
    /// Stones are set up behind the root, or removed, or on no cell of the board, or on a cell
    /// twice.
    #[error("the start stones are refused")]
    BadSetup,
    /// Memory ran out.
    #[error("out of memory")]
    Memory,
}

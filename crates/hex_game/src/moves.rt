//! What is played, and why it may be refused.

use hex_cells::{Cell, Colour};
use thiserror::Error;

/// The most steps of a game: a stone for each cell of the largest board, and the swap, which adds
/// none.
pub const MOST_STEPS: usize = 122;

/// What a player does in one step.
#[derive(Clone, Copy, Debug, PartialEq, Eq)]
pub enum Move {
    /// A stone on that cell.
    Stone(Cell),
    /// `swap-pieces`: White takes over Black's one stone, mirrored at the board's long diagonal.
    Swap,
}

/// One step of a game's history: who made it, and what he did.
#[derive(Clone, Copy, Debug, PartialEq, Eq)]
pub struct Step {
    pub colour: Colour,
    pub what: Move,
}

/// Why a step is refused. `Over` comes before the others.
#[derive(Clone, Copy, Debug, PartialEq, Eq, Drop, Error)]
pub enum PlayError {
    /// The stone's cell holds a stone.
    #[error("the cell holds a stone")]
    Occupied = 1,
    /// A player is joined.
    #[error("the game is over")]
    Over = 2,
    /// A swap is White's alone, as the answer to Black's one stone on a board that was empty.
    #[error("a swap may not come here")]
    BadSwap = 3,
}

/// There is no step to take back.
#[derive(Clone, Copy, Debug, PartialEq, Eq)]
pub struct NoMove;

/// Memory ran out.
#[derive(Clone, Copy, Debug, PartialEq, Eq)]
pub struct Memory;

//! A board: a size and the stones of both players.

use hex_cells::{CellSet, Size};
use std::marker::Model;

/// A board with stones: its size and two sets of stones, which have no cell in common and lie on
/// the board.
#[derive(Clone, Copy, Debug, PartialEq, Eq)]
pub struct Board {
    pub(crate) size: Size,
    pub(crate) black: CellSet,
    pub(crate) white: CellSet,
}

impl Model for Board {
    ghost use Rattle.hex_board.specs.Positions.{Position, IsPosition};

    ghost Value = { Position };

    ghost view = { λ b. record { size = b.size; black = b.black; white = b.white } };

    ghost inverse = { λ p. record { size = p.size; black = p.black; white = p.white } };

    ghost invariant = { λ b. IsPosition b.size b.black b.white };
}

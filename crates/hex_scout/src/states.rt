//! States of the game.

use conn_store::Kind;
use edge_tables::Key;
use hex_board::Board;
use hex_cells::{Cell, Colour};

/// A board, and who moves next on it.
#[derive(Clone, Copy, Debug, PartialEq, Eq)]
pub struct State {
    pub board: Board,
    pub mover: Colour,
}

impl State {
    /// The state after the mover's stone on the cell, if it is empty.
    pub(crate) fn after(&self, cell: Cell) -> State {
        let mut board = self.board;
        if board.empties().has(cell) {
            board.place(self.mover, cell);
        }
        let mover = self.mover.other();
        State { board, mover }
    }

    /// The stones of both players, which tell who moves, too.
    pub(crate) fn stones(&self) -> (u128, u128) {
        let bits = |colour: Colour| self.board.stones(colour).bits();
        (bits(Colour::Black), bits(Colour::White))
    }

    /// The key of a player's entries of a kind.
    pub(crate) fn key(&self, player: Colour, kind: Kind) -> Key {
        Key {
            player,
            kind,
            stones: self.board.stones(player),
        }
    }
}

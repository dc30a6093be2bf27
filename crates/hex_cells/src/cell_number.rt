//! A cell and its number.

ghost use Rattle.std.specs.Prelude.{◌≡◌, ℕ, ◌+◌, ◌*◌, ◌/◌, ◌%◌, ◌<◌};

use super::{MOST_CELLS, Size};
use std::marker::Model;

/// A cell of a board, by its number `row * size + column`, from 0 to 120. Column and row count from
/// 0, so `a1` is 0.
#[derive(Clone, Copy, Debug, PartialEq, Eq)]
pub struct Cell {
    number: u32,
}

impl Model for Cell {
    ghost use Rattle.std.specs.Prelude.{ℕ, ◌<◌};
    ghost use Rattle.hex_cells.specs.declared.board_size.TheConstants.{MOST_CELLS};

    ghost Value = { ℕ };

    ghost view = { λ s. s.number };

    ghost inverse = { λ k. record { number = k } };

    ghost invariant = { λ s. s.number < MOST_CELLS };
}

impl Cell {
    /// The cell with this number.
    pub fn numbered(number: u32) -> Cell
        requires { number < MOST_CELLS }
        ensures { result ≡ number }
    {
        Cell { number }
    }

    /// The cell of a board of this size at `column` and `row`, both from 0.
    pub fn at(size: Size, column: u32, row: u32) -> Cell
        requires column { column < size }
        requires row { row < size }
        ensures value { result ≡ row * size + column }
        ensures on_board { result < size * size }
    {
        Cell {
            number: row * size.get() + column,
        }
    }

    /// The cell's number, from 0 to 120.
    pub fn number(self) -> u32
        ensures value { result ≡ self }
        ensures range { result < MOST_CELLS }
    {
        self.number
    }

    /// The column of a cell of the board, from 0.
    pub fn column(self, size: Size) -> u32
        requires { self < size * size }
        ensures value { result ≡ self % size }
        ensures range { result < size }
    {
        self.number % size.get()
    }

    /// The row of a cell of the board, from 0.
    pub fn row(self, size: Size) -> u32
        requires { self < size * size }
        ensures value { result ≡ self / size }
        ensures range { result < size }
    {
        self.number / size.get()
    }
}

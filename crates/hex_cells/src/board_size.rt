//! The size of a board.

ghost use Rattle.std.specs.Prelude.{◌≡◌, ℕ, ◌*◌, ◌≤◌, MatchOption};
ghost use Rattle.hex_cells.specs.declared.board_size.TheConstants.Size.{MAX};

use std::marker::Model;

/// The most cells of a board: the largest has 11 by 11.
pub const MOST_CELLS: u32 = 121;

/// How many columns a board has, and how many rows: 1 to 11.
#[derive(Clone, Copy, Debug, PartialEq, Eq)]
pub struct Size {
    n: u32,
}

impl Model for Size {
    ghost Value = { ℕ };

    ghost view = { λ s. s.n };

    ghost inverse = { λ n. record { n = n } };

    ghost invariant = { λ s. (1 ≤ s.n) × (s.n ≤ MAX) };
}

impl Size {
    /// The largest size.
    pub const MAX: u32 = 11;

    /// The size of the largest board.
    pub const LARGEST: Size = Size { n: Size::MAX };

    /// The size `n`; `None` exactly if `n` is not 1 to 11.
    pub fn of(n: u32) -> Option<Size>
        ensures { MatchOption result (¬ ((1 ≤ n) × (n ≤ Size.MAX)))
            (λ s. (s ≡ n) × ((1 ≤ n) × (n ≤ Size.MAX))) }
    {
        if 1 <= n && n <= Size::MAX {
            Some(Size { n })
        } else {
            None
        }
    }

    /// Does nothing: the range of each size is known after the call.
    #[inline]
    pub fn keeps(self)
        ensures range { (1 ≤ self) × (self ≤ Size.MAX) }
    {}

    /// The number of columns, and of rows: 1 to 11.
    pub fn get(self) -> u32
        ensures value { result ≡ self }
        ensures range { (1 ≤ result) × (result ≤ Size.MAX) }
    {
        self.n
    }

    /// The number of cells: 1 to [`MOST_CELLS`].
    pub fn cells(self) -> u32
        ensures value { result ≡ self * self }
        ensures range { (1 ≤ result) × (result ≤ MOST_CELLS) }
    {
        self.n * self.n
    }
}

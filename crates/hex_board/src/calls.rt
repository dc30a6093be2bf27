//! The calls of a board.

ghost use Rattle.std.specs.Prelude.{◌≡◌, ℕ, ◌*◌, ◌<◌, ◌≤◌, ◌↔◌, true};
ghost use Rattle.std.specs.Prelude.{IsTrue, MatchOption};
ghost use Rattle.hex_cells.specs.Sets.{has};
ghost use Rattle.hex_cells.specs.Colours.{other_of};
ghost use Rattle.hex_board.specs.Joined.{Joined, is_joined, winner_of};
ghost use Rattle.hex_board.specs.Positions.{Apart, HasStone, IsPosition, Within, empty_board};
ghost use Rattle.hex_board.specs.Positions.{is_empty_at, placed, stone_at, stones_of};

use super::boards::Board;
use super::joined;
use hex_cells::{Cell, CellSet, Colour, Size};

impl Board {
    /// The board of this size with these stones. The sets have no cell in common and lie on the
    /// board.
    pub fn of(size: Size, black: CellSet, white: CellSet) -> Board
        requires apart { Apart black white }
        requires black_on { Within size black }
        requires white_on { Within size white }
        ensures { result ≡ record { size = size; black = black; white = white } }
    {
        size.keeps();
        Board { size, black, white }
    }

    /// The board of this size without stones.
    pub fn empty(size: Size) -> Board
        ensures value { result ≡ empty_board size }
        ensures nobody { winner_of result ≡ None }
    {
        Board::of(size, CellSet::none(), CellSet::none())
    }

    /// Does nothing: what each board keeps is known after the call.
    #[inline]
    pub fn keeps(&self)
        ensures position { IsPosition self.now.size self.now.black self.now.white }
        ensures range { (1 ≤ self.now.size) × (self.now.size ≤ Size.MAX) }
    {
        let _ = &self.size;
    }

    /// The size of the board.
    pub fn size(&self) -> Size
        ensures value { result ≡ self.now.size }
        ensures range { (1 ≤ result) × (result ≤ Size.MAX) }
    {
        self.size
    }

    /// The stones of a player.
    pub fn stones(&self, colour: Colour) -> CellSet
        ensures value { result ≡ stones_of self.now colour }
        ensures on_board { Within self.now.size result }
        ensures apart { Apart result (stones_of self.now (other_of colour)) }
    {
        match colour {
            Colour::Black => self.black,
            Colour::White => self.white,
        }
    }

    /// The cells of the board without a stone.
    pub fn empties(&self) -> CellSet
        ensures { (k : ℕ) → has result k ≡ is_empty_at self.now k }
    {
        CellSet::all(self.size).minus(self.black).minus(self.white)
    }

    /// The colour of the stone on a cell of the board; `None` exactly if the cell is empty.
    pub fn at(&self, cell: Cell) -> Option<Colour>
        requires { cell < self.now.size * self.now.size }
        ensures value { result ≡ stone_at self.now cell }
        ensures stone { MatchOption result (is_empty_at self.now cell ≡ true)
            (λ c. HasStone self.now c cell) }
    {
        if self.black.has(cell) {
            Some(Colour::Black)
        } else if self.white.has(cell) {
            Some(Colour::White)
        } else {
            None
        }
    }

    /// Puts a stone on an empty cell of the board.
    pub fn place(&mut self, colour: Colour, cell: Cell)
        requires { is_empty_at self.old cell ≡ true }
        ensures { self.new ≡ placed self.old colour cell }
    {
        match colour {
            Colour::Black => {
                self.black = self.black.with(cell);
            }
            Colour::White => {
                self.white = self.white.with(cell);
            }
        }
    }

    /// Whether a path of the player's stones leads from his first edge to his second.
    pub fn joined(&self, colour: Colour) -> bool
        ensures path { IsTrue result ↔ Joined self.now.size colour (stones_of self.now colour) }
        ensures value { result ≡ is_joined self.now.size colour (stones_of self.now colour) }
    {
        joined(self.stones(colour), colour, self.size)
    }

    /// Black if Black is joined, else White if White is joined, else `None`.
    pub fn winner(&self) -> Option<Colour>
        ensures value { result ≡ winner_of self.now }
        ensures black { (result ≡ Some Colour.Black)
            ↔ Joined self.now.size Colour.Black self.now.black }
        ensures white { (result ≡ Some Colour.White)
            ↔ (¬ (Joined self.now.size Colour.Black self.now.black)
            × Joined self.now.size Colour.White self.now.white) }
        ensures none { (result ≡ None)
            ↔ (¬ (Joined self.now.size Colour.Black self.now.black)
            × ¬ (Joined self.now.size Colour.White self.now.white)) }
    {
        if self.joined(Colour::Black) {
            Some(Colour::Black)
        } else if self.joined(Colour::White) {
            Some(Colour::White)
        } else {
            None
        }
    }
}

//! The elements of a player: his empty cells and groups, with tables of their cells.

ghost use Rattle.std.specs.Prelude.{◌≡◌, ℕ, ◌*◌, ◌<◌, ◌≤◌, ◌↔◌, true, IsTrue, IfNone, IfSome, None};
ghost use Rattle.hex_cells.specs.Colours.{other_of};
ghost use Rattle.hex_cells.specs.Sets.{has};
ghost use Rattle.hex_board.specs.Elements.{HasCell, PlayerBoard, edge_element, element_count};
ghost use Rattle.hex_board.specs.Elements.{element_of};
ghost use Rattle.hex_board.specs.Places.{Near, cell_of, is_near};
ghost use Rattle.hex_board.specs.ElementTables.{Meets};
ghost use Rattle.hex_board.specs.Positions.{is_empty_at, stones_of};

use super::Board;
use super::numbering::{MOST_ELEMENTS, Numbering};
use hex_cells::{Cell, CellSet, Colour};
use std::marker::Model;

/// The elements of a player on a board: each empty cell by itself, and the groups. A group is a
/// connected part of the player's stones and his two edges: neighbours are linked, and a stone on
/// an edge is linked to that edge. Element 0 holds the first edge, and the second
/// edge is in element 1, or in element 0 if the player is joined. The others follow in rising
/// order of their least cells. There are at most [`MOST_ELEMENTS`].
///
/// It keeps the cells of each element, and the cells beside it, so that `near` is a few steps on
/// machine words.
#[derive(Debug, Drop)]
pub struct Elements {
    numbering: Numbering,
    parts: [CellSet; MOST_ELEMENTS],
    reaches: [CellSet; MOST_ELEMENTS],
}

impl Model for Elements {
    ghost use Rattle.hex_board.specs.Elements.{PlayerBoard};
    ghost use Rattle.hex_board.specs.ElementTables.{IsTabled};

    ghost Value = { PlayerBoard };

    ghost view = { λ e. e.numbering };

    ghost invariant = { λ e. IsTabled e.numbering e.parts e.reaches };
}

impl Board {
    /// The elements of a player.
    pub fn elements(&self, colour: Colour) -> Elements
        ensures { result ≡ record { board = self.now; player = colour } }
    {
        let numbering = Numbering::of_board(self, colour);
        let mut parts = [CellSet::none(); MOST_ELEMENTS];
        let mut reaches = [CellSet::none(); MOST_ELEMENTS];
        let count = numbering.count();
        'elements: for x in 0..count {
            parts[x as usize] = numbering.cells(x as u8);
            reaches[x as usize] = numbering.beside(x as u8);
        }
        Elements {
            numbering,
            parts,
            reaches,
        }
    }
}

impl Elements {
    /// How many elements there are: 1 to [`MOST_ELEMENTS`].
    pub fn count(&self) -> u32
        ensures value { result ≡ element_count self.now }
        ensures range { (1 ≤ result) × (result ≤ MOST_ELEMENTS) }
    {
        self.numbering.count()
    }

    /// The element that holds the first edge, or the second: 0 or 1.
    pub fn edge(&self, second: bool) -> u8
        ensures value { result ≡ edge_element self.now second }
        ensures range { result < element_count self.now }
    {
        self.numbering.edge(second)
    }

    /// The element of a cell of the board; `None` exactly for a stone of the other player.
    pub fn of(&self, cell: Cell) -> Option<u8>
        requires { cell < self.now.board.size * self.now.board.size }
        ensures value { result ≡ element_of self.now cell }
        ensures range { IfSome result (λ x. x < element_count self.now) }
        ensures other { (result ≡ None)
            ↔ (has (stones_of self.now.board (other_of self.now.player)) cell ≡ true) }
    {
        self.numbering.of(cell)
    }

    /// The empty cell that an element below the count is; `None` exactly for a group.
    pub fn cell(&self, element: u8) -> Option<Cell>
        requires { element < element_count self.now }
        ensures value { result ≡ cell_of self.now element }
        ensures empty { IfSome result
            (λ k. (is_empty_at self.now.board k ≡ true) × HasCell self.now element k) }
        ensures group { IfNone result
            ((k : ℕ) → is_empty_at self.now.board k ≡ true → ¬ (HasCell self.now element k)) }
    {
        let empty = self.cells(element).meet(self.numbering.empties());
        empty.least()
    }

    /// The cells of an element below the count: the empty cell, or the stones of the group.
    pub fn cells(&self, element: u8) -> CellSet
        requires { element < element_count self.now }
        ensures { (k : ℕ) → IsTrue (has result k) ↔ HasCell self.now element k }
    {
        self.parts[element as usize]
    }

    /// Whether two elements below the count lie side by side: they differ, and a cell of one is a
    /// neighbour of a cell of the other, or one holds an edge and the other has a cell on that
    /// edge.
    pub fn near(&self, x: u8, y: u8) -> bool
        requires x { x < element_count self.now }
        requires y { y < element_count self.now }
        ensures near { IsTrue result ↔ Near self.now x y }
        ensures value { result ≡ is_near self.now x y }
    {
        x != y && (self.leads(x, y) || self.leads(y, x))
    }

    // Whether element `y` has a cell beside element `x`.
    fn leads(&self, x: u8, y: u8) -> bool
        requires x { x < element_count self.now }
        requires y { y < element_count self.now }
        ensures { IsTrue result ↔ Meets self.now x y }
    {
        self.reaches[x as usize].meets(self.parts[y as usize])
    }
}

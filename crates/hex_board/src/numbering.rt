//! How the elements of a player are numbered: the edges first, then the others by their least
//! cells.

ghost use Rattle.std.specs.Prelude.{◌≡◌, ℕ, ◌*◌, ◌<◌, ◌≤◌, ◌↔◌, true, IsTrue, IfSome, Some, None};
ghost use Rattle.hex_cells.specs.Colours.{other_of};
ghost use Rattle.hex_cells.specs.Sets.{has};
ghost use Rattle.hex_board.specs.Elements.{HasCell, edge_element, edge_elements, element_count};
ghost use Rattle.hex_board.specs.Elements.{element_of, head_element, is_head, is_linked};
ghost use Rattle.hex_board.specs.ElementTables.{IsOnEdgeOf, Reaches};
ghost use Rattle.hex_board.specs.Positions.{Within, is_empty_at, stones_of};

use super::{Board, flood, roots_of};
use hex_cells::{Cell, CellSet, Colour, edge};
use std::marker::Model;

/// The most elements of a player: two hold his edges, and each other has a cell of its own.
pub const MOST_ELEMENTS: usize = 123;

/// The numbers of a player's elements: whether his edges are joined, the stones tied to each edge,
/// and the least cells of the other elements.
#[derive(Debug, Drop)]
pub(crate) struct Numbering {
    board: Board,
    colour: Colour,
    joined: bool,
    first: CellSet,
    second: CellSet,
    heads: CellSet,
}

impl Model for Numbering {
    ghost use Rattle.hex_board.specs.Elements.{PlayerBoard};
    ghost use Rattle.hex_board.specs.ElementTables.{IsNumbered};

    ghost Value = { PlayerBoard };

    ghost view = { λ e. record { board = e.board; player = e.colour } };

    ghost invariant = { λ e. IsNumbered
        (record { board = e.board; player = e.colour }) e.joined e.first e.second e.heads };
}

impl Numbering {
    // Numbers the elements of a player.
    pub(crate) fn of_board(board: &Board, colour: Colour) -> Numbering
        ensures { result ≡ record { board = board.now; player = colour } }
    {
        let size = board.size();
        let stones = board.stones(colour);
        let first_edge = edge(colour, false, size);
        let first = flood(first_edge, stones, size);
        let second = flood(edge(colour, true, size), stones, size);
        let lone = roots_of(stones, size).minus(first).minus(second);
        Numbering {
            board: *board,
            colour,
            joined: second.meets(first_edge),
            first,
            second,
            heads: board.empties().union(lone),
        }
    }

    // How many elements hold an edge.
    fn edge_elements(&self) -> u32
        ensures value { result ≡ edge_elements self.now }
        ensures range { (1 ≤ result) × (result ≤ 2) }
    {
        if self.joined { 1 } else { 2 }
    }

    // The element without an edge that has this least cell.
    fn head_element(&self, cell: Cell) -> u8
        ensures { result ≡ head_element self.now cell }
    {
        (self.edge_elements() + self.heads.rank(cell)) as u8
    }

    // How many elements there are: 1 to [`MOST_ELEMENTS`].
    pub(crate) fn count(&self) -> u32
        ensures value { result ≡ element_count self.now }
        ensures range { (1 ≤ result) × (result ≤ MOST_ELEMENTS) }
    {
        self.edge_elements() + self.heads.count()
    }

    // The element that holds the first edge, or the second: 0 or 1.
    pub(crate) fn edge(&self, second: bool) -> u8
        ensures value { result ≡ edge_element self.now second }
        ensures range { result < element_count self.now }
    {
        if second && !self.joined { 1 } else { 0 }
    }

    // The element of a cell.
    fn find(&self, cell: Cell) -> Option<u8>
        ensures { result ≡ element_of self.now cell }
    {
        if self.board.empties().has(cell) {
            return Some(self.head_element(cell));
        }
        if self.first.has(cell) {
            return Some(0);
        }
        if self.second.has(cell) {
            return Some(self.edge(true));
        }
        match self.linked(cell).least() {
            Some(root) => Some(self.head_element(root)),
            None => None,
        }
    }

    // The empty cells of the board.
    pub(crate) fn empties(&self) -> CellSet
        ensures items { (k : ℕ) → has result k ≡ is_empty_at self.now.board k }
        ensures stones { Within self.now.board.size (stones_of self.now.board self.now.player) }
    {
        self.board.empties()
    }

    // The stones that are linked to a cell, itself among them if it has a stone of the player.
    fn linked(&self, cell: Cell) -> CellSet
        ensures { (k : ℕ) → has result k ≡ is_linked self.now k cell }
    {
        let stones = self.board.stones(self.colour);
        flood(CellSet::none().with(cell), stones, self.board.size())
    }

    // The element of a cell of the board; `None` exactly for a stone of the other player.
    pub(crate) fn of(&self, cell: Cell) -> Option<u8>
        requires { cell < self.now.board.size * self.now.board.size }
        ensures value { result ≡ element_of self.now cell }
        ensures range { IfSome result (λ x. x < element_count self.now) }
        ensures other { (result ≡ None)
            ↔ (has (stones_of self.now.board (other_of self.now.player)) cell ≡ true) }
    {
        // The heads are those of the board's elements.
        let _heads = self.heads;
        self.find(cell)
    }

    // The least cell of an element without an edge.
    fn head(&self, element: u8) -> Cell
        requires low { edge_elements self.now ≤ element }
        requires high { element < element_count self.now }
        ensures head { is_head self.now result ≡ true }
        ensures number { head_element self.now result ≡ element }
    {
        self.heads.nth(u32::from(element) - self.edge_elements())
    }

    // The cells of an element without an edge, by its least cell.
    fn headed(&self, head: Cell) -> CellSet
        requires { is_head self.now head ≡ true }
        ensures { (k : ℕ) → IsTrue (has result k)
            ↔ HasCell self.now (head_element self.now head) k }
    {
        if self.board.empties().has(head) {
            CellSet::none().with(head)
        } else {
            self.linked(head)
        }
    }

    // The cells of an element below the count: the empty cell or the stones of the group.
    pub(crate) fn cells(&self, element: u8) -> CellSet
        requires { element < element_count self.now }
        ensures { (k : ℕ) → IsTrue (has result k) ↔ HasCell self.now element k }
    {
        if element == 0 {
            if self.joined {
                self.first.union(self.second)
            } else {
                self.first
            }
        } else if u32::from(element) < self.edge_elements() {
            self.second
        } else {
            self.headed(self.head(element))
        }
    }

    // The cells of the edges that an element holds.
    fn edges_of(&self, element: u8) -> CellSet
        ensures { (k : ℕ) → IsTrue (has result k) ↔ IsOnEdgeOf self.now element k }
    {
        let size = self.board.size();
        let first = if self.edge(false) == element {
            edge(self.colour, false, size)
        } else {
            CellSet::none()
        };
        let second = if self.edge(true) == element {
            edge(self.colour, true, size)
        } else {
            CellSet::none()
        };
        first.union(second)
    }

    // The cells beside an element below the count: the neighbours of its cells, and the edges that
    // it holds.
    pub(crate) fn beside(&self, element: u8) -> CellSet
        requires { element < element_count self.now }
        ensures { (k : ℕ) → IsTrue (has result k) ↔ Reaches self.now element k }
    {
        let cells = self.cells(element);
        cells
            .around(self.board.size())
            .union(self.edges_of(element))
    }
}

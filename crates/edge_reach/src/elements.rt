//! The elements of a player: his groups, with the edges, and the empty cells.

ghost use Rattle.std.specs.Prelude.{◌≡◌};
ghost use Rattle.std.specs.Iterator.{at_most};
ghost use Rattle.edge_reach.specs.declared.entries.End.{End};

use super::entries::End;
use super::reports::Question;
use hex_board::flood;
use hex_cells::{Cell, CellSet, MOST_CELLS, Size, edge};
use std::alloc::{AllocError, Global};

/// The cells of a set in rising order.
#[derive(Drop)]
pub struct Cells {
    rest: CellSet,
}

/// The cells of this set, one after another.
pub fn cells_of(set: CellSet) -> Cells {
    Cells { rest: set }
}

impl Iterator for Cells {
    type Item = Cell;

    ghost remaining = { λ s. at_most s.rest };

    fn next(&mut self) -> Option<Cell> {
        let cell = self.rest.least()?;
        self.rest = self.rest.without(cell);
        Some(cell)
    }
}

// An element: its cells, and those of the board that lie beside it, with those of its edge.
#[derive(Clone, Copy)]
struct Element {
    cells: CellSet,
    near: CellSet,
}

/// The elements. Number 0 has the first edge, number 1 the second; the others follow by their least
/// cells. Stones that lead to both edges are the second's.
#[derive(Drop)]
pub(crate) struct Elements {
    list: Vec<Element>,
    empties: CellSet,
}

impl Elements {
    /// No elements.
    pub(crate) fn none(alloc: Global) -> Elements {
        Elements {
            list: Vec::new(alloc),
            empties: CellSet::none(),
        }
    }

    /// How many there are.
    pub(crate) fn count(&self) -> u8 {
        u8::try_from(self.list.len()).unwrap_or(u8::MAX)
    }

    /// The cells of an element; none past the last.
    #[inline(always)]
    pub(crate) fn cells(&self, element: u8) -> CellSet {
        let element = self.list.get(element as usize);
        element.map_or(CellSet::none(), |element| element.cells)
    }

    /// The empty cells.
    pub(crate) fn empties(&self) -> CellSet {
        self.empties
    }

    /// The empty cell that an element is, as a set; none if it is a group.
    pub(crate) fn alone(&self, element: u8) -> CellSet {
        self.cells(element).meet(self.empties)
    }

    /// Whether two elements lie side by side, of which `x` is the lesser.
    #[inline(always)]
    pub(crate) fn are_near(&self, x: u8, y: u8) -> bool {
        let x = self.list.get(x as usize);
        x.is_some_and(|x| x.near.meets(self.cells(y)))
    }

    /// What names an element at the end of a connection.
    pub(crate) fn end(&self, element: u8) -> End
        ensures first { element ≡ 0 → result ≡ End.First }
        ensures second { element ≡ 1 → result ≡ End.Second }
    {
        match element {
            0 => End::First,
            1 => End::Second,
            _ => {
                let least = self.cells(element).least();
                least.map_or(End::Second, |cell| End::At(cell.number()))
            }
        }
    }

    /// Makes these the elements of the player that is asked about.
    pub(crate) fn load(&mut self, question: &Question) -> Result<(), AllocError> {
        let (size, stones) = (question.size, question.stones);
        let first_edge = edge(question.player, false, size);
        let second_edge = edge(question.player, true, size);
        let second = flood(second_edge, stones, size);
        let first = flood(first_edge, stones, size).minus(second);
        self.empties = question.region.minus(stones);
        self.list.clear();
        self.put(first, first_edge, size)?;
        self.put(second, second_edge, size)?;
        let mut rest = stones.union(question.region).minus(first).minus(second);
        for _element in 0..MOST_CELLS {
            let Some(cell) = rest.least() else {
                break;
            };
            let cells = flood(CellSet::none().with(cell), stones, size).with(cell);
            self.put(cells, CellSet::none(), size)?;
            rest = rest.minus(cells);
        }
        Ok(())
    }

    // Puts one more element, which has this edge.
    fn put(&mut self, cells: CellSet, edge: CellSet, size: Size) -> Result<(), AllocError> {
        let near = cells.around(size).union(edge);
        self.list.push(Element { cells, near })?;
        Ok(())
    }
}

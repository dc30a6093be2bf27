//! Links from nothing: the elements of a board, and the entries of those that lie side by side.

use super::bits::Bits;
use super::entries::Pair;
use super::links::{FIRST, Links, NO_ELEMENT, SECOND, Until};
use hex_board::{Board, flood};
use hex_cells::{CellSet, Colour, MOST_CELLS, edge};
use std::alloc::AllocError;

impl Links {
    /// Makes these the links of a player on a board, from nothing.
    pub fn load(&mut self, board: &Board, colour: Colour, until: Until) -> Result<(), AllocError> {
        self.clear(board, colour);
        self.number(board.empties());
        self.add_near(board.empties())?;
        self.run(until)
    }

    // Numbers the elements.
    fn number(&mut self, empties: CellSet) {
        let (size, stones) = (self.elements.size, self.elements.stones);
        self.elements.of = [NO_ELEMENT; MOST_CELLS as usize];
        self.elements.active = Bits::none();
        let first = flood(edge(self.elements.colour, false, size), stones, size);
        let second = flood(edge(self.elements.colour, true, size), stones, size).minus(first);
        self.name(first, FIRST);
        self.name(second, SECOND);
        let mut rest = stones.union(empties).minus(first).minus(second);
        for _element in 0..MOST_CELLS {
            let Some(cell) = rest.least() else {
                return;
            };
            let cells = flood(CellSet::none().with(cell), stones, size).with(cell);
            self.name(cells, cell.number() as u8);
            rest = rest.minus(cells);
        }
    }

    // Says of these cells that they are this element, and that there is one.
    fn name(&mut self, cells: CellSet, element: u8) {
        self.elements.active = self.elements.active.union(Bits::single(element));
        let mut rest = cells;
        for _cell in 0..MOST_CELLS {
            let Some(cell) = rest.least() else {
                return;
            };
            rest = rest.without(cell);
            self.elements.of[cell.number() as usize] = element;
        }
    }

    // Adds the entries of elements that lie side by side: one of them is an empty cell.
    fn add_near(&mut self, empties: CellSet) -> Result<(), AllocError> {
        let mut rest = empties;
        for _cell in 0..MOST_CELLS {
            let Some(cell) = rest.least() else {
                break;
            };
            rest = rest.without(cell);
            let element = cell.number() as u8;
            let single = CellSet::none().with(cell);
            self.add_near_edge(element, single, false)?;
            self.add_near_edge(element, single, true)?;
            self.add_beside(element, single.around(self.elements.size))?;
        }
        Ok(())
    }

    // Adds the entry of an empty cell, which alone is in this set, and an edge by which it lies.
    fn add_near_edge(
        &mut self,
        element: u8,
        cell: CellSet,
        second: bool,
    ) -> Result<(), AllocError> {
        if cell.meets(edge(self.elements.colour, second, self.elements.size)) {
            let edge = if second { SECOND } else { FIRST };
            self.add(Pair::of(true, element, edge), Bits::none())?;
        }
        Ok(())
    }

    // Adds the entries of an empty cell and the elements of these cells.
    fn add_beside(&mut self, element: u8, around: CellSet) -> Result<(), AllocError> {
        let mut rest = around;
        for _cell in 0..MOST_CELLS {
            let Some(cell) = rest.least() else {
                break;
            };
            rest = rest.without(cell);
            let other = self.elements.of[cell.number() as usize];
            if other != NO_ELEMENT && other != element {
                self.add(Pair::of(true, element, other), Bits::none())?;
            }
        }
        Ok(())
    }
}

//! The board graph: which cells are neighbours.

ghost use Rattle.std.specs.Prelude.{◌≡◌, ℕ, ◌*◌, ◌<◌, ◌↔◌, IsTrue};
ghost use Rattle.hex_cells.specs.Graph.{Bordered, Neighbour, is_neighbour};
ghost use Rattle.hex_cells.specs.Sets.{has};

use super::edges::{first_column, last_column};
use super::{Cell, CellSet, Size};

impl CellSet {
    /// The cells of the board that have a neighbour in this set. Cells of the set that do not lie
    /// on the board count for nothing.
    pub fn around(self, size: Size) -> CellSet
        ensures { (d : ℕ) → IsTrue (has result d) ↔ Bordered size self d }
    {
        let by = size.get() - 1;
        let all = CellSet::all(size);
        let here = self.meet(all);
        let left = here.minus(last_column(size));
        let right = here.minus(first_column(size));
        let east = left.up(1, all);
        let west = right.down(1);
        // A row is one cell more than `by`: a step of one and then one of `by` leads to the next
        // row.
        let south = here.up(1, all).union(right).up(by, all);
        let north = here.down(1).union(left).down(by);
        east.union(west).union(south).union(north).meet(all)
    }
}

/// The neighbours of a cell of the board, in column c and row r: the cells of the board at
/// (c+1, r), (c-1, r), (c, r+1), (c, r-1), (c+1, r-1) and (c-1, r+1).
pub fn neighbours(cell: Cell, size: Size) -> CellSet
    requires { cell < size * size }
    ensures graph { (d : ℕ) → IsTrue (has result d) ↔ Neighbour size cell d }
    ensures items { (d : ℕ) → has result d ≡ is_neighbour size cell d }
{
    CellSet::none().with(cell).around(size)
}

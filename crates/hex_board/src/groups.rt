//! Groups of stones, by their least cells.

ghost use Rattle.std.specs.Prelude.{ℕ, ◌↔◌, IsTrue};
ghost use Rattle.hex_cells.specs.Sets.{has};
ghost use Rattle.hex_board.specs.Groups.{IsRoot};

use super::flood;
use hex_cells::{CellSet, Size};

/// The least cell of each group of the stones.
pub fn roots_of(stones: CellSet, size: Size) -> CellSet
    ensures { (k : ℕ) → IsTrue (has result k) ↔ IsRoot size stones k }
{
    let mut roots = CellSet::none();
    let mut rest = stones;
    'groups: while let Some(c) = rest.least() {
        roots = roots.with(c);
        rest = rest.minus(flood(CellSet::none().with(c), stones, size));
    }
    roots
}

//! Paths of stones: which stones lead to a set, and whether a player's edges are joined.

ghost use Rattle.std.specs.Prelude.{◌≡◌, ℕ, ◌↔◌, IsTrue};
ghost use Rattle.hex_cells.specs.declared.colours.Colour.{Colour};
ghost use Rattle.hex_cells.specs.Sets.{has};
ghost use Rattle.hex_board.specs.Joined.{Joined, Leads, is_joined};

use hex_cells::{CellSet, Colour, Size, edge};

/// The stones from which a path of stones leads to a stone of `goal`.
pub fn flood(goal: CellSet, stones: CellSet, size: Size) -> CellSet
    ensures { (d : ℕ) → IsTrue (has result d) ↔ Leads size stones goal d }
{
    // On a board of a constant size each step's shifts are by constants.
    if size == Size::LARGEST {
        spread(goal, stones, Size::LARGEST)
    } else {
        spread(goal, stones, size)
    }
}

// The flood, step by step.
#[inline(always)]
fn spread(goal: CellSet, stones: CellSet, size: Size) -> CellSet
    ensures { (d : ℕ) → IsTrue (has result d) ↔ Leads size stones goal d }
{
    let mut reach = goal.meet(stones);
    'spread: loop {
        let next = reach.union(reach.around(size).meet(stones));
        if next.inside(reach) {
            return reach;
        }
        reach = next;
    }
}

/// Whether the stones join the player's edges: some path of them leads from his first edge to his
/// second.
pub fn joined(stones: CellSet, colour: Colour, size: Size) -> bool
    ensures path { IsTrue result ↔ Joined size colour stones }
    ensures value { result ≡ is_joined size colour stones }
{
    let reach = flood(edge(colour, true, size), stones, size);
    reach.meets(edge(colour, false, size))
}

/// A law, with nothing to run: the test `is_joined`, which searches for a path cell by cell, passes
/// exactly if there is a path that joins the edges. So callers may define what is joined as a
/// function.
pub fn joined_is_decided()
    ensures { (n : ℕ) (c : Colour) (s : ℕ) → IsTrue (is_joined n c s) ↔ Joined n c s }
{}

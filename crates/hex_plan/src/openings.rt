//! On which boards a turn may be made.

ghost use Rattle.std.specs.Prelude.{◌≡◌, None, IsTrue, ℕ, true};
ghost use Rattle.hex_board.specs.Joined.{winner_of};
ghost use Rattle.hex_board.specs.Positions.{is_empty_at};
ghost use Rattle.hex_plan.specs.Openings.{has_room, may_move};

use hex_board::Board;

// Whether a cell of the board is empty.
fn has_room(board: &Board) -> bool
    ensures { result ≡ has_room board.now }
{
    !board.empties().is_empty()
}

/// Whether a turn may be made on this board: no player is joined, and a cell is empty.
pub fn may_move(board: &Board) -> bool
    ensures value { result ≡ may_move board.now }
    ensures nobody { IsTrue result → winner_of board.now ≡ None }
    ensures room { IsTrue result → (k : ℕ) × (is_empty_at board.now k ≡ true) }
{
    board.winner().is_none() && has_room(board)
}

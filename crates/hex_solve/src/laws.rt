//! Laws of who wins, and of how many positions a search enters.

ghost use Rattle.std.specs.Prelude.{◌≡◌, ◌≤◌, Some};
ghost use Rattle.hex_cells.specs.declared.colours.Colour.{Colour};
ghost use Rattle.hex_board.specs.Positions.{Position};
ghost use Rattle.hex_board.specs.Wins.{Wins, empty_count};
ghost use Rattle.hex_solve.specs.Deciding.{bound, first, positions_needed};
ghost use Rattle.hex_solve.specs.Solved.{few_cells};

/// A law, with nothing to run: the player whom the search of each move calls the winner wins.
pub fn first_implies_wins()
    ensures { (p : Position) (mover player : Colour) → first p mover ≡ Some player
        → Wins player p mover }
{}

/// A law, with nothing to run: a search in rising order enters at most as many positions as there
/// are lists of different empty cells. With four empty cells these are 65.
pub fn positions_are_bounded()
    ensures bounded { (p : Position) (mover : Colour)
        → positions_needed p mover ≤ bound (empty_count p) }
    ensures of_four { bound 4 ≡ 65 }
{}

/// A law, with nothing to run: of so many empty cells or fewer a certificate is never too long.
pub fn few_cells_are_nine()
    ensures { few_cells ≡ 9 }
{}

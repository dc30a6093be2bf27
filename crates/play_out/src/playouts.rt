//! Playouts: the filled board and its result.

ghost use Rattle.std.specs.Prelude.{◌≡◌, ℕ, ◌↔◌, true, false};
ghost use Rattle.hex_cells.specs.Sets.{has};
ghost use Rattle.hex_cells.specs.Colours.{other_of};
ghost use Rattle.hex_cells.specs.declared.colours.Colour.{Colour};
ghost use Rattle.hex_board.specs.Joined.{Joined};
ghost use Rattle.hex_board.specs.Positions.{Apart, Within, is_empty_at, stones_of};
ghost use Rattle.play_out.specs.Fills.{ListsEmpties, filled_by, filled, playout_of, winner_by};

use super::dealing::movers_stones;
use hex_board::{Board, joined};
use hex_cells::{CellSet, Colour, Size};

// Who has won on a filled board of this size if these are Black's stones: Black if he is
// joined, else White.
fn winner(black: CellSet, size: Size) -> Colour
    ensures { result ≡ winner_by size black }
{
    let black_won = joined(black, Colour::Black, size);
    if black_won {
        Colour::Black
    } else {
        Colour::White
    }
}

/// How a playout ended: the filled board, and who won.
#[derive(Clone, Copy, Debug, PartialEq, Eq)]
pub struct Ending {
    /// The filled board.
    pub full: Board,
    /// Black if Black is joined on it, else White.
    pub winner: Colour,
}

/// The filled board of playout `k` of a search with this seed: stones on the shuffled empty cells,
/// in turn, the first of the player to move. A full board is its own filled board.
pub fn fill(board: &Board, to_move: Colour, seed: u64, k: u64) -> Board
    ensures value { result ≡ filled board.now to_move seed k }
    ensures full { (c : ℕ) → is_empty_at result c ≡ false }
    ensures kept { (owner : Colour) (c : ℕ) → has (stones_of board.now owner) c ≡ true
        → has (stones_of result owner) c ≡ true }
    ensures size { result.size ≡ board.now.size }
{
    // A board's stones lie on it, and apart.
    let (_before, _others_before) = (board.stones(to_move), board.stones(to_move.other()));
    let own = movers_stones(board, to_move, seed, k);
    let size = board.size();
    let others = CellSet::all(size).minus(own);
    match to_move {
        Colour::Black => Board::of(size, own, others),
        Colour::White => Board::of(size, others, own),
    }
}

/// The result of playout `k` of a search with this seed: Black if Black is joined on the filled
/// board, else White. A player may be joined before the fill.
pub fn playout(board: &Board, to_move: Colour, seed: u64, k: u64) -> Colour
    ensures value { result ≡ playout_of board.now to_move seed k }
    ensures joined { let full = filled board.now to_move seed k in
        (result ≡ Colour.Black) ↔ Joined full.size Colour.Black full.black }
{
    play(board, to_move, seed, k).winner
}

/// Playout `k` of a search with this seed: its filled board and its result.
pub fn play(board: &Board, to_move: Colour, seed: u64, k: u64) -> Ending
    ensures full { result.full ≡ filled board.now to_move seed k }
    ensures winner { result.winner ≡ playout_of board.now to_move seed k }
{
    let full = fill(board, to_move, seed, k);
    Ending {
        full,
        winner: winner(full.stones(Colour::Black), full.size()),
    }
}

//! The position of mode bench.

ghost use Rattle.std.specs.Prelude.{◌≡◌, ◌≤◌, ◌*◌, ◌/◌, ℕ, None, true, length};
ghost use Rattle.hex_board.specs.Joined.{winner_of};
ghost use Rattle.hex_board.specs.Positions.{empty_board, is_empty_at};
ghost use Rattle.play_out.specs.Fills.{ListsEmpties};
ghost use Rattle.turn_modes.specs.Positions.{IsBenchPosition, IsPlacedOn, is_open};

use hex_board::Board;
use hex_cells::{Cell, Colour, Size};
use play_out::{MOST_EMPTIES, write_order};

/// A position of mode bench: the board, the player to move there, and how many stones were placed.
#[derive(Clone, Copy, Debug, PartialEq, Eq)]
pub struct BenchPosition {
    /// The board.
    pub board: Board,
    /// The player to move: the other than who placed the last stone, Black if none was placed.
    pub colour: Colour,
    /// How many stones were placed: at most a third of the cells.
    pub stones: u32,
}

// Whether nobody is joined on the board.
fn is_open(board: &Board) -> bool
    ensures { result ≡ is_open board.now }
{
    board.winner().is_none()
}

// Places stones on these cells in turn, Black's first: at most a third of the board's cells, and
// none that joins its player. The cells are all of the board, each once.
fn place_stones(size: Size, cells: &[Cell]) -> BenchPosition
    requires once { ListsEmpties (empty_board size) cells.now }
    requires many { length cells.now ≡ size * size }
    ensures placed { IsPlacedOn size cells.now result }
    ensures few { result.stones ≤ size * size / 3 }
    ensures size { result.board.size ≡ size }
    ensures nobody { winner_of result.board ≡ None }
    ensures room { (k : ℕ) × (is_empty_at result.board k ≡ true) }
{
    let most = size.cells() / 3;
    let mut board = Board::empty(size);
    let mut colour = Colour::Black;
    let mut stones = 0;
    'stones: while stones < most {
        let mut next = board;
        next.place(colour, cells[stones as usize]);
        if !is_open(&next) {
            break;
        }
        board = next;
        colour = colour.other();
        stones += 1;
    }
    BenchPosition {
        board,
        colour,
        stones,
    }
}

/// The position of mode bench on a board of this size. The board's cells are shuffled as for
/// playout 0 of a search with this seed, and stones are placed on the first third of them in turn,
/// Black's first, until the next one would join its player.
pub fn bench_position(size: Size, seed: u64) -> BenchPosition
    ensures is { IsBenchPosition size seed result }
    ensures few { result.stones ≤ size * size / 3 }
    ensures size { result.board.size ≡ size }
    ensures nobody { winner_of result.board ≡ None }
    ensures room { (k : ℕ) × (is_empty_at result.board k ≡ true) }
{
    let mut cells = [Cell::numbered(0); MOST_EMPTIES];
    let count = write_order(&Board::empty(size), seed, 0, &mut cells);
    place_stones(size, &cells[..count])
}

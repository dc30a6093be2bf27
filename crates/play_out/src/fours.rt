//! The empty cells of a board, listed four at a time.

ghost use Rattle.std.specs.Prelude.{◌≡◌, ◌+◌, ◌++◌, ◌<◌, ◌≤◌, length, take, map};
ghost use Rattle.std.specs.List.{range_with_len};
ghost use Rattle.play_out.specs.Fills.{empties_of};
ghost use Rattle.play_out.specs.Fours.{bits_of, padded_bits};

use super::order::MOST_EMPTIES;
use hex_board::Board;
use hex_cells::{Cell, MOST_CELLS};

// The bits of each number below 16 in rising order, and then 0 up to four.
static ROWS: [[u32; 4]; 16] = [
    [0, 0, 0, 0],
    [0, 0, 0, 0],
    [1, 0, 0, 0],
    [0, 1, 0, 0],
    [2, 0, 0, 0],
    [0, 2, 0, 0],
    [1, 2, 0, 0],
    [0, 1, 2, 0],
    [3, 0, 0, 0],
    [0, 3, 0, 0],
    [1, 3, 0, 0],
    [0, 1, 3, 0],
    [2, 3, 0, 0],
    [0, 2, 3, 0],
    [1, 2, 3, 0],
    [0, 1, 2, 3],
];

fn rows() -> &'static [[u32; 4]; 16]
    ensures { result.now ≡ map padded_bits (range_with_len 0 16) }
{
    &ROWS
}

fn row(four: usize) -> [u32; 4]
    requires { four < 16 }
    ensures { result ≡ padded_bits four }
{
    rows()[four]
}

// Writes the cells of the four from `first` on that are bits of `four`, from place `count` on, and
// answers the place behind them. All four places are written, so that no bit is asked.
#[inline(always)]
fn list_four(cells: &mut [Cell; MOST_EMPTIES], count: usize, first: u32, four: usize) -> usize
    requires room { count + 4 ≤ MOST_EMPTIES }
    requires board { first + 4 ≤ MOST_CELLS }
    requires bits { four < 16 }
    ensures list { take result cells.new
        ≡ take count cells.old ++ map (λ j. first + j) (bits_of four) }
    ensures count { result ≡ count + length (bits_of four) }
    ensures size { length cells.new ≡ length cells.old }
{
    let [a, b, c, d] = row(four);
    cells[count] = Cell::numbered(first + a);
    cells[count + 1] = Cell::numbered(first + b);
    cells[count + 2] = Cell::numbered(first + c);
    cells[count + 3] = Cell::numbered(first + d);
    count + four.count_ones() as usize
}

/// Writes the empty cells of the board, in rising order, at the start of `cells`, and answers how
/// many they are.
pub(crate) fn list_empties(board: &Board, cells: &mut [Cell; MOST_EMPTIES]) -> usize
    ensures list { take result cells.new ≡ empties_of board.now }
    ensures count { result ≡ length (empties_of board.now) }
    ensures range { result ≤ MOST_EMPTIES }
{
    // The fours leave over the last cell at most.
    let fours = (board.size().cells() + 2) / 4;
    let mut rest = board.empties().bits();
    let mut count = 0;
    for k in 0..fours {
        count = list_four(cells, count, 4 * k, (rest % 16) as usize);
        rest >>= 4;
    }
    // If the cell behind them is not empty, or on no board, it is left over.
    cells[count] = Cell::numbered(4 * fours);
    count + (rest & 1) as usize
}

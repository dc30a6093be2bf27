//! The stones of a playout: its cells are given away while they are shuffled.

ghost use Rattle.std.specs.Prelude.{◌≡◌, ℕ, ◌+◌, ◌-◌, ◌<◌, ◌≤◌, drop, length, slice_index};
ghost use Rattle.std.specs.List.Sorted.{IsPermutation};
ghost use Rattle.hex_board.specs.Positions.{stones_of};
ghost use Rattle.play_out.specs.Fills.{ListsEmpties, filled, filled_by, order_of};
ghost use Rattle.play_out.specs.Streams.{stream_at, words_of, shuffled};

use super::fours::list_empties;
use super::order::{MOST_EMPTIES, settle};
use hex_board::Board;
use hex_cells::{Cell, CellSet, Colour};
use rand_core::SeedableRng;
use rand_xoshiro::Xoshiro256PlusPlus;

// Shuffles the cells, and answers the stones of the player to move after stones on them in turn.
// A cell is given away as soon as its place is final, from the last place down. He gets those at
// even places.
fn deal(
    board: &Board,
    to_move: Colour,
    cells: &mut [Cell],
    generator: &mut Xoshiro256PlusPlus,
) -> CellSet
    requires { length cells.old ≤ MOST_EMPTIES }
    ensures order { let last = length cells.old - 1 in
        cells.new ≡ shuffled last (words_of last (stream_at generator.old)) cells.old }
    ensures same { IsPermutation cells.old cells.new }
    ensures stones { result ≡ stones_of (filled_by board.now to_move cells.new) to_move }
{
    let mut stones = board.stones(to_move);
    let mut i = cells.len();
    // An odd number of cells is left.
    if 0 < i && i % 2 == 0 {
        i -= 1;
        settle(cells, generator, i);
    }
    'pairs: while 2 < i {
        let cell = settle(cells, generator, i - 1);
        stones = stones.with(cell);
        settle(cells, generator, i - 2);
        i -= 2;
    }
    if 0 < i {
        stones = stones.with(cells[0]);
    }
    stones
}

/// The stones of the player to move on the filled board of playout `k` of a search with this seed.
pub(crate) fn movers_stones(board: &Board, to_move: Colour, seed: u64, k: u64) -> CellSet
    ensures value { result ≡ stones_of (filled board.now to_move seed k) to_move }
    ensures empties { ListsEmpties board.now (order_of board.now seed k) }
{
    let mut cells = [Cell::numbered(0); MOST_EMPTIES];
    let count = list_empties(board, &mut cells);
    let mut generator = Xoshiro256PlusPlus::seed_from_u64(seed.wrapping_add(k));
    deal(board, to_move, &mut cells[..count], &mut generator)
}

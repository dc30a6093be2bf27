//! The order in which a playout fills the empty cells.

ghost use Rattle.std.specs.Prelude.{◌≡◌, ℕ, ◌+◌, ◌-◌, ◌*◌, ◌≤◌, ◌<◌, length, take, drop, get_or};
ghost use Rattle.std.specs.List.Sorted.{IsPermutation};
ghost use Rattle.play_out.specs.Streams.{stream_at, words_of, place_of, shuffled};
ghost use Rattle.play_out.specs.Fills.{ListsEmpties, empties_of, order_of};

use super::fours::list_empties;
use hex_board::Board;
use hex_cells::{Cell, MOST_CELLS};
use rand_core::{Rng, SeedableRng};
use rand_xoshiro::Xoshiro256PlusPlus;

/// A board has no more empty cells than the largest board has cells.
pub const MOST_EMPTIES: usize = MOST_CELLS as usize;

// The place that a word gives among the places 0 to `i`. The high half of the product is its part
// of `i + 1`.
fn place(word: u64, i: usize) -> usize
    requires { i < MOST_EMPTIES }
    ensures value { result ≡ place_of word i }
    ensures range { result ≤ i }
{
    (u128::from(word) * (i as u128 + 1) >> u64::BITS) as usize
}

/// One step of a shuffle: the cell at place `i` and that at the place that the next word gives
/// change places. No later place changes from then on. Answers the cell that is now at place `i`.
#[inline(always)]
pub(crate) fn settle(cells: &mut [Cell], generator: &mut Xoshiro256PlusPlus, i: usize) -> Cell
    requires place { (1 ≤ i) × (i < length cells.old) }
    requires few { length cells.old ≤ MOST_EMPTIES }
    ensures order { shuffled (i - 1) (words_of (i - 1) (stream_at generator.new)) cells.new
        ≡ shuffled i (words_of i (stream_at generator.old)) cells.old }
    ensures same { IsPermutation cells.old cells.new }
    ensures count { length cells.new ≡ length cells.old }
    ensures later { drop (i + 1) cells.new ≡ drop (i + 1) cells.old }
    ensures cell { result ≡ get_or cells.new i result }
{
    let word = generator.next_u64();
    let from = place(word, i);
    let cell = cells[from];
    let moved = cells[i];
    cells[i] = cell;
    cells[from] = moved;
    cell
}

// Shuffles the cells: from the last place down, each changes places with one that the next word
// gives.
fn shuffle(cells: &mut [Cell], generator: &mut Xoshiro256PlusPlus)
    requires { length cells.old ≤ MOST_EMPTIES }
    ensures order { let last = length cells.old - 1 in
        cells.new ≡ shuffled last (words_of last (stream_at generator.old)) cells.old }
    ensures same { IsPermutation cells.old cells.new }
{
    let mut i = cells.len();
    'places: while 1 < i {
        i -= 1;
        settle(cells, generator, i);
    }
}

/// Writes the empty cells of the board, in the order in which playout `k` of a search with this
/// seed fills them, at the start of `cells`, and answers how many they are. The cells behind them
/// are left over.
pub fn write_order(board: &Board, seed: u64, k: u64, cells: &mut [Cell; MOST_EMPTIES]) -> usize
    ensures order { take result cells.new ≡ order_of board.now seed k }
    ensures empties { ListsEmpties board.now (take result cells.new) }
    ensures count { result ≡ length (empties_of board.now) }
    ensures range { result ≤ MOST_EMPTIES }
{
    let count = list_empties(board, cells);
    let mut generator = Xoshiro256PlusPlus::seed_from_u64(seed.wrapping_add(k));
    shuffle(&mut cells[..count], &mut generator);
    count
}

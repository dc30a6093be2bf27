//! The cells of a board, its rows and columns at the edges, and the edges of the players.

ghost use Rattle.std.specs.Prelude.{◌≡◌, ℕ, true, false};
ghost use Rattle.hex_cells.specs.Edges.{on_edge};
ghost use Rattle.hex_cells.specs.Sets.{has};

use super::{CellSet, Colour, Size};

// One entry for each size, and one for 0, which no board has.
const SIZES: usize = Size::MAX as usize + 1;

// The first rows, by size. Each entry of these tables is checked, bit by bit, where it is used.
const FIRST_ROWS: [u128; SIZES] = [
    0x0, 0x1, 0x3, 0x7, 0xf, 0x1f, 0x3f, 0x7f, 0xff, 0x1ff, 0x3ff, 0x7ff,
];

// The last rows, by size.
const LAST_ROWS: [u128; SIZES] = [
    0x0,
    0x1,
    0xc,
    0x1c0,
    0xf000,
    0x1f00000,
    0xfc0000000,
    0x1fc0000000000,
    0xff00000000000000,
    0x1ff000000000000000000,
    0xffc0000000000000000000000,
    0x1ffc000000000000000000000000000,
];

// The first columns, by size.
const FIRST_COLUMNS: [u128; SIZES] = [
    0x0,
    0x1,
    0x5,
    0x49,
    0x1111,
    0x108421,
    0x41041041,
    0x40810204081,
    0x101010101010101,
    0x1008040201008040201,
    0x40100401004010040100401,
    0x4008010020040080100200400801,
];

// The last columns, by size.
const LAST_COLUMNS: [u128; SIZES] = [
    0x0,
    0x1,
    0xa,
    0x124,
    0x8888,
    0x1084210,
    0x820820820,
    0x1020408102040,
    0x8080808080808080,
    0x100804020100804020100,
    0x8020080200802008020080200,
    0x1002004008010020040080100200400,
];

fn first_row(size: Size) -> CellSet
    ensures { (k : ℕ) → has result k ≡ on_edge Colour.Black false size k }
{
    CellSet::of_bits(FIRST_ROWS[size.get() as usize])
}

fn last_row(size: Size) -> CellSet
    ensures { (k : ℕ) → has result k ≡ on_edge Colour.Black true size k }
{
    CellSet::of_bits(LAST_ROWS[size.get() as usize])
}

pub(crate) fn first_column(size: Size) -> CellSet
    ensures { (k : ℕ) → has result k ≡ on_edge Colour.White false size k }
{
    CellSet::of_bits(FIRST_COLUMNS[size.get() as usize])
}

pub(crate) fn last_column(size: Size) -> CellSet
    ensures { (k : ℕ) → has result k ≡ on_edge Colour.White true size k }
{
    CellSet::of_bits(LAST_COLUMNS[size.get() as usize])
}

/// The cells of a player's first edge, or of his second: Black's are the first and the last row,
/// White's the first and the last column.
pub fn edge(colour: Colour, second: bool, size: Size) -> CellSet
    ensures { (k : ℕ) → has result k ≡ on_edge colour second size k }
{
    match (colour, second) {
        (Colour::Black, false) => first_row(size),
        (Colour::Black, true) => last_row(size),
        (Colour::White, false) => first_column(size),
        (Colour::White, true) => last_column(size),
    }
}

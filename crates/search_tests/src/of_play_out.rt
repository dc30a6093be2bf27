//! The words of the generator, filled boards and results, against values that other programs
//! computed from the published algorithms of xoshiro256++ and SplitMix64.

use hex_board::Board;
use hex_cells::{Cell, CellSet, Colour, Size};
use play_out::{Ending, MOST_EMPTIES, fill, play, playout, write_order};
use rand_core::{Rng, SeedableRng};
use rand_xoshiro::Xoshiro256PlusPlus;
use std::test::Fail;

// A board and a playout: the size, Black's stones, the player to move, the seed and the number of
// the playout; then Black's cells on the filled board, and the result. Cells are the bits of a
// number, bit c for cell c.
type Case = (u32, u128, Colour, u64, u64, u128, Colour);

const CASES: [Case; 24] = [
    (2, 0, Colour::Black, 0, 0, 12, Colour::White),
    (2, 0, Colour::Black, 0, 1, 6, Colour::Black),
    (2, 0, Colour::Black, 0, 2, 3, Colour::White),
    (2, 0, Colour::Black, 0, 3, 10, Colour::Black),
    (2, 1, Colour::White, 0, 0, 9, Colour::White),
    (2, 2, Colour::White, 0, 1, 6, Colour::Black),
    (2, 4, Colour::White, 0, 2, 6, Colour::Black),
    (2, 8, Colour::White, 0, 3, 10, Colour::Black),
    (2, 1, Colour::White, 0, 1, 5, Colour::Black),
    (2, 1, Colour::White, 1, 0, 5, Colour::Black),
    // Only the sum of the seed and the number counts, modulo 2^64.
    (2, 1, Colour::White, u64::MAX, 1, 9, Colour::White),
    (3, 0, Colour::Black, 0, 0, 468, Colour::Black),
    (3, 0, Colour::Black, 0, 1, 457, Colour::Black),
    (3, 0, Colour::Black, 0, 2, 229, Colour::Black),
    (3, 0, Colour::Black, 0, 3, 93, Colour::Black),
    (
        11,
        0,
        Colour::Black,
        0,
        0,
        984_654_428_788_427_221_711_022_996_276_975_657,
        Colour::Black,
    ),
    (
        11,
        0,
        Colour::Black,
        7,
        5,
        1_109_292_027_927_412_271_517_509_352_856_172_268,
        Colour::Black,
    ),
    // One cell, a full board, and boards with stones.
    (1, 0, Colour::Black, 5, 6, 1, Colour::Black),
    (1, 1, Colour::White, 0, 0, 1, Colour::Black),
    (2, 15, Colour::White, 0, 0, 15, Colour::Black),
    // Black is joined before the fill.
    (2, 5, Colour::White, 3, 4, 7, Colour::Black),
    (5, 0, Colour::White, 12, 30, 17_624_737, Colour::White),
    (
        7,
        0,
        Colour::White,
        1,
        1,
        165_229_777_501_590,
        Colour::Black,
    ),
    (
        11,
        396_316_767_208_603_648,
        Colour::White,
        9,
        u64::MAX,
        1_948_089_877_158_552_125_085_481_336_471_804_784,
        Colour::Black,
    ),
];

// The board of this size with these stones of Black.
fn board_of(size: Size, black: u128) -> Board {
    let mut board = Board::of(size, CellSet::none(), CellSet::none());
    for k in 0..size.cells() {
        let cell = Cell::numbered(k);
        if black >> k & 1 == 1 && board.empties().has(cell) {
            board.place(Colour::Black, cell);
        }
    }
    board
}

#[test]
fn words(rt: HostRuntime) {
    for (seed, first, second) in [
        (0, 5_987_356_902_031_041_503, 7_051_070_477_665_621_255),
        (1, 14_971_601_782_005_023_387, 13_781_649_495_232_077_965),
        (2, 14_116_099_294_885_116_970, 9_908_902_983_784_002_248),
    ] {
        let mut generator = Xoshiro256PlusPlus::seed_from_u64(seed);
        assert_eq!(rt; generator.next_u64(), first, "at {seed}");
        assert_eq!(rt; generator.next_u64(), second, "at {seed}");
    }
}

#[test]
fn playouts(rt: HostRuntime) -> Result<(), Fail> {
    for (number, stones, to_move, seed, k, black, result) in CASES {
        let size = Size::of(number).ok_or("a size")?;
        let board = board_of(size, stones);
        let full = fill(&board, to_move, seed, k);
        assert_eq!(rt;
            full.stones(Colour::Black).bits(),
            black,
            "size {number}, seed {seed}, {k}"
        );
        assert!(rt; full.empties().is_empty());
        assert_eq!(rt;
            playout(&board, to_move, seed, k),
            result,
            "size {number}, seed {seed}, {k}"
        );
        let both = play(&board, to_move, seed, k);
        assert_eq!(rt;
            both,
            Ending {
                full,
                winner: result
            },
            "size {number}, seed {seed}, {k}"
        );
    }
    Ok(())
}

#[test]
fn orders(rt: HostRuntime) -> Result<(), Fail> {
    for (number, stones, seed, count, first) in [
        (2, 0, 0, 4, [2, 0, 3]),
        (2, 2, 1, 3, [0, 2, 3]),
        (3, 0, 5, 9, [3, 5, 1]),
        (11, 0, 7, 121, [58, 14, 25]),
    ] {
        let board = board_of(Size::of(number).ok_or("a size")?, stones);
        let mut cells = [Cell::numbered(0); MOST_EMPTIES];
        assert_eq!(rt;
            write_order(&board, seed, 0, &mut cells),
            count,
            "size {number}"
        );
        let begins = [cells[0].number(), cells[1].number(), cells[2].number()];
        assert_eq!(rt; begins, first, "size {number}, seed {seed}");
    }
    Ok(())
}

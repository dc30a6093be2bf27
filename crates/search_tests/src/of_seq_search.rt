//! The trees of small searches, against those that another program computed from the rules alone.

ghost use Rattle.std.specs.Prelude.{IfSome};
ghost use Rattle.hex_board.specs.Positions.{AllEmpty};
ghost use Rattle.tree_words.specs.Settings.{IsAny};

use hex_board::Board;
use hex_cells::{Cell, CellSet, Colour, Size};
use seq_search::plain_search;
use std::test::Fail;
use tree_words::{Closed, Knobs, Shape, best, make_opening, report};

// What a search is for: the size, Black's and White's stones and the allowed cells, all empty ones
// if there is none, as the bits of a number, the player to move, and playouts, seed, words,
// expand number and weight.
type Search = (u32, u32, u32, u32, Colour, [u64; 5]);

// A child's visits and wins, its seen visits and seen wins, and whether a block is below it.
type Child = (u64, u64, u64, u64, bool);

// Its tree: the root's visits and wins, NEXT, the number of blocks, the cell of the best child, and
// the root's children.
type Tree<'a> = (u64, u64, u64, u32, u32, &'a [Child]);

const B: Colour = Colour::Black;

const W: Colour = Colour::White;

// The cells that a board has, of those whose bits are set.
fn set_of(size: Size, bits: u32) -> CellSet {
    let mut set = CellSet::none();
    for k in 0..size.cells() {
        if k < u32::BITS && bits >> k & 1 == 1 {
            set = set.with(Cell::numbered(k));
        }
    }
    set
}

// The empty cells of the board whose bits are set, or else all; `None` if the board is full.
fn allowed_on(board: &Board, bits: u32) -> Option<CellSet>
    ensures { IfSome result (λ set. IsAny set × AllEmpty board.now set) }
{
    let named = set_of(board.size(), bits).meet(board.empties());
    if named.least().is_some() {
        return Some(named);
    }
    let all = board.empties();
    all.least()?;
    Some(all)
}

// The shape of a search, if its numbers are in their ranges.
fn shape_of(search: &Search) -> Option<Shape> {
    let &(number, black, white, allowed, colour, [playouts, seed, words, expand, weight]) = search;
    let size = Size::of(number)?;
    let black = set_of(size, black);
    let white = set_of(size, white).minus(black);
    let all = CellSet::all(size);
    let board = Board::of(size, black.meet(all), white.meet(all));
    let allowed = allowed_on(&board, allowed)?;
    let in_range = 1 <= playouts
        && playouts <= 1_000_000
        && 1_024 <= words
        && words <= 16_777_216
        && 1 <= expand
        && expand <= 1_000
        && weight <= 1_024;
    if !in_range {
        return None;
    }
    let knobs = Knobs {
        workers: 1,
        playouts: playouts as u32,
        seed,
        words: words as u32,
        expand: expand as u32,
        weight: weight as u32,
    };
    Some(Shape::make(&board, colour, allowed, &knobs))
}

// The word at a place, if there is one.
fn word(closed: &Closed, at: u64) -> Option<u64> {
    closed.words().get(at as usize).copied()
}

// How many blocks lie one after another from this word on.
fn blocks_from(closed: &Closed, first: u64) -> u32 {
    let mut at = first;
    for blocks in 0..1_000 {
        let parent = word(closed, at).unwrap_or(0);
        if parent == 0 {
            return blocks;
        }
        let count = word(closed, at.wrapping_add(3)).unwrap_or(0);
        at = at.wrapping_add(count.wrapping_mul(4)).wrapping_add(4);
    }
    0
}

// A tally or a seen word.
fn counts(visits: u64, wins: u64) -> u64 {
    visits.wrapping_mul(1 << 32).wrapping_add(wins)
}

// Whether the nodes one after another, the first of which begins at this word, have these counts,
// and blocks if they say so.
fn has_children(closed: &Closed, first: u64, children: &[Child]) -> bool {
    let mut at = first;
    for &(visits, wins, seen, seen_wins, is_parent) in children {
        let link = word(closed, at.wrapping_add(1)).unwrap_or(0);
        if (link != 0) != is_parent
            || word(closed, at.wrapping_add(2)) != Some(counts(visits, wins))
            || word(closed, at.wrapping_add(3)) != Some(counts(seen, seen_wins))
        {
            return false;
        }
        at = at.wrapping_add(4);
    }
    true
}

#[test]
fn trees(rt: HostRuntime) -> Result<(), Fail> {
    let table: [(Search, Tree); 16] = [
        (
            (1, 0, 0, 0, B, [10, 0, 4194304, 8, 180]),
            (10, 0, 24, 1, 0, &[(10, 10, 10, 10, false)]),
        ),
        (
            (2, 0, 0, 0, B, [1, 0, 4194304, 8, 180]),
            (
                1,
                1,
                27,
                1,
                0,
                &[
                    (1, 0, 1, 0, false),
                    (0, 0, 0, 0, false),
                    (0, 0, 0, 0, false),
                    (0, 0, 1, 0, false),
                ],
            ),
        ),
        (
            (2, 0, 0, 0, B, [4, 0, 4194304, 8, 180]),
            (
                4,
                1,
                30,
                1,
                0,
                &[
                    (1, 0, 1, 0, false),
                    (1, 1, 3, 3, false),
                    (1, 1, 2, 2, false),
                    (1, 1, 2, 1, false),
                ],
            ),
        ),
        (
            (2, 0, 0, 0, B, [5, 0, 4194304, 1, 180]),
            (
                5,
                1,
                47,
                2,
                1,
                &[
                    (1, 0, 1, 0, false),
                    (2, 2, 4, 4, true),
                    (1, 1, 3, 3, false),
                    (1, 1, 2, 1, false),
                ],
            ),
        ),
        (
            (2, 0, 0, 0, B, [20, 0, 4194304, 2, 180]),
            (
                20,
                9,
                106,
                5,
                1,
                &[
                    (2, 0, 7, 1, false),
                    (9, 6, 13, 10, true),
                    (6, 4, 11, 8, true),
                    (3, 1, 9, 3, true),
                ],
            ),
        ),
        (
            (2, 0, 0, 0, W, [20, 0, 4194304, 2, 180]),
            (
                20,
                11,
                118,
                6,
                2,
                &[
                    (3, 0, 9, 2, true),
                    (7, 5, 12, 8, true),
                    (8, 4, 11, 7, true),
                    (2, 0, 8, 1, false),
                ],
            ),
        ),
        (
            (2, 4, 8, 0, B, [4, 0, 4194304, 8, 180]),
            (4, 0, 22, 1, 0, &[(2, 2, 2, 2, false), (2, 2, 2, 2, false)]),
        ),
        (
            (2, 4, 0, 0, W, [12, 0, 4194304, 1, 180]),
            (
                12,
                9,
                86,
                6,
                0,
                &[(6, 2, 7, 3, true), (4, 1, 8, 3, true), (2, 0, 9, 0, true)],
            ),
        ),
        (
            (2, 0, 0, 6, B, [10, 0, 4194304, 2, 180]),
            (10, 4, 60, 3, 1, &[(6, 4, 8, 6, true), (4, 2, 7, 5, true)]),
        ),
        (
            (2, 0, 0, 0, B, [100, 0, 4194304, 8, 180]),
            (
                100,
                37,
                230,
                9,
                2,
                &[
                    (14, 7, 48, 25, true),
                    (32, 20, 52, 38, true),
                    (48, 35, 69, 55, true),
                    (6, 1, 31, 8, false),
                ],
            ),
        ),
        (
            (2, 0, 0, 0, B, [100, u64::MAX, 4194304, 8, 180]),
            (
                100,
                45,
                238,
                9,
                1,
                &[
                    (10, 3, 38, 12, true),
                    (44, 28, 62, 43, true),
                    (32, 17, 53, 34, true),
                    (14, 7, 47, 21, true),
                ],
            ),
        ),
        (
            (2, 0, 0, 0, B, [100, 0, 4194304, 8, 0]),
            (
                100,
                26,
                210,
                8,
                2,
                &[
                    (1, 0, 41, 28, false),
                    (25, 13, 58, 46, true),
                    (73, 60, 81, 68, true),
                    (1, 1, 20, 6, false),
                ],
            ),
        ),
        (
            (2, 0, 0, 0, B, [100, 0, 4194304, 8, 1024]),
            (
                100,
                52,
                190,
                5,
                1,
                &[
                    (21, 7, 48, 14, true),
                    (29, 19, 51, 34, true),
                    (28, 14, 49, 31, true),
                    (22, 8, 52, 17, true),
                ],
            ),
        ),
        (
            (3, 0, 0, 0, B, [30, 0, 4194304, 8, 180]),
            (
                30,
                12,
                76,
                1,
                3,
                &[
                    (3, 2, 23, 14, false),
                    (3, 1, 14, 8, false),
                    (3, 1, 13, 8, false),
                    (4, 2, 18, 11, false),
                    (4, 3, 17, 12, false),
                    (3, 1, 13, 8, false),
                    (4, 2, 18, 11, false),
                    (3, 3, 17, 9, false),
                    (3, 3, 17, 9, false),
                ],
            ),
        ),
        (
            (3, 0, 0, 0, B, [200, 0, 4194304, 1, 180]),
            (
                200,
                54,
                2778,
                79,
                6,
                &[
                    (15, 9, 127, 83, true),
                    (17, 10, 123, 87, true),
                    (22, 15, 118, 89, true),
                    (18, 13, 117, 81, true),
                    (23, 14, 104, 81, true),
                    (27, 23, 97, 73, true),
                    (32, 25, 109, 89, true),
                    (28, 23, 104, 79, true),
                    (18, 14, 101, 68, true),
                ],
            ),
        ),
        (
            (3, 0, 0, 0, B, [1000, 0, 1024, 1, 180]),
            (
                1000,
                320,
                2042,
                30,
                6,
                &[
                    (44, 21, 560, 339, true),
                    (81, 51, 521, 348, true),
                    (176, 127, 570, 428, true),
                    (87, 55, 530, 365, true),
                    (171, 123, 591, 433, true),
                    (87, 56, 533, 360, true),
                    (196, 144, 602, 444, true),
                    (84, 55, 528, 338, true),
                    (74, 48, 565, 345, true),
                ],
            ),
        ),
    ];
    for (search, tree) in table {
        let (visits, wins, next, blocks, cell, children) = tree;
        let shape = shape_of(&search).ok_or("a shape")?;
        let closed = plain_search(rt.alloc(), &shape)?;
        let root = u64::from(shape.root());
        assert_eq!(rt;
            word(&closed, root.wrapping_add(2)),
            Some(counts(visits, wins))
        );
        assert_eq!(rt; word(&closed, 0), Some(next));
        assert_eq!(rt; blocks_from(&closed, root.wrapping_add(4)), blocks);
        assert_eq!(rt; best(&closed).number(), cell);
        assert!(rt;
            has_children(&closed, root.wrapping_add(8), children),
            "the children of a root with {visits} visits and {wins} wins"
        );
    }
    Ok(())
}

// The sum of the seen visits and of the seen wins of so many nodes, the first of which has its seen
// word there.
fn seen_of(closed: &Closed, first: u64, nodes: u32) -> (u64, u64) {
    let mut sums = (0u64, 0u64);
    let mut at = first;
    for _ in 0..nodes {
        let seen = word(closed, at).unwrap_or(0);
        sums = (
            sums.0.wrapping_add(seen >> 32),
            sums.1.wrapping_add(seen % (1 << 32)),
        );
        at = at.wrapping_add(4);
    }
    sums
}

// On size 11: playouts, the root's wins, NEXT, the number of blocks, the cell of the best child,
// the sums of the children's seen visits and seen wins, and some children by their cells.
type Large = (u64, u64, u64, u32, u32, (u64, u64), [(u64, Child); 4]);

#[test]
fn large_trees(rt: HostRuntime) -> Result<(), Fail> {
    let table: [Large; 2] = [
        (
            300,
            149,
            794,
            1,
            6,
            (18300, 9211),
            [
                (6, (3, 0, 158, 83, false)),
                (0, (2, 1, 144, 71, false)),
                (60, (3, 3, 151, 76, false)),
                (120, (3, 3, 159, 85, false)),
            ],
        ),
        (
            2000,
            925,
            61058,
            122,
            51,
            (122000, 65575),
            [
                (51, (21, 16, 1005, 549, true)),
                (0, (14, 5, 972, 488, true)),
                (60, (19, 13, 1012, 559, true)),
                (120, (14, 5, 1044, 535, true)),
            ],
        ),
    ];
    for (playouts, wins, next, blocks, cell, seen, children) in table {
        let shape = shape_of(&(11, 0, 0, 0, B, [playouts, 0, 4194304, 8, 180])).ok_or("a shape")?;
        let closed = plain_search(rt.alloc(), &shape)?;
        let root = u64::from(shape.root());
        let first = root.wrapping_add(8);
        assert_eq!(rt;
            word(&closed, root.wrapping_add(2)),
            Some(counts(playouts, wins))
        );
        assert_eq!(rt; word(&closed, 0), Some(next));
        assert_eq!(rt; blocks_from(&closed, root.wrapping_add(4)), blocks);
        assert_eq!(rt; best(&closed).number(), cell);
        assert_eq!(rt; seen_of(&closed, first.wrapping_add(3), 121), seen);
        for (place, child) in children {
            let at = first.wrapping_add(place.wrapping_mul(4));
            assert!(rt; has_children(&closed, at, &[child]), "cell {place}");
        }
    }
    Ok(())
}

// How many words are not 0.
fn marked(words: &[u64]) -> usize {
    let mut marked = 0usize;
    for &word in words {
        if word != 0 {
            marked = marked.wrapping_add(1);
        }
    }
    marked
}

// A search, and all of its opening words that are not 0: their places and values.
type Opening<'a> = (Search, &'a [(usize, u64)]);

#[test]
fn opening_words_of_small_boards(rt: HostRuntime) -> Result<(), Fail> {
    let table: [Opening; 4] = [
        (
            (1, 0, 0, 0, B, [2, 0, 1024, 8, 180]),
            &[(0, 16), (5, 8), (8, 4), (9, 1), (11, 1)],
        ),
        (
            (2, 0, 0, 0, B, [4, 0, 1024, 8, 180]),
            &[
                (0, 30),
                (7, 10),
                (10, 6),
                (11, 15),
                (13, 4),
                (18, 257),
                (22, 514),
                (26, 771),
            ],
        ),
        (
            (2, 0, 0, 6, B, [10, 0, 1024, 8, 180]),
            &[
                (0, 28),
                (13, 16),
                (16, 12),
                (17, 15),
                (19, 2),
                (20, 1),
                (24, 258),
            ],
        ),
        (
            (3, 16, 0, 0, W, [4, 0, 1024, 8, 180]),
            &[
                (0, 46),
                (7, 10),
                (10, 6),
                (11, 495),
                (13, 8),
                (18, 257),
                (22, 514),
                (26, 771),
                (30, 1029),
                (34, 1286),
                (38, 1543),
                (42, 1800),
            ],
        ),
    ];
    for (search, wanted) in table {
        let shape = shape_of(&search).ok_or("a shape")?;
        let words = make_opening(rt.alloc(), &shape)?;
        for &(at, value) in wanted {
            assert_eq!(rt; words.get(at).copied(), Some(value));
        }
        assert_eq!(rt; marked(&words), wanted.len());
    }
    Ok(())
}

#[test]
fn opening_words_of_a_large_board(rt: HostRuntime) -> Result<(), Fail> {
    let shape = shape_of(&(11, 0, 0, 0, B, [10_000, 0, 1024, 8, 180])).ok_or("a shape")?;
    let words = make_opening(rt.alloc(), &shape)?;
    let header = [
        (0usize, 10_494),
        (10_003, 10_006),
        (10_006, 10_002),
        (10_007, u64::MAX),
        (10_008, 144_115_188_075_855_871),
        (10_009, 121),
    ];
    for (at, value) in header {
        assert_eq!(rt; words.get(at).copied(), Some(value));
    }
    for place in 0..121usize {
        let at = place.wrapping_mul(4).wrapping_add(10_010);
        assert_eq!(rt; words.get(at).copied(), Some(257 * place as u64));
    }
    assert_eq!(rt; marked(&words), 126);
    Ok(())
}

// A search, and the report of its tree: cells, visits and wins.
type Report<'a> = (Search, &'a [(u32, u32, u32)]);

#[test]
fn reports_go_up_the_cells(rt: HostRuntime) -> Result<(), Fail> {
    let table: [Report; 2] = [
        (
            (2, 0, 0, 0, B, [4, 0, 4194304, 8, 180]),
            &[(0, 1, 0), (1, 1, 1), (2, 1, 1), (3, 1, 1)],
        ),
        (
            (2, 0, 0, 6, B, [10, 0, 4194304, 2, 180]),
            &[(1, 6, 4), (2, 4, 2)],
        ),
    ];
    for (search, wanted) in table {
        let shape = shape_of(&search).ok_or("a shape")?;
        let closed = plain_search(rt.alloc(), &shape)?;
        let rows = report(rt.alloc(), &closed)?;
        assert_eq!(rt; rows.len(), wanted.len());
        for (row, want) in rows.iter().zip(wanted) {
            assert_eq!(rt; (row.cell.number(), row.visits, row.wins), *want);
        }
    }
    Ok(())
}

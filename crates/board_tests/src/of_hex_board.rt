//! Boards of all sizes up to 4 against a plain search of paths, and the elements of some boards.

ghost use Rattle.std.specs.Prelude.{◌≡◌, ◌*◌, ◌<◌, ◌≤◌};

use hex_board::{Board, Elements};
use hex_cells::{Cell, Colour, Size};
use std::process::Abort;
use std::rt::HostRuntime;
use std::test::Fail;

// The largest board that is gone through in full.
const MOST: usize = 4;

// The cell of the board at a column and row, which the board must have.
pub(crate) fn cell_at(rt: &impl Abort, size: Size, column: u32, row: u32) -> Cell
    ensures { result < size * size }
{
    assert!(rt; column < size.get() && row < size.get());
    Cell::at(size, column, row)
}

// Puts a stone on a cell of the board, which must be empty.
fn put(rt: &impl Abort, board: &mut Board, colour: Colour, column: u32, row: u32)
    ensures { board.new.size ≡ board.old.size }
{
    let cell = cell_at(rt, board.size(), column, row);
    match board.at(cell) {
        None => board.place(colour, cell),
        Some(_) => panic!(rt; "the cell holds a stone"),
    }
}

// The board whose cells are the digits of `code` in this base, the first cell lowest: 0 Black, 1
// White, 2 empty.
fn decoded(rt: &impl Abort, code: u32, base: u32, size: Size) -> Board
    requires { 2 ≤ base }
{
    let mut board = Board::empty(size);
    let mut rest = code;
    for row in 0..size.get() {
        for column in 0..size.get() {
            match rest % base {
                0 => put(rt, &mut board, Colour::Black, column, row),
                1 => put(rt, &mut board, Colour::White, column, row),
                _ => {}
            }
            rest /= base;
        }
    }
    board
}

// The stones of a player by column and row.
fn grid_of(board: &Board, colour: Colour) -> [[bool; MOST]; MOST] {
    let mut grid = [[false; MOST]; MOST];
    let size = board.size();
    for row in 0..MOST {
        for column in 0..MOST {
            if (column as u32) < size.get() && (row as u32) < size.get() {
                let cell = Cell::at(size, column as u32, row as u32);
                grid[row][column] = board.at(cell) == Some(colour);
            }
        }
    }
    grid
}

// Whether a cell of the grid is set, if it lies within the board.
fn is_set(grid: &[[bool; MOST]; MOST], column: usize, row: usize) -> bool {
    column < MOST && row < MOST && grid[row][column]
}

// Whether one of the six neighbours of a cell is set.
fn beside(grid: &[[bool; MOST]; MOST], column: usize, row: usize) -> bool
    requires column { column < 4 }
    requires row { row < 4 }
{
    let left = column > 0 && is_set(grid, column - 1, row);
    let up = row > 0 && is_set(grid, column, row - 1);
    let up_right = row > 0 && is_set(grid, column + 1, row - 1);
    let down_left = column > 0 && is_set(grid, column - 1, row + 1);
    left || up
        || up_right
        || down_left
        || is_set(grid, column + 1, row)
        || is_set(grid, column, row + 1)
}

// Whether a path of stones joins the player's edges, by going on cell by cell from the first edge.
fn plainly_joined(board: &Board, colour: Colour) -> bool {
    let n = board.size().get() as usize;
    let stones = grid_of(board, colour);
    let mut reached = [[false; MOST]; MOST];
    for _ in 0..MOST * MOST {
        for row in 0..MOST {
            for column in 0..MOST {
                let along = match colour {
                    Colour::Black => row,
                    Colour::White => column,
                };
                if stones[row][column] && (along == 0 || beside(&reached, column, row)) {
                    reached[row][column] = true;
                    if along + 1 == n {
                        return true;
                    }
                }
            }
        }
    }
    false
}

#[test]
fn joined_is_a_path_on_all_small_boards(rt: HostRuntime) -> Result<(), Fail> {
    for (n, boards) in [(1, 3), (2, 81), (3, 19683)] {
        let size = Size::of(n).ok_or("a size")?;
        for code in 0..boards {
            let board = decoded(&rt, code, 3, size);
            let black = plainly_joined(&board, Colour::Black);
            let white = plainly_joined(&board, Colour::White);
            assert!(rt; board.joined(Colour::Black) == black, "{n} {code}");
            assert!(rt; board.joined(Colour::White) == white, "{n} {code}");
            let want = if black {
                Some(Colour::Black)
            } else if white {
                Some(Colour::White)
            } else {
                None
            };
            assert!(rt; board.winner() == want, "{n} {code}");
        }
    }
    Ok(())
}

#[test]
fn a_full_board_has_one_winner(rt: HostRuntime) -> Result<(), Fail> {
    for (n, boards) in [(1, 2), (2, 16), (3, 512), (4, 65536)] {
        let size = Size::of(n).ok_or("a size")?;
        for code in 0..boards {
            let board = decoded(&rt, code, 2, size);
            assert!(rt; board.empties().is_empty());
            assert!(rt;
                board.joined(Colour::Black) != board.joined(Colour::White),
                "{n} {code}"
            );
        }
    }
    Ok(())
}

// The stone of the group a2 to g2, Black's element 13, in a column, and the cell above it.
fn check_column(rt: &impl Abort, board: &Board, column: u8) {
    let elements = board.elements(Colour::Black);
    let stone = cell_at(rt, board.size(), u32::from(column), 1);
    let above = cell_at(rt, board.size(), u32::from(column), 0);
    let (x, y) = (13, column.saturating_add(2));
    assert_eq!(rt;
        (elements.of(stone), elements.of(above)),
        (Some(x), Some(y))
    );
    assert!(rt; u32::from(x) < elements.count() && u32::from(y) < elements.count());
    assert!(rt; elements.near(x, y) && elements.near(y, x) && !elements.near(x, x));
    assert!(rt; elements.near(y, elements.edge(false)) && !elements.near(x, elements.edge(false)));
    assert_eq!(rt; (elements.cell(x), elements.cell(y)), (None, Some(above)));
}

#[test]
fn elements_of_a_row(rt: HostRuntime) -> Result<(), Fail> {
    let size = Size::of(11).ok_or("a size")?;
    let mut board = Board::empty(size);
    // The stones a2 to g2.
    for column in 0..7 {
        put(&rt, &mut board, Colour::Black, column, 1);
    }
    put(&rt, &mut board, Colour::White, 8, 8);
    let elements = board.elements(Colour::Black);
    // Two edges, one group, and the cells without the seven stones and White's one.
    assert_eq!(rt; elements.count(), 2 + 1 + 113);
    assert_eq!(rt; (elements.edge(false), elements.edge(true)), (0, 1));
    for column in 0..7 {
        check_column(&rt, &board, column);
    }
    Ok(())
}

// Stones on a board of size 3, the element of each of its cells from a1 to c3, and pairs of
// elements.
struct Case {
    stones: &'static [(Colour, u32, u32)],
    player: Colour,
    second_edge: u8,
    elements: [Option<u8>; 9],
    near: &'static [(u8, u8)],
    apart: &'static [(u8, u8)],
}

// Black is joined by a1, a2 and a3; his group is b3 on the second edge; his one stone is b2;
// White's group a2 and b2 lies on the first edge, beside Black's c1.
const CASES: [Case; 4] = [
    Case {
        stones: &[
            (Colour::Black, 0, 0),
            (Colour::Black, 0, 1),
            (Colour::Black, 0, 2),
        ],
        player: Colour::Black,
        second_edge: 0,
        elements: [
            Some(0),
            Some(1),
            Some(2),
            Some(0),
            Some(3),
            Some(4),
            Some(0),
            Some(5),
            Some(6),
        ],
        near: &[(0, 1), (0, 2), (0, 3), (0, 6), (3, 5)],
        apart: &[(0, 4), (1, 5), (0, 0)],
    },
    Case {
        stones: &[(Colour::Black, 1, 2)],
        player: Colour::Black,
        second_edge: 1,
        elements: [
            Some(2),
            Some(3),
            Some(4),
            Some(5),
            Some(6),
            Some(7),
            Some(8),
            Some(1),
            Some(9),
        ],
        near: &[(1, 6), (1, 7), (1, 8), (1, 9), (0, 4)],
        apart: &[(1, 5), (0, 1), (0, 6)],
    },
    Case {
        stones: &[(Colour::Black, 1, 1)],
        player: Colour::Black,
        second_edge: 1,
        elements: [
            Some(2),
            Some(3),
            Some(4),
            Some(5),
            Some(6),
            Some(7),
            Some(8),
            Some(9),
            Some(10),
        ],
        near: &[(6, 3), (6, 4), (6, 5), (6, 7), (6, 8), (6, 9)],
        apart: &[(6, 2), (6, 10), (6, 0), (6, 1)],
    },
    Case {
        stones: &[
            (Colour::White, 0, 1),
            (Colour::White, 1, 1),
            (Colour::Black, 2, 0),
        ],
        player: Colour::White,
        second_edge: 1,
        elements: [
            Some(2),
            Some(3),
            None,
            Some(0),
            Some(0),
            Some(4),
            Some(5),
            Some(6),
            Some(7),
        ],
        near: &[(0, 2), (0, 3), (0, 4), (0, 5), (0, 6), (1, 4), (1, 7)],
        apart: &[(0, 1), (0, 7), (1, 3)],
    },
];

// A cell is of this element, if it is of one, which has the cell, and is it if there is no stone.
fn check_cell(rt: &impl Abort, board: &Board, player: Colour, place: u32, wanted: Option<u8>) {
    let cell = cell_at(rt, board.size(), place % 3, place / 3);
    let elements = board.elements(player);
    let element = elements.of(cell);
    assert_eq!(rt; element, wanted);
    if let Some(x) = element {
        let alone = match board.at(cell) {
            None => Some(cell),
            Some(_) => None,
        };
        assert_eq!(rt; elements.cell(x), alone);
        assert!(rt; elements.cells(x).has(cell));
    }
}

// These pairs are neighbours both ways round, or not.
fn check_pairs(rt: &impl Abort, elements: &Elements, pairs: &[(u8, u8)], wanted: bool) {
    for (x, y) in pairs {
        assert_eq!(rt; are_near(rt, elements, *x, *y), wanted);
        assert_eq!(rt; are_near(rt, elements, *y, *x), wanted);
    }
}

#[test]
fn elements_on_size_three(rt: HostRuntime) -> Result<(), Fail> {
    let size = Size::of(3).ok_or("a size")?;
    for case in &CASES {
        let mut board = Board::empty(size);
        for (colour, column, row) in case.stones {
            put(&rt, &mut board, *colour, *column, *row);
        }
        let elements = board.elements(case.player);
        let edges = (elements.edge(false), elements.edge(true));
        assert_eq!(rt; edges, (0, case.second_edge));
        for (place, wanted) in (0..9).zip(case.elements) {
            check_cell(&rt, &board, case.player, place, wanted);
        }
        check_pairs(&rt, &elements, case.near, true);
        check_pairs(&rt, &elements, case.apart, false);
    }
    Ok(())
}

fn are_near(rt: &impl Abort, elements: &Elements, x: u8, y: u8) -> bool {
    assert!(rt; u32::from(x) < elements.count() && u32::from(y) < elements.count());
    elements.near(x, y)
}

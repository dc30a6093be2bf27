//! Look-aheads on boards whose winning cells are known.

use hex_board::Board;
use hex_cells::{Cell, CellSet, Colour, Size};
use look_ahead::{Look, LookRow, Looked, Outcome, Root};
use std::alloc::Global;
use std::rt::HostRuntime;
use std::test::Fail;
use std::thread::{Threads, join};

// What a look by one worker finds at these cells, of which one may be chosen.
fn looked<R: Threads + Sync>(
    rt: &R,
    alloc: Global,
    board: &Board,
    colour: Colour,
    must: CellSet,
    nodes: u32,
) -> Result<Looked, Fail> {
    match looked_by(rt, alloc, 1, board, colour, must, nodes) {
        Some(looked) => Ok(looked),
        None => Err(Fail::from("nothing to look at, or no memory")),
    }
}

// What a look by so many workers finds; `None` if there is nothing to look at, or if memory runs
// out.
fn looked_by<R: Threads + Sync>(
    rt: &R,
    alloc: Global,
    workers: u32,
    board: &Board,
    colour: Colour,
    must: CellSet,
    nodes: u32,
) -> Option<Looked> {
    let any = must.least()?;
    if !must.has(any) || nodes == 0 {
        return None;
    }
    let Ok(mut look) = Look::make(alloc, workers) else {
        return None;
    };
    let root = Root { board, colour };
    match look.choose(rt, alloc, &root, must, nodes) {
        Ok(looked) => Some(looked),
        Err(_) => None,
    }
}

// On two by two the first player wins by b1 and a2 alone.
#[test]
fn takes_a_win(rt: HostRuntime) -> Result<(), Fail> {
    let board = Board::empty(Size::of(2).ok_or("a size")?);
    for colour in [Colour::Black, Colour::White] {
        let looked = looked(&rt, rt.alloc(), &board, colour, board.empties(), 50)?;
        let chosen = looked.cell().number();
        assert!(rt; chosen == 1 || chosen == 2);
        assert_eq!(rt; looked.rows().len(), 4);
        for (row, k) in looked.rows().iter().zip(0u32..) {
            assert_eq!(rt; u32::from(row.cell.number()), k);
            if row.cell == looked.cell() {
                assert_eq!(rt; row.known, Some(Outcome::Won));
                assert_eq!(rt; row.value, 1000);
            }
        }
    }
    Ok(())
}

// After Black's b1 each cell loses, and that is seen of each that was judged.
#[test]
fn sees_losses(rt: HostRuntime) -> Result<(), Fail> {
    let mut board = Board::empty(Size::of(2).ok_or("a size")?);
    board.place(Colour::Black, Cell::numbered(1));
    let looked = looked(&rt, rt.alloc(), &board, Colour::White, board.empties(), 50)?;
    assert!(rt; board.empties().has(looked.cell()));
    for row in looked.rows() {
        assert_eq!(rt; row.known, Some(Outcome::Lost));
        assert_eq!(rt; row.value, 0);
    }
    Ok(())
}

// With one node the board alone is judged, and of one cell this one is chosen.
#[test]
fn few(rt: HostRuntime) -> Result<(), Fail> {
    let alloc = rt.alloc();
    let board = Board::empty(Size::of(11).ok_or("a size")?);
    let all = board.empties();
    assert_eq!(rt;
        looked(&rt, alloc, &board, Colour::Black, all, 1)?.nodes(),
        1
    );
    assert_eq!(rt;
        looked(&rt, alloc, &board, Colour::Black, all, 7)?.nodes(),
        7
    );
    let only = Cell::numbered(17);
    let single = CellSet::none().with(only);
    assert_eq!(rt;
        looked(&rt, alloc, &board, Colour::White, single, 3)?.cell(),
        only
    );
    Ok(())
}

// A board of 6 by 6 on which some stones lie.
fn begun() -> Result<Board, Fail> {
    let mut board = Board::empty(Size::of(6).ok_or("a size")?);
    for (number, colour) in [(8, Colour::Black), (14, Colour::White), (21, Colour::Black)] {
        let cell = Cell::numbered(number);
        if board.empties().has(cell) {
            board.place(colour, cell);
        }
    }
    Ok(board)
}

// What a look by so many workers finds on a board with White to move.
fn looked_at<R: Threads + Sync>(
    rt: &R,
    alloc: Global,
    workers: u32,
    board: &Board,
) -> Option<Looked> {
    looked_by(
        rt,
        alloc,
        workers,
        board,
        Colour::White,
        board.empties(),
        60,
    )
}

// Whether two rows say the same.
fn is_same_row(one: &LookRow, other: &LookRow) -> bool {
    one.cell == other.cell
        && one.nodes == other.nodes
        && one.value == other.value
        && one.known == other.known
        && one.line == other.line
}

// Whether the same was found.
fn is_same(one: &Looked, other: &Looked) -> bool {
    let mut rows = one.rows().iter().zip(other.rows().iter());
    one.cell() == other.cell()
        && one.nodes() == other.nodes()
        && one.rows().len() == other.rows().len()
        && rows.all(|(row, second)| is_same_row(row, second))
}

// Whether a look by so many workers finds the same alone and twice at once, where each run slows
// the other down.
fn finds_the_same<R: Threads + Sync>(rt: &R, alloc: Global, workers: u32, board: &Board) -> bool {
    let alone = looked_at(rt, alloc, workers, board);
    let (one, other) = join(
        rt,
        || looked_at(rt, alloc, workers, board),
        || looked_at(rt, alloc, workers, board),
    );
    match (alone, one, other) {
        (Some(alone), Some(one), Some(other)) => is_same(&alone, &one) && is_same(&alone, &other),
        _ => false,
    }
}

// However the threads run, so many workers find the same, and judge as many nodes as one.
#[test]
fn workers(rt: HostRuntime) -> Result<(), Fail> {
    let board = begun()?;
    for workers in [1, 2, 4, 8] {
        assert!(rt; finds_the_same(&rt, rt.alloc(), workers, &board));
    }
    Ok(())
}

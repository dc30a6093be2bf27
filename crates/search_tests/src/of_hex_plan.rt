//! The seeds of turns, when no turn is made, how many positions a plan took, and a win by the stone
//! of a look-ahead. What else is planned is shown by whole sessions, rows of session_tests.

ghost use Rattle.std.specs.Prelude.{IfSome};
ghost use Rattle.hex_board.specs.Positions.{AllEmpty};
ghost use Rattle.tree_words.specs.Settings.{IsAny};

use hex_board::Board;
use hex_cells::{Cell, CellSet, Colour, Size};
use hex_plan::types::Plan;
use hex_plan::{Means, Planned, may_move, plan, plan_after, turn_shape};
use look_ahead::{Look, Root};
use std::alloc::Global;
use std::test::Fail;
use std::thread::Threads;
use tree_words::Knobs;

// The empty cells of the board, if it has one.
fn some_empties(board: &Board) -> Option<CellSet>
    ensures { IfSome result (λ set. IsAny set × AllEmpty board.now set) }
{
    let all = board.empties();
    all.least()?;
    Some(all)
}

// The seeds of the first turns of sessions, S + number * 2^32 modulo 2^64.
#[test]
fn each_turn_has_its_own_seed(rt: HostRuntime) -> Result<(), Fail> {
    let size = Size::of(1).ok_or("a size")?;
    let board = Board::of(size, CellSet::none(), CellSet::none());
    let allowed = some_empties(&board).ok_or("an empty cell")?;
    let table = [
        (0, 0, 0),
        (7, 1, 4_294_967_303),
        (5, 3, 12_884_901_893),
        (u64::MAX, 1, 4_294_967_295),
        (0, 1 << 32, 0),
    ];
    for (seed, number, want) in table {
        let options = Knobs {
            workers: 1,
            playouts: 4,
            seed,
            words: 1_024,
            expand: 1,
            weight: 256,
        };
        let shape = turn_shape(&board, Colour::Black, allowed, &options, number);
        assert_eq!(rt;
            *shape.knobs(),
            Knobs {
                seed: want,
                ..options
            }
        );
    }
    Ok(())
}

#[test]
fn no_turn_is_made_where_black_is_joined(rt: HostRuntime) -> Result<(), Fail> {
    let size = Size::of(2).ok_or("a size")?;
    let column = CellSet::none()
        .with(Cell::at(size, 0, 0))
        .with(Cell::at(size, 0, 1));
    assert!(rt; !may_move(&Board::of(size, column, CellSet::none())));
    assert!(rt; may_move(&Board::of(size, CellSet::none(), column)));
    Ok(())
}

// What is planned for White on the board, if a turn may be made there.
fn planned(alloc: Global, board: &Board, means: Means) -> Result<Planned, Fail> {
    if !may_move(board) {
        return Err(Fail::from("no turn may be made"));
    }
    let Ok(planned) = plan(alloc, board, Colour::White, means) else {
        return Err(Fail::from("memory"));
    };
    Ok(planned)
}

// After Black's d1 three positions show that White loses; then there is a certificate of the loss.
#[test]
fn plan_tells_how_many_positions_it_took(rt: HostRuntime) -> Result<(), Fail> {
    let size = Size::of(4).ok_or("a size")?;
    let black = CellSet::none().with(Cell::at(size, 3, 0));
    let board = Board::of(size, black, CellSet::none());
    let table = [
        (true, 20_000, 3),
        (true, 3, 3),
        (true, 2, 2),
        (true, 0, 0),
        (false, 3, 0),
    ];
    for (hsearch, solve, entered) in table {
        let means = Means {
            hsearch,
            solve,
            look: 0,
        };
        let planned = planned(rt.alloc(), &board, means)?;
        assert_eq!(rt; planned.entered, entered, "{hsearch} {solve}");
        let has_loss = planned.loss.is_some();
        assert_eq!(rt; has_loss, hsearch && 3 <= solve, "{hsearch} {solve}");
    }
    Ok(())
}

// What is planned for White on the board after a look-ahead, if a search was planned before.
fn planned_after<R: Threads + Sync>(
    rt: &R,
    alloc: Global,
    board: &Board,
    means: Means,
) -> Result<Planned, Fail> {
    if !may_move(board) || means.look == 0 {
        return Err(Fail::from("no look-ahead"));
    }
    let colour = Colour::White;
    let Ok(planned) = plan(alloc, board, colour, means) else {
        return Err(Fail::from("memory"));
    };
    let Some(allowed) = planned.allowed() else {
        return Err(Fail::from("a win before"));
    };
    let Ok(mut look) = Look::make(alloc, 1) else {
        return Err(Fail::from("memory"));
    };
    let root = Root { board, colour };
    let Ok(looked) = look.choose(rt, alloc, &root, allowed, means.look) else {
        return Err(Fail::from("memory"));
    };
    let Ok(after) = plan_after(alloc, board, colour, means, planned, &Some(looked)) else {
        return Err(Fail::from("memory"));
    };
    Ok(after)
}

// The number of the cell of a win.
fn won_number(plan: &Plan) -> Option<u32> {
    match plan {
        Plan::Win { cell, .. } => Some(cell.number()),
        Plan::Search { .. } => None,
    }
}

// After Black's e2 and c2 and White's d3 no connection joins White's edges, but c4, cell 20, wins,
// as the look-ahead knows: of the solver's certificate of the board after it comes one of this
// board.
#[test]
fn a_cell_that_looks_won_is_certified(rt: HostRuntime) -> Result<(), Fail> {
    let size = Size::of(6).ok_or("a size")?;
    let black = CellSet::none()
        .with(Cell::at(size, 4, 1))
        .with(Cell::at(size, 2, 1));
    let board = Board::of(size, black, CellSet::none().with(Cell::at(size, 3, 2)));
    for solve in [0, 1] {
        let means = Means {
            hsearch: true,
            solve,
            look: 50,
        };
        let planned = planned_after(&rt, rt.alloc(), &board, means)?;
        assert!(rt; u64::from(solve) < planned.entered, "{solve}");
        let won = won_number(&planned.plan).ok_or("a win")?;
        assert_eq!(rt; won, 20, "{solve}");
    }
    Ok(())
}

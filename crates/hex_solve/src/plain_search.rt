//! The plain search: depth first, the cells in rising order.

ghost use Rattle.std.specs.Prelude.{◌≡◌, ℕ, ◌+◌, true, false};
ghost use Rattle.hex_cells.specs.Colours.{other_of};
ghost use Rattle.hex_board.specs.Joined.{is_joined};
ghost use Rattle.hex_board.specs.Positions.{is_empty_at, stones_of};
ghost use Rattle.hex_solve.specs.PlainSearch.{IsSearch, IsPairOfLedgers};

use super::ledgers::Ledger;
use hex_board::Board;
use hex_cells::Colour;
use std::alloc::Global;

/// Why a search stopped.
#[derive(Clone, Copy, Debug, PartialEq, Eq)]
pub(crate) enum SearchEnd {
    /// The budget is spent.
    Spent,
    /// The board is full, and nobody is joined.
    Open(Board),
    /// Memory ran out.
    Memory,
}

/// What was found of a position: whether the player to place wins, and the line that shows it.
#[derive(Clone, Copy, Debug, PartialEq, Eq)]
pub(crate) struct Found {
    pub by_mover: bool,
    pub line: u32,
}

/// Searches a position with the mover to place, entering at most `left` positions, and grows the
/// ledger of who wins.
#[cycle(search)]
pub(crate) fn position(
    alloc: Global,
    board: &Board,
    mover: Colour,
    own: &mut Ledger,
    other: &mut Ledger,
    left: &mut u64,
) -> Result<Found, SearchEnd>
    requires searched { IsPairOfLedgers board.now mover own.old other.old }
    ensures { IsSearch board.now mover left.old left.new (own.old, other.old) (own.new, other.new)
        result }
{
    if *left == 0 {
        return Err(SearchEnd::Spent);
    }
    *left -= 1;
    if board.joined(mover.other()) {
        let Ok(line) = other.add_done(board) else {
            return Err(SearchEnd::Memory);
        };
        return Ok(Found {
            by_mover: false,
            line,
        });
    }
    let Some(_room) = board.empties().least() else {
        return Err(SearchEnd::Open(*board));
    };
    moves(alloc, board, mover, own, other, left)
}

#[cycle(search)]
fn moves(
    alloc: Global,
    board: &Board,
    mover: Colour,
    own: &mut Ledger,
    other: &mut Ledger,
    left: &mut u64,
) -> Result<Found, SearchEnd>
    requires searched { IsPairOfLedgers board.now mover own.old other.old }
    requires apart { is_joined board.now.size (other_of mover)
        (stones_of board.now (other_of mover)) ≡ false }
    requires room { (k : ℕ) × (is_empty_at board.now k ≡ true) }
    ensures { IsSearch board.now mover (left.old + 1) left.new (own.old, other.old)
        (own.new, other.new) result }
{
    let mark = other.mark();
    let mut cases = Vec::new(alloc);
    let mut cells = board.empties();
    'cells: while let Some(cell) = cells.least() {
        // A set of cells has no bit from that of the last cell on.
        let _bits = cells.bits();
        let mut next = *board;
        next.place(mover, cell);
        let found = match position(alloc, &next, mover.other(), other, own, left) {
            Ok(found) => found,
            Err(stop) => return Err(stop),
        };
        if !found.by_mover {
            other.back(mark);
            let Ok(line) = own.add_move(board, cell, found.line) else {
                return Err(SearchEnd::Memory);
            };
            return Ok(Found {
                by_mover: true,
                line,
            });
        }
        let Ok(()) = cases.push(found.line) else {
            return Err(SearchEnd::Memory);
        };
        cells = cells.without(cell);
    }
    let Ok(line) = other.add_cases(board, cases) else {
        return Err(SearchEnd::Memory);
    };
    Ok(Found {
        by_mover: false,
        line,
    })
}

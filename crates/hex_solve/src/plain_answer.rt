//! What the search without connections tells.

ghost use Rattle.std.specs.Prelude.{◌≡◌, ℕ, IfOk, None, Option};
ghost use Rattle.hex_board.specs.Joined.{winner_of};
ghost use Rattle.conn_store.specs.Stores.{StoreData};
ghost use Rattle.hex_solve.specs.PlainSearch.{IsSearchEnd};
ghost use Rattle.hex_solve.specs.PlainAnswer.{IsPlainAnswer, IsToldBy};
ghost use Rattle.hex_solve.specs.Solved.{IsCellToTry};

use super::answers::Solved;
use super::ledgers::Ledger;
use super::plain_search::{SearchEnd, position};
use super::refusals::Memory;
use conn_store::Kind;
use hex_board::Board;
use hex_cells::{Cell, Colour};
use hsearch::Report;
use std::alloc::Global;

/// Who wins the board, on which nobody is joined, with `mover` to place: by a search that tries the
/// cells in rising order and enters at most `budget` positions. If it is unknown, the report and
/// the best cell are handed on.
pub(crate) fn search_plainly(
    alloc: Global,
    board: &Board,
    mover: Colour,
    own: Option<Report>,
    best: Option<Cell>,
    budget: u64,
) -> Result<Solved, Memory>
    requires nobody { winner_of board.now ≡ None }
    requires best { IsCellToTry board.now best }
    ensures { IfOk result (IsPlainAnswer board.now mover own budget) }
{
    let mut mine = Ledger::make(alloc, board, mover);
    let mut theirs = Ledger::make(alloc, board, mover.other());
    let mut left = budget;
    match position(alloc, board, mover, &mut mine, &mut theirs, &mut left) {
        Ok(found) => {
            if found.by_mover {
                Ok(told(board, mover, mine, Kind::Semi, found.line))
            } else {
                Ok(told(board, mover, theirs, Kind::Full, found.line))
            }
        }
        Err(stop) => stopped(board, mover, own, best, budget, stop),
    }
}

// Why there is no winner.
fn stopped(
    board: &Board,
    mover: Colour,
    own: Option<Report>,
    best: Option<Cell>,
    budget: u64,
    stop: SearchEnd,
) -> Result<Solved, Memory>
    requires end { IsSearchEnd board.now mover budget stop }
    requires best { IsCellToTry board.now best }
    ensures { IfOk result (IsPlainAnswer board.now mover own budget) }
{
    match stop {
        SearchEnd::Spent => Ok(Solved::Unknown {
            spent: budget,
            own,
            best,
        }),
        SearchEnd::Open(full) => Ok(Solved::Open { full }),
        SearchEnd::Memory => Err(Memory),
    }
}

// That the ledger's player wins the board, by a certificate if it is not too long.
fn told(board: &Board, mover: Colour, ledger: Ledger, claim: Kind, line: u32) -> Solved
    requires { IsToldBy board.now mover claim line ledger }
    ensures { (own : Option StoreData) (budget : ℕ)
        → IsPlainAnswer board.now mover own budget result }
{
    let winner = ledger.player();
    match ledger.into_cert(claim, line) {
        Ok(cert) => Solved::Won { winner, cert },
        Err(lines) => Solved::TooLong { winner, lines },
    }
}

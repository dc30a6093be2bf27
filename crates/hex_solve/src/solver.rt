//! The solver.

ghost use Rattle.std.specs.Prelude.{◌≡◌, true, IfNone, IfOk, IfSome, None, Some};
ghost use Rattle.hex_board.specs.Joined.{winner_of};
ghost use Rattle.hex_board.specs.Positions.{IsPosition, is_empty_at};
ghost use Rattle.hsearch.specs.Closed.{IsReportOf};
ghost use Rattle.hex_found.specs.Found.{IsCertifiedWinner};
ghost use Rattle.hex_solve.specs.Solved.{BestIsEmpty, IsCellToTry, IsUndecided, OpenIsFull};
ghost use Rattle.hex_solve.specs.Solved.{TooLongIsCounted};
ghost use Rattle.hex_solve.specs.Solved.{TooLongNeedsMany, UnknownNeedsMore, WinnerWins};
ghost use Rattle.hex_solve.specs.Solved.{WonIsCertified, WonIsShort};
ghost use Rattle.hex_solve.specs.PlainAnswer.{IsSolverAnswer};

use super::answers::Solved;
use super::plain_answer::search_plainly;
use super::refusals::Memory;
use conn_store::Kind;
use hex_board::Board;
use hex_cells::{Cell, Colour};
use hex_found::{Findings, Found, find};
use hsearch::{Report, connect};
use std::alloc::Global;
use win_cert::{Cert, MOST_LATEST_LINES, accepted_certificates_win, cut, edge_numbers, raise};

/// Who wins the board, on which no player is joined, with `mover` to place next.
///
/// With `hsearch` it first asks for the mover's report: a semi entry between his edges is a win.
/// Otherwise a search with connections looks for a certificate, which enters at most `budget`
/// positions. If that finds none, and without `hsearch`, a search goes depth first and tries the
/// cells in rising order, up to the first that wins. It enters at most `budget` positions, each as
/// often as a list of moves leads to it.
///
/// It answers the winner with a certificate of the version that its lines need, or with the number
/// of lines if the certificate of the search without connections has too many. Or it answers that
/// the budget is spent, with an empty cell that it thinks best, or a full board on which nobody is
/// joined, if there is one. It refuses only if memory runs out.
pub fn solve(
    alloc: Global,
    board: &Board,
    mover: Colour,
    hsearch: bool,
    budget: u64,
) -> Result<Solved, Memory>
    requires nobody { winner_of board.now ≡ None }
    ensures wins { IfOk result (WinnerWins board.now mover) }
    ensures won { IfOk result (WonIsCertified board.now mover) }
    ensures short { IfOk result (WonIsShort board.now mover hsearch) }
    ensures unknown { IfOk result (UnknownNeedsMore board.now mover hsearch budget) }
    ensures best { IfOk result (BestIsEmpty board.now) }
    ensures too_long { IfOk result (TooLongNeedsMany board.now mover) }
    ensures counted { IfOk result (TooLongIsCounted board.now mover) }
    ensures open { IfOk result (OpenIsFull board.now) }
{
    if !hsearch {
        return search_plainly(alloc, board, mover, None, best_of(board, None), budget);
    }
    let own = connect(alloc, board, mover)?;
    match by_connections(alloc, board, mover, &own)? {
        Some(cert) => Ok(Solved::Won {
            winner: mover,
            cert,
        }),
        None => search_both(alloc, board, mover, own, budget),
    }
}

// The winner by the certificate that the search with connections found, if it found one; else what
// the search without them tells.
fn search_both(
    alloc: Global,
    board: &Board,
    mover: Colour,
    own: Report,
    budget: u64,
) -> Result<Solved, Memory>
    requires { winner_of board.now ≡ None }
    ensures { IfOk result (IsSolverAnswer board.now mover (Some own) budget) }
{
    let Findings { found, best, .. } = find(alloc, board, mover, budget, MOST_LATEST_LINES)?;
    match found {
        Some(Found { cert, carrier: _ }) => Ok(Solved::Won {
            winner: cert.player,
            cert,
        }),
        None => {
            let best = best_of(board, best);
            search_plainly(alloc, board, mover, Some(own), best, budget)
        }
    }
}

// The cell that is thought best; the first empty one if there is none.
fn best_of(board: &Board, thought: Option<Cell>) -> Option<Cell>
    requires { IfSome thought (λ cell. is_empty_at board.now cell ≡ true) }
    ensures { IsCellToTry board.now result }
{
    match thought {
        Some(cell) => Some(cell),
        None => board.empties().least(),
    }
}

// What connections decide: a certificate that the mover wins, cut from the first semi entry between
// his edges in his report. `None` exactly if the report has no such entry.
fn by_connections(
    alloc: Global,
    board: &Board,
    mover: Colour,
    own: &Report,
) -> Result<Option<Cert>, Memory>
    requires nobody { winner_of board.now ≡ None }
    requires own { IsReportOf board.now mover own.now }
    ensures won { IfOk result (λ won. IfSome won (IsCertifiedWinner board.now mover mover)) }
    ensures none { IfOk result (λ won. IfNone won (IsUndecided own.now)) }
{
    accepted_certificates_win();
    boards_are_positions(board);
    let semi = edge_numbers(own.store(), Kind::Semi);
    if semi.count == 0 {
        return Ok(None);
    }
    let cert = cut(alloc, own, semi.at[0])?;
    Ok(Some(raise(alloc, &cert)?))
}

// The board has 1 to 11 rows, and its stones lie on it and have no cell in common.
fn boards_are_positions(board: &Board)
    ensures { IsPosition board.now.size board.now.black board.now.white }
{
    let _size = board.size();
    let _black = board.stones(Colour::Black);
    let _white = board.stones(Colour::White);
}

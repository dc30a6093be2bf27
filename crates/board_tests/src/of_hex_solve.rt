//! The solver from end to end: who wins small boards by which claim, the checker's word on each
//! certificate, and what is spent if it is unknown.

use super::of_cert_draft::sought;
use super::of_hsearch::board_of;
use cert_check::check;
use conn_store::Kind;
use hex_board::Board;
use hex_cells::{Colour, Size};
use hex_solve::{Memory, Solved, solve};
use std::alloc::Global;
use std::rt::HostRuntime;
use win_cert::Verdict;

// What the tests ask of an answer.
#[derive(Debug, Clone, Copy, PartialEq, Eq)]
enum Answer {
    // The winner, and what the checker says yes to.
    Won(Colour, Kind),
    // The certificate is refused, or is not the winner's.
    Refused,
    // What was spent, and whether there is a report.
    Unknown(u64, bool),
    TooLong,
    Open,
    // A player is joined already.
    Over(Colour),
}

// What is told of the board, with certificates handed to the checker.
fn told(
    alloc: Global,
    board: &Board,
    mover: Colour,
    hsearch: bool,
    budget: u64,
) -> Result<Answer, Memory> {
    if let Some(winner) = board.winner() {
        return Ok(Answer::Over(winner));
    }
    Ok(match solve(alloc, board, mover, hsearch, budget)? {
        Solved::Won { winner, cert } => match check(alloc, &cert) {
            Ok(Verdict::Yes { claim, carrier: _ }) if cert.player == winner => {
                Answer::Won(winner, claim)
            }
            _ => Answer::Refused,
        },
        Solved::Unknown { spent, own, .. } => Answer::Unknown(spent, own.is_some()),
        Solved::TooLong { .. } => Answer::TooLong,
        Solved::Open { .. } => Answer::Open,
    })
}

#[test]
fn small_boards(rt: HostRuntime) {
    use Colour::{Black, White};
    use Kind::{Full, Semi};
    // 3^k for Black's stone on cell k, twice that for White's.
    let (after_a2, file_a, after_two) = (9, 1 + 81 + 6_561, 1 + 2 * 81);
    // Size, stones, the mover, connections, the budget, and what is told.
    let rows: [(u32, u32, Colour, bool, u64, Answer); 9] = [
        // `budget-one` and `budget-for-four-cells`: four empty cells have the bound 65.
        (2, 0, Black, false, 1, Answer::Unknown(1, false)),
        (2, 0, Black, false, 65, Answer::Won(Black, Semi)),
        // `the-other-moves`: Black wins, though White moves.
        (2, after_a2, White, true, 65, Answer::Won(Black, Full)),
        (2, after_a2, White, false, 65, Answer::Won(Black, Full)),
        // Black's two threats have no cell in common, so one position is enough.
        (2, after_a2, White, true, 1, Answer::Won(Black, Full)),
        // `over-already`.
        (1, 1, White, false, 1, Answer::Over(Black)),
        // `semi-at-the-root`: a4 alone joins Black's a1, a2 and a3 to his second edge.
        (4, file_a, Black, true, 1, Answer::Won(Black, Semi)),
        (4, file_a, Black, false, 1, Answer::Unknown(1, false)),
        // White moves after Black's a1 and his own b2; seven empty cells have the bound 13,700.
        (3, after_two, White, false, 13_700, Answer::Won(White, Semi)),
    ];
    for (size, stones, mover, hsearch, budget, expected) in rows {
        let size = Size::of(size).expect(&rt, "a size");
        let board = board_of(size, stones);
        let Ok(answer) = told(rt.alloc(), &board, mover, hsearch, budget) else {
            panic!(rt; "there is memory");
        };
        assert_eq!(rt; answer, expected);
    }
}

#[test]
fn budget_of_connections(rt: HostRuntime) {
    // Size 4 after d1, of which the search without connections needs far more positions.
    let enough = sought(&rt, rt.alloc(), u64::MAX).entered;
    assert!(rt; 1 < enough);
    let rows = [
        (enough, Answer::Won(Colour::Black, Kind::Full)),
        (enough - 1, Answer::Unknown(enough - 1, true)),
        (1, Answer::Unknown(1, true)),
    ];
    let board = board_of(Size::of(4).expect(&rt, "a size"), 27);
    for (budget, expected) in rows {
        let Ok(answer) = told(rt.alloc(), &board, Colour::White, true, budget) else {
            panic!(rt; "there is memory");
        };
        assert_eq!(rt; answer, expected);
    }
}

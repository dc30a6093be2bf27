//! Certificates that are found: whose they are, those that don't count, and how many positions at
//! most are entered.

use super::of_cert_draft::{AFTER_D1, BUDGET, ENTERED, board, lines_of, sought};
use cert_check::check;
use conn_store::Kind;
use hex_board::Board;
use hex_cells::{Cell, Colour};
use hex_found::{Findings, Memory, certified, find};
use std::alloc::Global;
use std::process::Abort;
use std::rt::HostRuntime;
use win_cert::{
    LATEST_VERSION, MOST_LINES, SECOND_VERSION, THIRD_VERSION, Verdict, claimed_move, read,
};

// That Black wins the empty board of size 2, in the version that its lines need.
const BLACK_WINS: &[u8] = b"hexcert 2\nsize 2\nplayer black\nblack\nwhite\n\
    adj a2 a1\nadj a1 edge1\nadj a2 b1\nadj b1 edge1\n\
    key 0 1\nkey 2 3\nor 4 5\nadj a2 edge2\nkey 6 7\nsemi 8\n";

// The same in the first version.
const FIRST_VERSION: &[u8] = b"hexcert 1\nsize 2\nplayer black\nblack\nwhite\n\
    adj a2 a1\nadj a1 edge1\nadj a2 b1\nadj b1 edge1\n\
    key 0 1\nkey 2 3\nor 4 5\nadj a2 edge2\nkey 6 7\nsemi 8\n";

// The same in version 3, which it needs for an `or` of four.
const OF_FOUR: &[u8] = b"hexcert 3\nsize 2\nplayer black\nblack\nwhite\n\
    adj a2 a1\nadj a1 edge1\nadj a2 b1\nadj b1 edge1\n\
    key 0 1\nkey 2 3\nor 4 5 4 5\nadj a2 edge2\nkey 6 7\nsemi 8\n";

// The same in version 3, which it doesn't need.
const NEEDLESS: &[u8] = b"hexcert 3\nsize 2\nplayer black\nblack\nwhite\n\
    adj a2 a1\nadj a1 edge1\nadj a2 b1\nadj b1 edge1\n\
    key 0 1\nkey 2 3\nor 4 5\nadj a2 edge2\nkey 6 7\nsemi 8\n";

// The same with the cases taken twice from one line, which the checker refuses.
const REFUSED: &[u8] = b"hexcert 2\nsize 2\nplayer black\nblack\nwhite\n\
    adj a2 a1\nadj a1 edge1\nadj a2 b1\nadj b1 edge1\n\
    key 0 1\nkey 2 3\nor 4 4\nadj a2 edge2\nkey 6 7\nsemi 8\n";

// 3^2 for Black's stone on c1 of size 3.
const AFTER_C1: u32 = 9;

// 3^8 for Black's stone on d2 of size 5.
const AFTER_D2_OF_FIVE: u32 = 6_561;

// 3^9 for Black's stone on e2 of size 5.
const AFTER_E2_OF_FIVE: u32 = 19_683;

// Puts a stone on the cell with this number, if that lies on the board and is empty.
fn put(board: &mut Board, colour: Colour, number: u32) {
    if number < board.size().cells() {
        let cell = Cell::numbered(number);
        match board.at(cell) {
            None => board.place(colour, cell),
            Some(_) => {}
        }
    }
}

// What is claimed, if it is accepted with this carrier.
fn claim_over(verdict: Verdict, bits: u128) -> Option<Kind> {
    match verdict {
        Verdict::Yes { claim, carrier } if carrier.bits() == bits => Some(claim),
        _ => None,
    }
}

// What is found by entering at most so many positions, however many lines it has.
fn findings(rt: &impl Abort, alloc: Global, board: &Board, mover: Colour, budget: u64) -> Findings {
    let Ok(findings) = find(alloc, board, mover, budget, MOST_LINES) else {
        panic!(rt; "there is memory");
    };
    findings
}

// Who wins by what claim, as the checker says of the certificate that is found.
fn found(alloc: Global, board: &Board, mover: Colour) -> Result<Option<(Colour, Kind)>, Memory> {
    let Some(found) = find(alloc, board, mover, BUDGET, MOST_LINES)?.found else {
        return Ok(None);
    };
    let Ok(verdict) = check(alloc, &found.cert) else {
        return Ok(None);
    };
    let told = claim_over(verdict, found.carrier.bits());
    Ok(told.map(|claim| (found.cert.player, claim)))
}

#[test]
fn small_boards_are_decided(rt: HostRuntime) {
    use Colour::{Black, White};
    use Kind::{Full, Semi};
    // Size, stones, the mover, and who wins by what claim.
    let rows = [
        (2, 0, White, Some((White, Semi))),
        (3, 0, Black, Some((Black, Semi))),
        // After a1 White wins, and after c1 Black.
        (3, 1, White, Some((White, Semi))),
        (3, AFTER_C1, White, Some((Black, Full))),
        (4, AFTER_D1, White, Some((Black, Full))),
        // A stone that joins the edges.
        (1, 0, White, Some((White, Semi))),
        (2, 1, Black, Some((Black, Semi))),
        // Black is joined already.
        (1, 1, White, None),
    ];
    for (size, stones, mover, expected) in rows {
        let Ok(answer) = found(rt.alloc(), &board(&rt, size, stones), mover) else {
            panic!(rt; "there is memory");
        };
        assert_eq!(rt; answer, expected);
    }
}

/// A budget that ends as soon as it is known who wins, before a winning stone is: the line that is
/// claimed is a `move` all the same. On size 2 cases show what follows after it.
#[test]
fn claim_is_a_move(rt: HostRuntime) {
    for size in [2, 3, 4, 5] {
        let board = board(&rt, size, 0);
        let Some(found) = findings(&rt, rt.alloc(), &board, Colour::Black, 1).found else {
            panic!(rt; "a certificate is found");
        };
        assert!(rt; claimed_move(&found.cert).is_some(), "{size}");
    }
}

/// Positions that the first one decides, by a claim that is no `move`, since no winning stone is
/// known: they are certified all the same.
#[test]
fn claim_may_be_no_move(rt: HostRuntime) {
    // White's e4, e5 and e6 of size 6, after Black's e3.
    for white in [22, 28, 34] {
        let mut board = board(&rt, 6, 0);
        put(&mut board, Colour::Black, 16);
        put(&mut board, Colour::White, white);
        let Some(found) = findings(&rt, rt.alloc(), &board, Colour::Black, 1).found else {
            panic!(rt; "a certificate is found after {white}");
        };
        assert_eq!(rt; found.cert.player, Colour::Black);
        assert!(rt; claimed_move(&found.cert).is_none(), "{white}");
    }
}

/// A certificate of more lines than are asked for is not found.
#[test]
fn lines_are_at_most_as_many(rt: HostRuntime) {
    let board = board(&rt, 4, AFTER_D1);
    let lines = lines_of(&sought(&rt, rt.alloc(), BUDGET));
    for (most, expected) in [(lines, true), (lines.saturating_sub(1), false), (0, false)] {
        let Ok(answer) = find(rt.alloc(), &board, Colour::White, BUDGET, most) else {
            panic!(rt; "there is memory");
        };
        assert_eq!(rt; answer.found.is_some(), expected, "{most}");
        // As many positions were entered, whatever is answered.
        assert_eq!(rt; answer.entered, ENTERED, "{most}");
    }
}

#[test]
fn certificates_are_compared(rt: HostRuntime) {
    use Colour::{Black, White};
    // The certificate, the size, the stones and the mover, and whether it is answered.
    let rows = [
        (BLACK_WINS, 2, 0, Black, true),
        (BLACK_WINS, 2, 0, White, false),
        (BLACK_WINS, 2, 1, Black, false),
        (BLACK_WINS, 3, 0, Black, false),
        (FIRST_VERSION, 2, 0, Black, false),
        (OF_FOUR, 2, 0, Black, true),
        (NEEDLESS, 2, 0, Black, false),
        (REFUSED, 2, 0, Black, false),
    ];
    for (text, size, stones, mover, expected) in rows {
        let Ok(cert) = read(rt.alloc(), text) else {
            panic!(rt; "it is a certificate");
        };
        let Ok(answer) = certified(rt.alloc(), &board(&rt, size, stones), mover, cert) else {
            panic!(rt; "there is memory");
        };
        assert_eq!(rt; answer.is_some(), expected);
    }
}

/// Lines are lifted if that makes a certificate shorter, and else it has the least version.
#[test]
fn version_is_what_lines_need(rt: HostRuntime) {
    // The size, the stones, and the version of the certificate.
    let rows = [
        (3, AFTER_C1, SECOND_VERSION),
        (4, AFTER_D1, SECOND_VERSION),
        (5, AFTER_D2_OF_FIVE, THIRD_VERSION),
        (5, AFTER_E2_OF_FIVE, LATEST_VERSION),
    ];
    for (size, stones, version) in rows {
        let board = board(&rt, size, stones);
        let Some(found) = findings(&rt, rt.alloc(), &board, Colour::White, BUDGET).found else {
            panic!(rt; "a certificate is found");
        };
        assert_eq!(rt; found.cert.version, version);
    }
}

/// As many positions as have to be entered are enough, and one fewer is not.
#[test]
fn budget_is_kept(rt: HostRuntime) {
    let board = board(&rt, 4, AFTER_D1);
    for budget in [ENTERED - 1, 1, 0] {
        let none = findings(&rt, rt.alloc(), &board, Colour::White, budget);
        assert_eq!(rt; (none.found.is_some(), none.entered), (false, budget));
        let short = sought(&rt, rt.alloc(), budget);
        assert_eq!(rt; none.best, short.best);
    }
}

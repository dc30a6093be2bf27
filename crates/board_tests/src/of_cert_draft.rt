//! What is sought for a certificate: who wins, and how many positions at most are entered.

use super::of_hsearch::board_of;
use cert_draft::{Sought, seek};
use hex_board::Board;
use hex_cells::{Colour, Size};
use std::alloc::Global;
use std::process::Abort;
use std::rt::HostRuntime;

// Enough for the boards of these tests.
pub(crate) const BUDGET: u64 = 10_000;

// 3^3 for Black's stone on d1 of size 4.
pub(crate) const AFTER_D1: u32 = 27;

// The least budget by which the same search, translated into Rust, wins after d1. It is 5 if no
// report goes on over edges.
pub(crate) const ENTERED: u64 = 3;

// The board of this size with these stones.
pub(crate) fn board(rt: &impl Abort, size: u32, stones: u32) -> Board {
    board_of(Size::of(size).expect(rt, "a size"), stones)
}

// What is sought on size 4 after d1. More than one position has to be entered.
pub(crate) fn sought(rt: &impl Abort, alloc: Global, budget: u64) -> Sought {
    let Ok(sought) = seek(alloc, &board(rt, 4, AFTER_D1), Colour::White, budget) else {
        panic!(rt; "there is memory");
    };
    sought
}

// How many lines the certificate has; 0 if there is none.
pub(crate) fn lines_of(sought: &Sought) -> usize {
    let cert = sought.cert.as_ref();
    cert.map_or(0, |cert| cert.lines.as_slice().len())
}

/// One position is enough to know who wins.
#[test]
fn one_position_tells(rt: HostRuntime) {
    for size in [2, 3, 4, 5] {
        let Ok(sought) = seek(rt.alloc(), &board(&rt, size, 0), Colour::Black, 1) else {
            panic!(rt; "there is memory");
        };
        assert_eq!(rt; sought.by_mover, Some(true), "{size}");
    }
}

/// As many positions as were entered are enough.
#[test]
fn budget_is_spent(rt: HostRuntime) {
    let whole = sought(&rt, rt.alloc(), BUDGET);
    assert_eq!(rt; (whole.by_mover, whole.entered), (Some(false), ENTERED));
    let same = sought(&rt, rt.alloc(), ENTERED);
    assert!(rt; 0 < lines_of(&same));
    assert_eq!(rt;
        (same.entered, lines_of(&same)),
        (whole.entered, lines_of(&whole))
    );
}

/// One position fewer is not, and a cell is named once the first one was entered.
#[test]
fn budget_is_too_small(rt: HostRuntime) {
    for budget in [ENTERED - 1, 1, 0] {
        let short = sought(&rt, rt.alloc(), budget);
        assert_eq!(rt; (short.by_mover, short.entered), (None, budget));
        assert_eq!(rt;
            (short.cert.is_some(), short.best.is_some()),
            (false, 0 < budget)
        );
    }
}

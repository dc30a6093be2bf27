//! Links that are made from those before a stone, beside links from nothing.

use circuit::Circuit;
use hex_board::Board;
use hex_cells::{Cell, Colour, MOST_CELLS, Size};
use live_links::{KeptLinks, Links, MOST_ENTRIES, Room, Until};
use std::alloc::Global;
use std::rt::HostRuntime;
use std::test::Fail;

// How many boards there are.
const BOARDS: u32 = 30;

// What is counted over all stones of a kind.
#[derive(Clone, Copy)]
struct Sums {
    stones: u64,
    // In how many it differs who wins, and which cells are in common.
    wins: u64,
    common: u64,
    // The totals of both, on the boards on which neither has joined the edges.
    after: u64,
    anew: u64,
}

impl Sums {
    fn none() -> Sums {
        Sums {
            stones: 0,
            wins: 0,
            common: 0,
            after: 0,
            anew: 0,
        }
    }

    // Counts the links after a stone, and those from nothing.
    fn count(&mut self, after: &Links, anew: &Links, circuit: &mut Circuit) {
        self.stones = self.stones.saturating_add(1);
        if after.has_any() != anew.has_any() || after.has_full() != anew.has_full() {
            self.wins = self.wins.saturating_add(1);
        }
        if after.common() != anew.common() {
            self.common = self.common.saturating_add(1);
        }
        if !after.has_full() && !anew.has_full() {
            after.draw(circuit);
            self.after = self.after.saturating_add(u64::from(circuit.total()));
            anew.draw(circuit);
            self.anew = self.anew.saturating_add(u64::from(circuit.total()));
        }
    }

    // How many thousandths of the totals from nothing the two lie apart, at least.
    fn apart(&self) -> u64 {
        self.after.abs_diff(self.anew).saturating_mul(1000) / self.anew.max(1)
    }
}

// A board with so many stones on cells that the seed determines, Black's and White's in turn.
fn board_of(size: Size, stones: u32, seed: u64) -> Board {
    let mut board = Board::empty(size);
    let mut colour = Colour::Black;
    let mut number = seed;
    for _stone in 0..stones {
        number = number
            .wrapping_mul(6364136223846793005)
            .wrapping_add(1442695040888963407);
        let empties = board.empties();
        let count = empties.count();
        if count == 0 {
            break;
        }
        let cell = empties.nth((number >> 33) as u32 % count);
        board.place(colour, cell);
        colour = colour.other();
    }
    board
}

// The board with a stone on the cell, if it is empty.
fn with_stone(board: &Board, colour: Colour, cell: Cell) -> Board {
    let mut now = *board;
    if now.empties().has(cell) {
        now.place(colour, cell);
    }
    now
}

// Compares the links of a player after each stone of this colour on a board.
fn compare(
    alloc: Global,
    board: &Board,
    player: Colour,
    colour: Colour,
    sums: &mut Sums,
) -> Result<(), Fail> {
    let mut kept = KeptLinks::none(alloc);
    let mut after = Links::make(alloc)?;
    let mut anew = Links::make(alloc)?;
    let mut room = Room::make(alloc)?;
    let mut circuit = Circuit::make(alloc)?;
    anew.load(board, player, Until::Closed)?;
    kept.make_room(MOST_ENTRIES)?;
    kept.keep(&anew)?.then_some(()).ok_or("room")?;
    let mut rest = board.empties();
    for _cell in 0..MOST_CELLS {
        let Some(cell) = rest.least() else {
            break;
        };
        rest = rest.without(cell);
        let now = with_stone(board, colour, cell);
        after.follow(&kept, &now, Until::Closed, &mut room)?;
        anew.load(&now, player, Until::Closed)?;
        sums.count(&after, &anew, &mut circuit);
    }
    Ok(())
}

// What is found of both players on all boards, after stones of their own or of the other.
fn sums_of(alloc: Global, own: bool) -> Result<Sums, Fail> {
    let mut sums = Sums::none();
    for k in 0..BOARDS {
        let n = 5 + k % 5;
        let board = board_of(Size::of(n).ok_or("a size")?, n, u64::from(k));
        for player in [Colour::Black, Colour::White] {
            let colour = if own { player } else { player.other() };
            compare(alloc, &board, player, colour, &mut sums)?;
        }
    }
    Ok(sums)
}

// After a stone of the other player nothing that wins differs, and little else. The bounds are
// twice what was measured, and a pair that isn't joined anew passes them by far.
#[test]
fn after_the_other_ones_stone(rt: HostRuntime) -> Result<(), Fail> {
    let sums = sums_of(rt.alloc(), false)?;
    assert_eq!(rt; sums.stones, 2640);
    assert_eq!(rt; sums.wins, 0);
    assert!(rt; sums.common <= 20);
    assert_eq!(rt; sums.apart(), 0);
    Ok(())
}

// After a stone of the player's own the entries come in another order, so that full pairs turn
// others away. The bounds are twice what was measured, and links in which the entries at the stone
// aren't taken again pass them by far.
#[test]
fn after_an_own_stone(rt: HostRuntime) -> Result<(), Fail> {
    let sums = sums_of(rt.alloc(), true)?;
    assert_eq!(rt; sums.stones, 2640);
    assert!(rt; sums.wins <= 62);
    assert!(rt; sums.common <= 352);
    assert!(rt; sums.apart() <= 12);
    Ok(())
}

//! Dead and captured cells are filled with stones: whoever wins with them wins without.

use hex_board::Board;
use hex_cells::{Cell, CellSet, Colour, MOST_CELLS, Size};

// The places around a cell, one after the other: how many columns and rows further, and one more.
const AROUND: [(u32, u32); 6] = [(2, 1), (1, 2), (0, 2), (0, 1), (1, 0), (2, 0)];

// Who holds the places around a cell: of each player a bit for each of his.
#[derive(Clone, Copy)]
struct Ring {
    black: u32,
    white: u32,
}

impl Ring {
    // The ring of a cell.
    fn of(board: &Board, cell: Cell) -> Ring {
        let mut ring = Ring { black: 0, white: 0 };
        for ((right, down), place) in AROUND.iter().zip(0u32..) {
            if let Some(colour) = holder(board, cell, *right, *down) {
                ring = ring.with(colour, place);
            }
        }
        ring
    }

    // The ring with this place too.
    fn with(self, colour: Colour, place: u32) -> Ring {
        let bit = 1u32 << (place % 6);
        match colour {
            Colour::Black => Ring {
                black: self.black | bit,
                white: self.white,
            },
            Colour::White => Ring {
                black: self.black,
                white: self.white | bit,
            },
        }
    }

    // Whether the cell inside is dead: however the other places are filled, the ring is no more
    // than one run of each colour, so that a stone inside joins none that aren't joined.
    fn is_dead(self) -> bool {
        is_split(self.black, self.white) || is_split(self.white, self.black)
    }

    // Whether so many places are held.
    fn has(self, count: u32) -> bool {
        count <= (self.black | self.white).count_ones()
    }
}

// Whether one colour has four places in a row, or three with the other opposite the middle one, or
// two with two of the other opposite.
fn is_split(ours: u32, others: u32) -> bool {
    // A ring twice has each place before the one that follows it.
    let (ours, others) = (ours % 64 * 65, others % 64 * 65);
    let two = ours & ours >> 1;
    let four = two & two >> 2;
    let three = two & ours >> 2 & others >> 4;
    let facing = two & others >> 3 & others >> 4;
    (four | three | facing) % 64 != 0
}

// The cell at so many columns and rows further, less one; `None` past the edges.
fn beside(size: Size, cell: Cell, right: u32, down: u32) -> Option<Cell> {
    let n = size.get();
    let column = (cell.number() % n).saturating_add(right).checked_sub(1)?;
    let row = (cell.number() / n).saturating_add(down).checked_sub(1)?;
    if column < n && row < n {
        Some(Cell::at(size, column, row))
    } else {
        None
    }
}

// Who holds the place there: a player's edges are his, and the corners between two are nobody's.
fn holder(board: &Board, cell: Cell, right: u32, down: u32) -> Option<Colour> {
    let size = board.size();
    if let Some(place) = beside(size, cell, right, down) {
        return stone_at(board, place);
    }
    let is_column = beside(size, cell, right, 1).is_some();
    let is_row = beside(size, cell, 1, down).is_some();
    match (is_column, is_row) {
        (true, false) => Some(Colour::Black),
        (false, true) => Some(Colour::White),
        _ => None,
    }
}

// The colour of the stone on a cell.
fn stone_at(board: &Board, cell: Cell) -> Option<Colour> {
    if board.stones(Colour::Black).has(cell) {
        Some(Colour::Black)
    } else if board.stones(Colour::White).has(cell) {
        Some(Colour::White)
    } else {
        None
    }
}

/// The board with stones on the cells that are dead, and on those that a player captured. Nobody
/// wins on it who doesn't win on the board itself.
pub(crate) fn filled(board: &Board) -> Board {
    let mut now = *board;
    for _round in 0..MOST_CELLS {
        let before = now.empties();
        fill_once(&mut now);
        if now.empties() == before {
            break;
        }
    }
    now
}

// Fills the cells that are seen to be dead or captured, one after the other.
fn fill_once(board: &mut Board) {
    let mut rest = board.empties();
    for _cell in 0..MOST_CELLS {
        let Some(cell) = rest.least() else {
            return;
        };
        rest = rest.without(cell);
        if is_away(board, cell) {
            continue;
        }
        let ring = Ring::of(board, cell);
        if ring.is_dead() {
            put(board, Colour::Black, cell);
        } else if ring.has(3) {
            fill_captured(board, cell, ring);
        }
    }
}

// Whether a cell lies by no stone, and isn't one of the two corners with two neighbours. Then at
// most two places around it are held: so it is neither dead nor captured.
fn is_away(board: &Board, cell: Cell) -> bool {
    let around = CellSet::none().with(cell).around(board.size());
    3 <= around.count() && around.inside(board.empties())
}

// Fills an empty cell, and one of those after it beside it, if a player captured both: if the other
// places on one of them, the player's stone on the second makes that one dead.
fn fill_captured(board: &mut Board, cell: Cell, ring: Ring) {
    for ((right, down), place) in AROUND.iter().zip(0u32..).take(3) {
        let Some(second) = beside(board.size(), cell, *right, *down) else {
            continue;
        };
        if !board.empties().has(cell) || !board.empties().has(second) {
            continue;
        }
        let beyond = Ring::of(board, second);
        for colour in [Colour::Black, Colour::White] {
            let is_ours = ring.with(colour, place).is_dead();
            if is_ours && beyond.with(colour, place.saturating_add(3)).is_dead() {
                put(board, colour, cell);
                put(board, colour, second);
            }
        }
    }
}

// Puts a stone on a cell, if it is empty.
fn put(board: &mut Board, colour: Colour, cell: Cell) {
    if board.empties().has(cell) {
        board.place(colour, cell);
    }
}

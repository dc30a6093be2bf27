//! The rows of single calls, small boards in full against plain programs, and a large board.

ghost use Rattle.std.specs.Prelude.{◌≡◌, ◌<◌};

use conn_store::{Kind, Store};
use hex_board::Board;
use hex_cells::{Cell, CellSet, Colour, Size, edge};
use hsearch::{Report, connect};
use std::alloc::Global;
use std::process::Abort;
use std::rt::HostRuntime;

// As many rounds as a flood over 121 cells and two edges can need.
const ROUNDS: u32 = 124;

fn size_of(rt: &impl Abort, size: u32) -> Size {
    Size::of(size).expect(rt, "a size")
}

fn report_of(rt: &impl Abort, alloc: Global, board: &Board, colour: Colour) -> Report {
    match connect(alloc, board, colour) {
        Ok(report) => report,
        Err(_) => panic!(rt; "there is memory"),
    }
}

// The two edges' entries of a kind.
fn edge_entries(rt: &impl Abort, store: &Store, kind: Kind) -> u32 {
    let elements = store.elements();
    let (first, second) = (elements.edge(false), elements.edge(true));
    assert!(rt; first < second);
    store.held(first, second, kind).count
}

// Two elements of a player on a board of this size: their cells, and whether they hold his first
// edge and his second.
#[derive(Drop)]
struct Pair {
    size: Size,
    colour: Colour,
    x: CellSet,
    y: CellSet,
    x_edges: (bool, bool),
    y_edges: (bool, bool),
}

// Whether the stones link the two elements, by a flood over cells and edges.
fn are_linked(pair: &Pair, stones: CellSet) -> bool {
    let open = stones.union(pair.x).union(pair.y);
    let first = edge(pair.colour, false, pair.size);
    let second = edge(pair.colour, true, pair.size);
    let (mut at_first, mut at_second) = pair.x_edges;
    let mut reach = pair.x;
    if at_first {
        reach = reach.union(first.meet(open));
    }
    if at_second {
        reach = reach.union(second.meet(open));
    }
    for _ in 0..ROUNDS {
        let before = reach;
        at_first = at_first || reach.meets(first);
        at_second = at_second || reach.meets(second);
        let mut next = reach.around(pair.size);
        if at_first {
            next = next.union(first);
        }
        if at_second {
            next = next.union(second);
        }
        reach = reach.union(next.meet(open));
        if reach == before {
            break;
        }
    }
    reach.meets(pair.y) || at_first && pair.y_edges.0 || at_second && pair.y_edges.1
}

// The truth of an entry, by recursion on the number of cells in the carrier.
fn is_true(pair: &Pair, kind: Kind, stones: CellSet, carrier: CellSet, fuel: u32) -> bool {
    if are_linked(pair, stones) {
        return true;
    }
    if fuel == 0 {
        return false;
    }
    let mut rest = carrier;
    let mut is_sure = kind == Kind::Full && !carrier.is_empty();
    while let Some(cell) = rest.least() {
        rest = rest.without(cell);
        let left = carrier.without(cell);
        match kind {
            Kind::Full => {
                if !is_true(pair, Kind::Semi, stones, left, fuel - 1) {
                    is_sure = false;
                    break;
                }
            }
            Kind::Semi => {
                if is_true(pair, Kind::Full, stones.with(cell), left, fuel - 1) {
                    is_sure = true;
                    break;
                }
            }
        }
    }
    is_sure
}

// Whether the player wins if `mover` places next, by a search of the whole game.
fn wins(board: &Board, player: Colour, mover: Colour, fuel: u32) -> bool {
    if board.joined(player) {
        return true;
    }
    if fuel == 0 {
        return false;
    }
    let mut has_room = false;
    for number in 0..board.size().cells() {
        let cell = Cell::numbered(number);
        let mut next = *board;
        match next.at(cell) {
            None => next.place(mover, cell),
            Some(_) => continue,
        }
        has_room = true;
        let is_won = wins(&next, player, mover.other(), fuel - 1);
        if is_won == (mover == player) {
            return is_won;
        }
    }
    has_room && mover != player
}

// The board whose cells are the digits of `code` in base 3, the first cell lowest: 0 empty, 1
// Black, 2 White.
pub(crate) fn board_of(size: Size, code: u32) -> Board {
    let mut board = Board::empty(size);
    let mut rest = code;
    for number in 0..board.size().cells() {
        let colour = match rest % 3 {
            1 => Some(Colour::Black),
            2 => Some(Colour::White),
            _ => None,
        };
        rest /= 3;
        let cell = Cell::numbered(number);
        if let Some(colour) = colour {
            match board.at(cell) {
                None => board.place(colour, cell),
                Some(_) => {}
            }
        }
    }
    board
}

// Whether play can lead to the board, with no player joined yet.
fn is_reached(board: &Board) -> bool {
    let black = board.stones(Colour::Black).count();
    let white = board.stones(Colour::White).count();
    (black == white || black == white + 1) && board.winner() == None
}

// Compares a player's report with the plain programs, and answers how many entries it has.
fn compare(rt: &impl Abort, alloc: Global, board: &Board, colour: Colour) -> usize {
    let report = report_of(rt, alloc, board, colour);
    let store = report.store();
    let elements = store.elements();
    let (first, second) = (elements.edge(false), elements.edge(true));
    for entry in store.entries() {
        let (x, y) = (entry.x, entry.y);
        assert!(rt; x < y && u32::from(y) < elements.count());
        let pair = Pair {
            size: board.size(),
            colour,
            x: elements.cells(x),
            y: elements.cells(y),
            x_edges: (first == x, second == x),
            y_edges: (first == y, second == y),
        };
        assert!(rt;
            is_true(
                &pair,
                entry.kind,
                board.stones(colour),
                entry.carrier,
                entry.carrier.count()
            )
        );
    }
    let empties = board.empties().count();
    if 0 < edge_entries(rt, store, Kind::Semi) {
        assert!(rt; wins(board, colour, colour, empties));
    }
    if 0 < edge_entries(rt, store, Kind::Full) {
        assert!(rt; wins(board, colour, colour.other(), empties));
    }
    store.entries().len()
}

#[test]
fn one_cell_joins_the_edges(rt: HostRuntime) {
    let board = board_of(size_of(&rt, 1), 0);
    let report = report_of(&rt, rt.alloc(), &board, Colour::Black);
    let store = report.store();
    let elements = store.elements();
    let (first, second) = (elements.edge(false), elements.edge(true));
    assert!(rt; first < second);
    let held = store.held(first, second, Kind::Semi);
    assert_eq!(rt; held.count, 1);
    let entries = store.entries();
    assert!(rt; (held.at[0] as usize) < entries.len());
    assert_eq!(rt;
        entries[held.at[0] as usize].carrier,
        CellSet::none().with(Cell::numbered(0))
    );
    assert_eq!(rt; store.held(first, second, Kind::Full).count, 0);
}

#[test]
fn a_first_stone_joins_the_edges_of_size_two(rt: HostRuntime) {
    let board = board_of(size_of(&rt, 2), 0);
    let report = report_of(&rt, rt.alloc(), &board, Colour::Black);
    assert!(rt; 0 < edge_entries(&rt, report.store(), Kind::Semi));
}

// Each entry is true, and who has an entry of his two edges wins: on the boards of sizes 1 to 3
// that play leads to.
#[test]
fn small_boards_agree_with_plain_programs(rt: HostRuntime) {
    for (size, codes) in [(1, 3), (2, 81), (3, 19_683)] {
        let size = size_of(&rt, size);
        for code in 0..codes {
            let board = board_of(size, code);
            if is_reached(&board) {
                compare(&rt, rt.alloc(), &board, Colour::Black);
                compare(&rt, rt.alloc(), &board, Colour::White);
            }
        }
    }
}

// Black's stone on f6 and White's on e7, on the largest board.
#[test]
fn a_large_board_ends_in_time(rt: HostRuntime) {
    let size = size_of(&rt, 11);
    let black = CellSet::none().with(Cell::numbered(60));
    let white = CellSet::none().with(Cell::numbered(70));
    assert!(rt;
        black.inside(CellSet::all(size)) && white.inside(CellSet::all(size)) && !black.meets(white)
    );
    let board = Board::of(size, black, white);
    for colour in [Colour::Black, Colour::White] {
        let report = report_of(&rt, rt.alloc(), &board, colour);
        assert!(rt; 1_000 < report.store().entries().len());
    }
}

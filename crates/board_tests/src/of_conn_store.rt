//! The rows of single calls, and each call once.

use conn_store::{Held, Kind, Put, Store};
use hex_board::Board;
use hex_cells::{Cell, Colour, Size};
use std::alloc::Global;
use std::process::Abort;
use std::rt::HostRuntime;

// A store of Black's on the board of this size, with his stones on the first so many cells of its
// second row.
fn store_of(rt: &impl Abort, alloc: Global, size: u32, stones: u32) -> Store {
    let size = Size::of(size).expect(rt, "a size");
    assert!(rt; stones == 0 || 1 < size.get() && stones <= size.get());
    let mut board = Board::empty(size);
    for column in 0..stones {
        let cell = Cell::at(size, column, 1);
        match board.at(cell) {
            None => board.place(Colour::Black, cell),
            Some(_) => panic!(rt; "the cell holds a stone"),
        }
    }
    let made = Store::make(alloc, &board, Colour::Black);
    match made {
        Ok(store) => store,
        Err(_) => panic!(rt; "there is memory"),
    }
}

// Adds the entry of two elements side by side.
fn add_adjacent(rt: &impl Abort, store: &mut Store, x: u8, y: u8) -> Put {
    assert!(rt; x < y && u32::from(y) < store.elements().count());
    let entry = store
        .by_adjacent(x, y)
        .expect(rt, "the elements lie side by side");
    store.add(entry)
}

// Adds the entry that follows from two entries by a rule of AND over the greater element of the
// first.
fn add_and(rt: &impl Abort, store: &mut Store, i: u32, j: u32) -> Put {
    let entries = store.entries();
    let count = entries.len();
    assert!(rt; (i as usize) < count && (j as usize) < count);
    let entry = entries[i as usize];
    assert!(rt; entry.kind == Kind::Full && entry.x < entry.y);
    let first = store.over(i, entry.x, entry.y);
    let entry = store.by_and(&first, j).expect(rt, "a rule of AND applies");
    store.add(entry)
}

#[test]
fn a_second_adjacent_entry_is_dominated(rt: HostRuntime) {
    let mut store = store_of(&rt, rt.alloc(), 1, 0);
    check_one_cell(&rt, &mut store);
}

// An empty store of a board of one cell takes the entry of the cell and an edge once.
fn check_one_cell(rt: &impl Abort, store: &mut Store) {
    assert_eq!(rt; store.elements().count(), 3);
    assert_eq!(rt; add_adjacent(rt, store, 0, 2), Put::Added(0));
    assert_eq!(rt; add_adjacent(rt, store, 0, 2), Put::Dominated);
    assert_eq!(rt; store.entries().len(), 1);
    assert!(rt; 1 < store.elements().count());
    assert!(rt; store.by_adjacent(0, 1).is_none());
    assert_eq!(rt; store.board().size().get(), 1);
    assert_eq!(rt; store.colour(), Colour::Black);
}

// Black's stones on a2 to g2 are one group, element 13, and a1 to g1 are elements 2 to 8. Each of
// these seven cells lies beside the first edge and beside the group: its two entries are added.
fn add_columns(rt: &impl Abort, store: &mut Store, columns: u8) {
    for column in 0..columns {
        let number = 2 * u32::from(column);
        let x = 2u8.saturating_add(column);
        assert_eq!(rt; add_adjacent(rt, store, 0, x), Put::Added(number));
        assert_eq!(rt; add_adjacent(rt, store, x, 13), Put::Added(number + 1));
    }
}

// Adds the way over each of these cells, from the first edge to the group, of which the pair holds
// six.
fn add_ways(rt: &impl Abort, store: &mut Store, columns: u8) {
    for column in 0..u32::from(columns) {
        let put = add_and(rt, store, 2 * column, 2 * column + 1);
        let number = 2 * u32::from(columns) + column;
        let want = if column < 6 {
            Put::Added(number)
        } else {
            Put::PairFull
        };
        assert_eq!(rt; put, want);
    }
}

#[test]
fn a_seventh_semi_entry_finds_the_pair_full(rt: HostRuntime) {
    let mut store = store_of(&rt, rt.alloc(), 11, 7);
    check_seven_ways(&rt, &mut store);
}

// Of seven ways between the first edge and the group the pair holds the first six.
fn check_seven_ways(rt: &impl Abort, store: &mut Store) {
    assert_eq!(rt; store.elements().count(), 117);
    add_columns(rt, store, 7);
    add_ways(rt, store, 7);
    let held = Held {
        count: 6,
        at: [14, 15, 16, 17, 18, 19],
    };
    assert!(rt; 13 < store.elements().count());
    assert_eq!(rt; store.held(0, 13, Kind::Semi), held);
    assert_eq!(rt; store.held(0, 13, Kind::Full).count, 0);
    let entries = store.entries();
    assert_eq!(rt; entries.len(), 20);
    for entry in &entries[14..] {
        assert_eq!(rt; entry.carrier.count(), 1);
    }
}

// Adds the entry that follows from two entries by the rule of OR, and counts its cells.
fn add_or_two(rt: &impl Abort, store: &mut Store, i: u32, j: u32) -> (Put, u32) {
    let count = store.entries().len();
    assert!(rt; (i as usize) < count && (j as usize) < count);
    let entry = store.by_or_two(i, j).expect(rt, "the rule of OR applies");
    let cells = entry.carrier.count();
    (store.add(entry), cells)
}

// The same of three entries.
fn add_or_three(rt: &impl Abort, store: &mut Store, i: u32, j: u32, k: u32) -> (Put, u32) {
    let count = store.entries().len();
    assert!(rt; (i as usize) < count && (j as usize) < count && (k as usize) < count);
    let entry = store
        .by_or_three(i, j, k)
        .expect(rt, "the rule of OR applies");
    let cells = entry.carrier.count();
    (store.add(entry), cells)
}

#[test]
fn two_or_three_ways_make_a_full_entry(rt: HostRuntime) {
    let mut store = store_of(&rt, rt.alloc(), 11, 7);
    check_ors(&rt, &mut store);
}

// Three ways between the first edge and the group, entries 6 to 8, join them; so do two of them.
fn check_ors(rt: &impl Abort, store: &mut Store) {
    add_columns(rt, store, 3);
    add_ways(rt, store, 3);
    assert_eq!(rt; store.entries().len(), 9);
    assert_eq!(rt; add_or_three(rt, store, 6, 7, 8), (Put::Added(9), 3));
    assert_eq!(rt; add_or_two(rt, store, 6, 7), (Put::Added(10), 2));
    assert_eq!(rt; store.entries().len(), 11);
    assert!(rt; store.by_or_two(6, 6).is_none());
    assert_eq!(rt; add_or_two(rt, store, 7, 6), (Put::Dominated, 2));
}

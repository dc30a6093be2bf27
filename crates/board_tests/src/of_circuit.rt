//! Circuits whose conductances are known by hand.

use circuit::Circuit;
use hex_board::Board;
use hex_cells::{Cell, Colour, Size};
use live_links::{Links, Until};
use std::alloc::Global;
use std::process::Abort;
use std::rt::HostRuntime;
use std::test::Fail;

// The conductance of a wire between two empty cells that lie side by side.
const UNIT: u32 = 1 << 20;

// Of a board of one cell the edges have a wire of two units each to the cell, one after the other:
// one unit together. The current of the whole goes in at the cell and out again: twice 2^20.
#[test]
fn one_cell(rt: HostRuntime) -> Result<(), Fail> {
    let mut circuit = Circuit::make(rt.alloc())?;
    check_one_cell(&rt, rt.alloc(), &mut circuit)
}

fn check_one_cell(rt: &impl Abort, alloc: Global, circuit: &mut Circuit) -> Result<(), Fail> {
    let board = Board::empty(Size::of(1).ok_or("a size")?);
    for colour in [Colour::Black, Colour::White] {
        load(alloc, circuit, &board, colour)?;
        assert_eq!(rt; circuit.total(), UNIT);
        assert_eq!(rt; circuit.part(Cell::numbered(0)), u64::from(2 * UNIT));
    }
    Ok(())
}

// Makes it the circuit of a player's links.
fn load(alloc: Global, circuit: &mut Circuit, board: &Board, colour: Colour) -> Result<(), Fail> {
    let mut links = Links::make(alloc)?;
    links.load(board, colour, Until::Closed)?;
    links.draw(circuit);
    Ok(())
}

// On two by two the two cells of the short diagonal carry more than the two others, by symmetry as
// much as each other.
#[test]
fn two_by_two(rt: HostRuntime) -> Result<(), Fail> {
    let mut circuit = Circuit::make(rt.alloc())?;
    check_two_by_two(&rt, rt.alloc(), &mut circuit)
}

fn check_two_by_two(rt: &impl Abort, alloc: Global, circuit: &mut Circuit) -> Result<(), Fail> {
    let board = Board::empty(Size::of(2).ok_or("a size")?);
    load(alloc, circuit, &board, Colour::Black)?;
    let (left, right) = (
        circuit.part(Cell::numbered(2)),
        circuit.part(Cell::numbered(1)),
    );
    assert!(rt; circuit.part(Cell::numbered(0)) < left);
    assert!(rt; circuit.part(Cell::numbered(3)) < right);
    assert!(rt; left.abs_diff(right) < 8);
    Ok(())
}

// A stone of the player's own makes him better.
#[test]
fn own_stone(rt: HostRuntime) -> Result<(), Fail> {
    let mut circuit = Circuit::make(rt.alloc())?;
    check_own_stone(&rt, rt.alloc(), &mut circuit)
}

fn check_own_stone(rt: &impl Abort, alloc: Global, circuit: &mut Circuit) -> Result<(), Fail> {
    let mut board = Board::empty(Size::of(2).ok_or("a size")?);
    load(alloc, circuit, &board, Colour::Black)?;
    let empty = circuit.total();
    board.place(Colour::Black, Cell::numbered(0));
    load(alloc, circuit, &board, Colour::Black)?;
    assert!(rt; empty < circuit.total());
    Ok(())
}

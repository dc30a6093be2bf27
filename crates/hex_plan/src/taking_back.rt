//! A certificate of a board after a stone, as one of the board before it.

use conn_store::Kind;
use hex_board::Board;
use hex_cells::{Cell, CellSet};
use std::alloc::{AllocError, Global};
use win_cert::{Cert, Line, Lines, Numbers, version_for};

/// By so many lines the certificate of the board before the stone is longer.
pub(crate) const MORE_LINES: usize = 3;

/// A draft of a certificate that the player of one of the board after his stone on the cell wins
/// the board before it by placing this stone: the same lines, each in its scope with the stone
/// too, and a `move` to what is claimed.
///
/// No clause says that it can be written or is accepted: whoever takes it has both to check.
pub(crate) fn taken_back(
    alloc: Global,
    after: &Cert,
    board: &Board,
    cell: Cell,
) -> Result<Cert, AllocError> {
    let stone = CellSet::none().with(cell);
    let mut lines = Vec::new(alloc);
    lines.push(Line::Put(stone))?;
    for line in after.lines.as_slice() {
        lines.push(with_stone(alloc, line, stone)?)?;
    }
    lines.push(Line::Put(CellSet::none()))?;
    let entry = u32::try_from(lines.len()).unwrap_or(u32::MAX);
    lines.push(Line::Move(cell, next(after.entry)))?;
    Ok(Cert {
        version: version_for(lines.as_slice()),
        board: *board,
        player: after.player,
        lines: Lines::of(lines),
        claim: Kind::Semi,
        entry,
    })
}

// The line in a scope with the stone too, behind one line more.
fn with_stone(alloc: Global, line: &Line, stone: CellSet) -> Result<Line, AllocError> {
    match line {
        Line::Adj(x, y) => Ok(Line::Adj(*x, *y)),
        Line::And(i, j) => Ok(Line::And(next(*i), next(*j))),
        Line::Key(i, j) => Ok(Line::Key(next(*i), next(*j))),
        Line::Or2(i, j) => Ok(Line::Or2(next(*i), next(*j))),
        Line::Or3(i, j, k) => Ok(Line::Or3(next(*i), next(*j), next(*k))),
        Line::OrMany(numbers) => Ok(Line::OrMany(all_next(alloc, numbers)?)),
        Line::Put(cells) => Ok(Line::Put(cells.union(stone))),
        Line::Done => Ok(Line::Done),
        Line::Move(cell, i) => Ok(Line::Move(*cell, next(*i))),
        Line::Cases(numbers) => Ok(Line::Cases(all_next(alloc, numbers)?)),
        Line::Lift(i) => Ok(Line::Lift(next(*i))),
    }
}

// The numbers of these lines behind one line more.
fn all_next(alloc: Global, numbers: &Numbers) -> Result<Numbers, AllocError> {
    let mut all = Vec::new(alloc);
    for number in numbers.as_slice() {
        all.push(next(*number))?;
    }
    Ok(Numbers::of(all))
}

// The number of a line behind one line more.
fn next(number: u32) -> u32 {
    number.saturating_add(1)
}

//! The root's children: the best one, and a report of all.

ghost use Rattle.std.specs.Prelude.{◌≡◌, ◌+◌, ◌*◌, ◌^◌, ◌<◌, ◌≤◌, IfOk};
ghost use Rattle.std.specs.Prelude.{IsTrue, ◌↔◌};
ghost use Rattle.tree_words.specs.Growth.{root_end};
ghost use Rattle.tree_words.specs.Roots.{HasRoot, IsBest, root_count, root_link, row_at, rows_of};
ghost use Rattle.tree_words.specs.Roots.{Beats, Rise};

use super::closed_tree::Closed;
use super::layout::{COUNT_WORD, HEADER_WORDS, LINK_WORD, MOST_NODES, NODE_WORDS, TALLY_WORD};
use super::readings::{cell_of, visits_of, wins_of};
use hex_cells::Cell;
use std::alloc::Global;

/// A call wanted memory that it was not given.
#[derive(Debug, Clone, Copy, PartialEq, Eq, Drop)]
pub struct Memory;

/// A child of the root: its cell, its visits and its wins.
#[derive(Debug, Clone, Copy, PartialEq, Eq)]
pub struct Row {
    /// The cell.
    pub cell: Cell,
    /// How many playouts went through it.
    pub visits: u32,
    /// How many of these the player who placed the cell's stone won.
    pub wins: u32,
}

impl Closed {
    // The number of the root's children, of which there is one at least.
    fn root_count(&self) -> usize
        ensures value { result ≡ root_count self.now.shape self.now.words }
        ensures range { (1 ≤ result) × (result ≤ MOST_NODES) }
        ensures root { HasRoot self.now.shape self.now.words }
    {
        let link = self.root_link();
        self.word(link + COUNT_WORD) as usize
    }

    // The first word of the root's block.
    fn root_link(&self) -> usize
        ensures value { result ≡ root_link self.now.shape self.now.words }
        ensures root { HasRoot self.now.shape self.now.words }
        ensures range { root_end self.now.shape self.now.words < 2 ^ 32 }
    {
        self.keeps();
        let root = self.shape().root() as usize;
        self.word(root + LINK_WORD) as usize
    }

    // The row of the root's child of a place.
    fn row(&self, place: usize) -> Row
        requires { place < root_count self.now.shape self.now.words }
        ensures { result ≡ row_at self.now.shape self.now.words place }
    {
        let at = self.root_link() + HEADER_WORDS + NODE_WORDS * place;
        let tally = self.word(at + TALLY_WORD);
        Row {
            cell: Cell::numbered(cell_of(self.word(at))),
            visits: visits_of(tally),
            wins: wins_of(tally),
        }
    }
}

impl Closed {
    // Whether the child of the first place is to be preferred to that of the second: it has more
    // visits, or as many and a lower cell.
    fn is_better(&self, first: usize, second: usize) -> bool
        requires first { first < root_count self.now.shape self.now.words }
        requires second { second < root_count self.now.shape self.now.words }
        ensures { let a = row_at self.now.shape self.now.words first in
            let b = row_at self.now.shape self.now.words second in IsTrue result ↔ Beats a b }
    {
        let a = self.row(first);
        let b = self.row(second);
        b.visits < a.visits || (a.visits == b.visits && a.cell.number() < b.cell.number())
    }
}

/// The root's child with most visits, and of those with as many the one with the least cell.
pub fn best(closed: &Closed) -> Cell
    ensures { IsBest closed.now.shape closed.now.words result }
{
    let mut best = 0;
    for place in 1..closed.root_count() {
        if closed.is_better(place, best) {
            best = place;
        }
    }
    closed.row(best).cell
}

/// One row for each child of the root, in rising order of cells.
pub fn report(alloc: Global, closed: &Closed) -> Result<Vec<Row>, Memory>
    ensures rows { IfOk result (λ rows. rows.items ≡ rows_of closed.now.shape closed.now.words) }
    ensures rising { IfOk result (λ rows. Rise rows.items) }
{
    let count = closed.root_count();
    let Ok(mut rows) = Vec::with_capacity(alloc, count) else {
        return Err(Memory);
    };
    for place in 0..count {
        let Ok(()) = rows.push(closed.row(place)) else {
            return Err(Memory);
        };
    }
    Ok(rows)
}

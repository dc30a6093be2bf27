//! What a look-ahead tells of each cell, and the cell that it chooses by this.

ghost use Rattle.std.specs.Prelude.{◌≡◌, ◌++◌, ◌∷◌, [], ◌<◌, ◌≤◌, ℕ, IfOk, OnOk, All, true, length};
ghost use Rattle.std.specs.List.{filter};
ghost use Rattle.hex_cells.specs.Sets.{has};
ghost use Rattle.look_ahead.specs.Looked.{IsBestCell, IsLinedRow, IsLookOf, IsTrueRow, set_cells};
ghost use Rattle.look_ahead.specs.Looked.{cells_of_rows, rank_of};

use super::nodes::{LookNode, State};
use super::refusals::Memory;
use super::rows::{LookRow, Looked, Outcome, rank_of};
use super::searches::{Look, Root};
use super::showing::shown;
use super::values::{fresh_value, in_thousandths, turned};
use hex_board::Board;
use hex_cells::{Cell, CellSet, Colour, MOST_CELLS};
use std::alloc::Global;

// What the search holds of a cell.
#[derive(Clone, Copy)]
struct Found {
    nodes: u32,
    value: u32,
    // Who it takes to win after a stone there, if it does.
    taken: Option<Outcome>,
}

impl Look {
    /// What is told of these cells after the walks, if so many nodes were judged.
    pub(super) fn told(
        &self,
        alloc: Global,
        root: &Root<'_>,
        must: CellSet,
        nodes: u32,
    ) -> Result<Looked, Memory>
        requires some { (k : ℕ) × (has must k ≡ true) }
        requires root { 1 ≤ nodes }
        ensures { IfOk result (IsLookOf root.now.board.now root.now.colour must nodes) }
    {
        must.keeps();
        let rows = self.rows(alloc, root.board, root.colour, must)?;
        let cell = self.best_of(&rows);
        Ok(Looked::of(cell, nodes, rows))
    }

    // A row for each of these cells, in rising order.
    fn rows(
        &self,
        alloc: Global,
        board: &Board,
        colour: Colour,
        must: CellSet,
    ) -> Result<Vec<LookRow>, Memory>
        ensures cells { IfOk result (λ rows. cells_of_rows rows.items ≡ set_cells must) }
        ensures known { IfOk result (λ rows. All (IsTrueRow board.now colour) rows.items) }
        ensures lines { IfOk result (λ rows. All (IsLinedRow board.now) rows.items) }
    {
        let mut rows = Vec::with_capacity(alloc, must.count() as usize)?;
        'cells: for number in 0..MOST_CELLS {
            let cell = Cell::numbered(number);
            self.add_row(alloc, board, colour, must, cell, &mut rows)?;
        }
        Ok(rows)
    }

    // Adds the row of the cell, if it is one of these.
    fn add_row(
        &self,
        alloc: Global,
        board: &Board,
        colour: Colour,
        must: CellSet,
        cell: Cell,
        rows: &mut Vec<LookRow>,
    ) -> Result<(), Memory>
        ensures cells { OnOk result (cells_of_rows rows.new.items
            ≡ cells_of_rows rows.old.items ++ filter (has must) (cell ∷ [])) }
        ensures known { OnOk result (All (IsTrueRow board.now colour) rows.old.items
            → All (IsTrueRow board.now colour) rows.new.items) }
        ensures lines { OnOk result (All (IsLinedRow board.now) rows.old.items
            → All (IsLinedRow board.now) rows.new.items) }
    {
        if must.has(cell) {
            let row = self.row_of(alloc, board, colour, cell)?;
            rows.push(row)?;
        }
        Ok(())
    }

    // The row of a cell. Who wins after a stone there is known if H-search shows it.
    fn row_of(
        &self,
        alloc: Global,
        board: &Board,
        colour: Colour,
        cell: Cell,
    ) -> Result<LookRow, Memory>
        ensures cell { IfOk result (λ row. row.cell ≡ cell) }
        ensures known { IfOk result (IsTrueRow board.now colour) }
        ensures line { IfOk result (IsLinedRow board.now) }
    {
        let found = self.found_of(cell);
        let known = match found.taken {
            None => None,
            Some(outcome) => shown(alloc, board, colour, cell, outcome)?,
        };
        let line = self.line_of(alloc, board, cell)?;
        Ok(LookRow {
            cell,
            nodes: found.nodes,
            value: found.value,
            known,
            line,
        })
    }

    // What the search holds of a cell.
    fn found_of(&self, cell: Cell) -> Found {
        let mean = match self.nodes.first() {
            Some(root) => root.mean(),
            None => 0,
        };
        let fresh = Found {
            nodes: 0,
            value: open_value(fresh_value(mean)),
            taken: None,
        };
        let Some(kid) = self.kid_at(0, cell) else {
            return fresh;
        };
        match self.nodes.get(kid.node as usize) {
            Some(node) => found_by(node),
            None => fresh,
        }
    }

    // The prior of the root's kid on the cell.
    fn prior_at(&self, cell: Cell) -> u32 {
        match self.kid_at(0, cell) {
            Some(kid) => kid.prior,
            None => 0,
        }
    }

    // The cell of a row of the highest rank, and of several such ones that with the greatest prior.
    fn best_of(&self, rows: &[LookRow]) -> Cell
        requires { 0 < length rows.now }
        ensures { IsBestCell rows.now result }
    {
        let mut best = &rows[0];
        let mut top = rank_of(best);
        let mut prior = self.prior_at(best.cell);
        'rows: for place in 0..rows.len() {
            let row = &rows[place];
            let rank = rank_of(row);
            let own = self.prior_at(row.cell);
            if top < rank || top == rank && prior < own {
                best = row;
                top = rank;
                prior = own;
            }
        }
        best.cell
    }
}

// What the search holds of a cell after which the other player, who moves next, has this node.
fn found_by(node: &LookNode) -> Found {
    let nodes = node.visits.min(u64::from(u32::MAX)) as u32;
    match node.state {
        State::Open => Found {
            nodes,
            value: open_value(turned(node.mean())),
            taken: None,
        },
        State::Won => Found {
            nodes,
            value: 0,
            taken: Some(Outcome::Lost),
        },
        State::Lost => Found {
            nodes,
            value: 1000,
            taken: Some(Outcome::Won),
        },
    }
}

// The value of a cell that is taken for neither won nor lost, in thousandths.
fn open_value(value: u64) -> u32 {
    in_thousandths(value).max(1).min(999)
}

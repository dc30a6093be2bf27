//! In which scope each line is written: a line of which several scopes take the entry, in the
//! stones that these have in common, and one that nothing takes, not at all.

use super::layouts::{Row, Rows};
use hex_cells::CellSet;
use std::alloc::{AllocError, Global};

/// For each line the player's stones in the scope where it is written, if it is.
#[derive(Drop)]
pub(crate) struct Scopes {
    stones: Vec<Option<CellSet>>,
}

impl Scopes {
    /// The scopes of lines, what is claimed with these stones. A line takes others that come before
    /// it, in its own scope or, by a stone, in that with the stone more: so each is reached from
    /// those that take it, back to front, and lies in a part of the scope that it came from.
    pub(crate) fn of(alloc: Global, rows: &Rows, root: CellSet) -> Result<Scopes, AllocError> {
        let stones = vec![in alloc; None; rows.list.len()]?;
        let mut scopes = Scopes { stones };
        scopes.take(&rows.list, rows.claim, root);
        for (place, row) in rows.list.iter().enumerate().rev() {
            scopes.take_those_of(&rows.list, place, row);
        }
        Ok(scopes)
    }

    // Says of what a line takes, if it is written, in which scope it does.
    fn take_those_of(&mut self, rows: &[Row], place: usize, row: &Row) {
        if let Some(stones) = self.at(place) {
            let stones = row.taking(stones);
            for taken in row.takes.iter() {
                self.take(rows, *taken, stones);
            }
        }
    }

    // Says of a line that it is taken in the scope with these stones.
    fn take(&mut self, rows: &[Row], place: usize, stones: CellSet) {
        if let Some(row) = rows.get(place)
            && let Some(old) = self.stones.get_mut(place)
        {
            *old = Some(old.unwrap_or(row.stones).meet(stones));
        }
    }

    /// The stones of the line at a place, if it is written.
    pub(crate) fn at(&self, place: usize) -> Option<CellSet> {
        *self.stones.get(place)?
    }
}

//! `put`, `done`, `move` and `cases`: lines that speak of the scope.

ghost use Rattle.win_cert.specs.declared.lines.Line.{Line};
ghost use Rattle.cert_check.specs.Keeping.{AllowsLine, DerivesLine};

use super::checkers::Checker;
use super::given::Given;
use conn_store::Kind;
use hex_cells::{Cell, CellSet};
use win_cert::Reason;

impl Checker {
    /// `put`.
    pub fn put(&self, cells: CellSet) -> Result<(), Reason>
        ensures { AllowsLine self.now (Line.Put cells) result }
    {
        cells.keeps();
        if cells.inside(self.base.empties()) {
            Ok(())
        } else {
            Err(Reason::BadStone)
        }
    }

    /// `done`.
    pub fn done(&self) -> Result<Given, Reason>
        ensures { DerivesLine self.now Line.Done result }
    {
        // If the player is joined, both edges are in element 0.
        if self.elements.edge(true) == 0 {
            Ok(self.of_edges(Kind::Full, CellSet::none()))
        } else {
            Err(Reason::NotJoined)
        }
    }

    /// `move`.
    pub fn after_move(&self, cell: Cell, i: u32) -> Result<Given, Reason>
        ensures { DerivesLine self.now (Line.Move cell i) result }
    {
        let numbers = [i];
        if !self.takes_all(&numbers, Kind::Full, false) {
            return Err(Reason::BadReference);
        }
        if !self.board.empties().has(cell) {
            return Err(Reason::BadStone);
        }
        if !self.are_in_scope(&numbers, self.scope.with(cell)) {
            return Err(Reason::WrongScope);
        }
        if !self.are_of_edges(&numbers) {
            return Err(Reason::NotEdges);
        }
        match self.entry(i) {
            Some(given) => Ok(self.of_edges(Kind::Semi, given.carrier.with(cell))),
            None => Err(Reason::BadReference),
        }
    }

    /// `cases`.
    pub fn cases(&self, numbers: &[u32]) -> Result<Given, Reason>
        ensures { DerivesLine self.now (Line.Cases numbers.now) result }
    {
        if !self.takes_all(numbers, Kind::Semi, false) {
            return Err(Reason::BadReference);
        }
        if !self.are_in_scope(numbers, self.scope) {
            return Err(Reason::WrongScope);
        }
        if self.shares_cell(numbers) {
            return Err(Reason::CommonCell);
        }
        if !self.are_of_edges(numbers) {
            return Err(Reason::NotEdges);
        }
        Ok(self.of_edges(Kind::Full, self.carriers(numbers)))
    }
}

//! `and`, `key` and `or`: lines over entries of the scope.

ghost use Rattle.std.specs.Prelude.{◌≡◌, ℕ, ◌<◌, ◌≤◌, ◌||◌, ◌∷◌, List, length};
ghost use Rattle.hex_board.specs.Elements.{element_count};
ghost use Rattle.win_cert.specs.Entries.{elements_at};
ghost use Rattle.win_cert.specs.Statements.{is_cell_in};
ghost use Rattle.win_cert.specs.declared.lines.Line.{Line};
ghost use Rattle.win_cert.specs.declared.lines.TheConstants.{LEAST_MANY};
ghost use Rattle.cert_check.specs.Keeping.{AreBothNamed, DerivesLine, IsOrOf, chain_line};

use super::checkers::Checker;
use super::given::Given;
use conn_store::Kind;
use hex_cells::CellSet;
use win_cert::Reason;

impl Checker {
    /// `and`, or `key` if the middle is to be a cell.
    pub fn chain(&self, i: u32, j: u32, over_cell: bool) -> Result<Given, Reason>
        ensures { DerivesLine self.now (chain_line over_cell i j) result }
    {
        let numbers = [i, j];
        if !self.takes_all(&numbers, Kind::Full, true) {
            return Err(Reason::BadReference);
        }
        if !self.are_in_scope(&numbers, self.scope) {
            return Err(Reason::WrongScope);
        }
        let Some(a) = self.entry(i) else {
            return Err(Reason::BadReference);
        };
        let Some(b) = self.entry(j) else {
            return Err(Reason::BadReference);
        };
        self.join(i, j, over_cell, &a, &b)
    }

    // `and` or `key` of two full entries of the scope, each of two elements.
    fn join(&self, i: u32, j: u32, over_cell: bool, a: &Given, b: &Given) -> Result<Given, Reason>
        requires named { AreBothNamed self.now over_cell i j a.now b.now }
        ensures { DerivesLine self.now (chain_line over_cell i j) result }
    {
        let Some(middle) = a.middle(b) else {
            return Err(Reason::NoCommonMiddle);
        };
        if self.shares_cell(&[i, j]) {
            return Err(Reason::CarriersMeet);
        }
        let (x, y) = (a.other_end(middle), b.other_end(middle));
        if self.is_either_in(x, b.carrier, y, a.carrier) {
            return Err(Reason::EndInCarrier);
        }
        let cells = a.carrier.union(b.carrier);
        match self.elements.cell(middle) {
            Some(cell) => {
                if over_cell {
                    Ok(self.between(Kind::Semi, x, y, cells.with(cell)))
                } else {
                    Err(Reason::MiddleKind)
                }
            }
            None => {
                if over_cell {
                    Err(Reason::MiddleKind)
                } else {
                    Ok(self.between(Kind::Full, x, y, cells))
                }
            }
        }
    }

    // Whether element x is an empty cell in a, or y one in b.
    fn is_either_in(&self, x: u8, a: CellSet, y: u8, b: CellSet) -> bool
        requires x { x < element_count (elements_at self.now) }
        requires y { y < element_count (elements_at self.now) }
        ensures { result ≡ (is_cell_in (elements_at self.now) x a
            || is_cell_in (elements_at self.now) y b) }
    {
        self.is_cell_in(x, a) || self.is_cell_in(y, b)
    }

    // Whether an element is an empty cell in the set.
    fn is_cell_in(&self, element: u8, cells: CellSet) -> bool
        requires { element < element_count (elements_at self.now) }
        ensures { result ≡ is_cell_in (elements_at self.now) element cells }
    {
        match self.elements.cell(element) {
            Some(cell) => cells.has(cell),
            None => false,
        }
    }

    /// `or`: semi entries of the same elements.
    pub fn either(&self, first: u32, numbers: &[u32]) -> Result<Given, Reason>
        requires { (rest : List ℕ) × (numbers.now ≡ first ∷ rest) }
        ensures { (line : Line) → IsOrOf line numbers.now → DerivesLine self.now line result }
    {
        if !self.takes_all(numbers, Kind::Semi, true) {
            return Err(Reason::BadReference);
        }
        if !self.are_in_scope(numbers, self.scope) {
            return Err(Reason::WrongScope);
        }
        let Some(a) = self.entry(first) else {
            return Err(Reason::BadReference);
        };
        if !self.have_ends_of(&a, numbers) {
            return Err(Reason::EndsDiffer);
        }
        if self.shares_cell(numbers) {
            return Err(Reason::CommonCell);
        }
        Ok(self.between(Kind::Full, a.x, a.y, self.carriers(numbers)))
    }

    /// `or` of four or more.
    pub fn either_of(&self, numbers: &[u32]) -> Result<Given, Reason>
        requires { LEAST_MANY ≤ length numbers.now }
        ensures { DerivesLine self.now (Line.OrMany numbers.now) result }
    {
        self.either(numbers[0], numbers)
    }
}

//! What each line gives, or the first reason against it: `adj` and the claim here, the other forms
//! in files of their own.

ghost use Rattle.std.specs.Prelude.{◌≡◌, ℕ, ◌<◌, ◌↔◌, true, None, IfSome};
ghost use Rattle.hex_board.specs.Elements.{element_count};
ghost use Rattle.win_cert.specs.Entries.{elements_at, edge_entry, end_element, entry_between};
ghost use Rattle.win_cert.specs.Statements.{is_other_stone};
ghost use Rattle.win_cert.specs.Writable.{IsEndOn, IsLineOf};
ghost use Rattle.win_cert.specs.declared.lines.Line.{Line};
ghost use Rattle.cert_check.specs.Keeping.{DerivesLine, IsGivenOn, ReadsClaim, ReadsLine, entry_of};

use super::checkers::Checker;
use super::given::Given;
use conn_store::Kind;
use hex_cells::CellSet;
use win_cert::{End, Line, Reason};

impl Checker {
    /// What a derivation line gives, or the first reason against it.
    pub fn read(&self, line: &Line) -> Result<Option<Given>, Reason>
        requires line { (version : ℕ) × IsLineOf version self.now.base.board.size line.now }
        ensures { ReadsLine self.now line.now result }
    {
        let given = match line {
            Line::Adj(x, y) => self.adj(*x, *y)?,
            Line::And(i, j) => self.chain(*i, *j, false)?,
            Line::Key(i, j) => self.chain(*i, *j, true)?,
            Line::Or2(i, j) => self.either(*i, &[*i, *j])?,
            Line::Or3(i, j, k) => self.either(*i, &[*i, *j, *k])?,
            Line::OrMany(numbers) => self.either_of(numbers.as_slice())?,
            Line::Put(cells) => {
                self.put(*cells)?;
                return Ok(None);
            }
            Line::Done => self.done()?,
            Line::Move(cell, i) => self.after_move(*cell, *i)?,
            Line::Cases(numbers) => self.cases(numbers.as_slice())?,
            Line::Lift(i) => return self.lift(*i),
        };
        Ok(Some(given))
    }

    /// The entry of two elements in the scope.
    pub fn between(&self, kind: Kind, a: u8, b: u8, carrier: CellSet) -> Given
        requires a { a < element_count (elements_at self.now) }
        requires b { b < element_count (elements_at self.now) }
        ensures value { entry_of result ≡ entry_between self.now kind a b carrier }
        ensures given { IsGivenOn self.now.base result }
    {
        let (x, y) = (a.min(b), a.max(b));
        Given {
            kind,
            x,
            y,
            carrier,
            scope: self.scope,
            of_edges: x == self.elements.edge(false) && y == self.elements.edge(true),
        }
    }

    /// The entry of the player's edges in the scope.
    pub fn of_edges(&self, kind: Kind, carrier: CellSet) -> Given
        ensures value { entry_of result ≡ edge_entry self.now kind carrier }
        ensures given { IsGivenOn self.now.base result }
    {
        let (first, second) = (self.elements.edge(false), self.elements.edge(true));
        self.between(kind, first, second, carrier)
    }

    /// The element that an end names; `None` exactly for a stone of the opponent.
    pub fn element(&self, end: End) -> Option<u8>
        requires { IsEndOn self.now.base.board.size end }
        ensures value { result ≡ end_element (elements_at self.now) end }
        ensures range { IfSome result (λ x. x < element_count (elements_at self.now)) }
        ensures other { (result ≡ None) ↔ (is_other_stone (elements_at self.now) end ≡ true) }
    {
        match end {
            End::At(cell) => self.elements.of(cell),
            End::First => Some(self.elements.edge(false)),
            End::Second => Some(self.elements.edge(true)),
        }
    }

    // `adj`.
    fn adj(&self, x: End, y: End) -> Result<Given, Reason>
        requires x { IsEndOn self.now.base.board.size x }
        requires y { IsEndOn self.now.base.board.size y }
        ensures { DerivesLine self.now (Line.Adj x y) result }
    {
        let Some(a) = self.element(x) else {
            return Err(Reason::WrongColour);
        };
        let Some(b) = self.element(y) else {
            return Err(Reason::WrongColour);
        };
        if !self.elements.near(a, b) {
            return Err(Reason::NotNeighbours);
        }
        Ok(self.between(Kind::Full, a, b, CellSet::none()))
    }

    /// The entry that the claim names, or the first reason against it.
    pub fn claimed(&self, kind: Kind, i: u32) -> Result<Given, Reason>
        ensures { ReadsClaim self.now kind i result }
    {
        let numbers = [i];
        if !self.takes_all(&numbers, kind, false) {
            return Err(Reason::BadReference);
        }
        if !self.are_in_scope(&numbers, CellSet::none()) {
            return Err(Reason::WrongScope);
        }
        if !self.are_of_edges(&numbers) {
            return Err(Reason::NotEdges);
        }
        match self.entry(i) {
            Some(given) => Ok(given),
            None => Err(Reason::BadReference),
        }
    }
}

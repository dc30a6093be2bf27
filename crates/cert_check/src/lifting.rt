//! `lift`: an entry of a part of the scope.

ghost use Rattle.std.specs.Prelude.{◌≡◌, ℕ, ◌<◌, true, IfSome};
ghost use Rattle.hex_cells.specs.Sets.{has};
ghost use Rattle.hex_board.specs.Elements.{element_count};
ghost use Rattle.hex_board.specs.Positions.{Within, stones_of};
ghost use Rattle.win_cert.specs.Entries.{element_on, elements_at, end_for};
ghost use Rattle.win_cert.specs.Scopes.{elements_in};
ghost use Rattle.win_cert.specs.Writable.{IsEndOn};
ghost use Rattle.win_cert.specs.declared.lines.Line.{Line};
ghost use Rattle.cert_check.specs.Keeping.{ReadsLine};

use super::checkers::{Checker, with_stones};
use super::given::Given;
use hex_board::Elements;
use hex_cells::CellSet;
use win_cert::{End, Reason};

impl Checker {
    /// `lift`. (Each element of an entry that was given is held by one of the scope's board, but
    /// this is proved of no line: if there were none, the line would give nothing.)
    //
    // The elements of the entry's scope are numbered anew: see `number_elements`.
    #[inline(never)]
    pub fn lift(&self, i: u32) -> Result<Option<Given>, Reason>
        ensures { ReadsLine self.now (Line.Lift i) result }
    {
        let Some(given) = self.entry(i) else {
            return Err(Reason::BadReference);
        };
        if !given.scope.inside(self.scope) {
            return Err(Reason::WrongScope);
        }
        let elements = self.elements_in(given.scope);
        let Some(x) = self.holder(&elements, given.x) else {
            return Ok(None);
        };
        let Some(y) = self.holder(&elements, given.y) else {
            return Ok(None);
        };
        let carrier = given.carrier.minus(self.scope);
        Ok(Some(self.between(given.kind, x, y, carrier)))
    }

    // The player's elements on the board of a part of the scope.
    fn elements_in(&self, cells: CellSet) -> Elements
        requires { (k : ℕ) → has cells k ≡ true → has self.now.scope k ≡ true }
        ensures value { result ≡ elements_in self.now.base cells }
        ensures own { Within result.board.size (stones_of result.board result.player) }
    {
        let board = with_stones(&self.base, self.player, cells);
        // The player's stones lie on the board.
        let _stones = board.stones(self.player);
        board.elements(self.player)
    }

    // The element of the scope's board that holds one of another board of its size.
    fn holder(&self, from: &Elements, element: u8) -> Option<u8>
        requires below { element < element_count from.now }
        requires own { Within from.now.board.size (stones_of from.now.board from.now.player) }
        requires size { from.now.board.size ≡ self.now.base.board.size }
        ensures value { result ≡ element_on (elements_at self.now) from.now element }
        ensures range { IfSome result (λ x. x < element_count (elements_at self.now)) }
    {
        self.element(end_for(from, element)?)
    }
}

// An end that names an element: an edge that it holds, or else its least cell.
fn end_for(elements: &Elements, element: u8) -> Option<End>
    requires below { element < element_count elements.now }
    requires own { Within elements.now.board.size
        (stones_of elements.now.board elements.now.player) }
    ensures value { result ≡ end_for elements.now element }
    ensures on_board { IfSome result (IsEndOn elements.now.board.size) }
{
    if element == elements.edge(false) {
        return Some(End::First);
    }
    if element == elements.edge(true) {
        return Some(End::Second);
    }
    match elements.cells(element).least() {
        Some(cell) => Some(End::At(cell)),
        None => None,
    }
}

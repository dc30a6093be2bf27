//! The checker between two lines: what the lines before gave, and the scope.

ghost use Rattle.std.specs.Prelude.{◌≡◌, ℕ, [], true, IfOk, IfSome, Ok};
ghost use Rattle.std.specs.Option.{option_map};
ghost use Rattle.hex_cells.specs.Sets.{has};
ghost use Rattle.hex_board.specs.Positions.{is_empty_at};
ghost use Rattle.win_cert.specs.Contexts.{context_after, first_context};
ghost use Rattle.win_cert.specs.Entries.{entry_at};
ghost use Rattle.win_cert.specs.Scopes.{with_stones};
ghost use Rattle.cert_check.specs.Keeping.{IsGivenOn, ReadsLine, entry_of};

use super::given::Given;
use super::refusals::Memory;
use hex_board::{Board, Elements};
use hex_cells::{CellSet, Colour};
use std::alloc::Global;
use std::marker::Model;
use win_cert::Line;

/// What a line is read over: the board and the player, the scope with its board and its elements,
/// and what each earlier line gave.
#[derive(Debug, Drop)]
pub(crate) struct Checker {
    pub(super) base: Board,
    pub(super) player: Colour,
    pub(super) scope: CellSet,
    // The board of the scope, and the player's elements there: numbered once for each scope.
    pub(super) board: Board,
    pub(super) elements: Elements,
    pub(super) given: Vec<Option<Given>>,
}

impl Model for Checker {
    ghost use Rattle.std.specs.Prelude.{map};
    ghost use Rattle.std.specs.Option.{option_map};
    ghost use Rattle.win_cert.specs.Entries.{Context};
    ghost use Rattle.cert_check.specs.Keeping.{IsChecker, entry_of};

    ghost Value = { Context };

    ghost view = { λ k. record {
      base = record { board = k.base; player = k.player };
      scope = k.scope;
      earlier = map (option_map entry_of) k.given.items;
    } };

    ghost invariant = { λ k. IsChecker
        (record { board = k.base; player = k.player }) k.scope k.board k.elements k.given.items };
}

impl Checker {
    /// A checker of a player's certificate on a board, before its first line, with room for what
    /// so many lines give.
    pub fn new(alloc: Global, base: &Board, player: Colour, room: usize) -> Result<Checker, Memory>
        ensures { IfOk result (λ k. k ≡ first_context base.now player) }
    {
        Ok(Checker {
            base: *base,
            player,
            scope: CellSet::none(),
            board: *base,
            elements: base.elements(player),
            given: Vec::with_capacity(alloc, room)?,
        })
    }

    /// Keeps what a line gave against which there is no reason, and sets the scope at `put`.
    pub fn keep(&mut self, line: &Line, given: Option<Given>) -> Result<(), Memory>
        requires { ReadsLine self.old line.now (Ok given) }
        ensures { IfOk result (λ done. self.new ≡ context_after self.old line.now) }
    {
        match self.given.push(given) {
            Ok(()) => (),
            Err(_refused) => return Err(Memory),
        }
        if let Line::Put(cells) = line {
            cells.keeps();
            self.scope = *cells;
            self.board = with_stones(&self.base, self.player, *cells);
            number_elements(&mut self.elements, &self.board, self.player);
        }
        Ok(())
    }

    /// The entry with this number, if it is that of an earlier line that gave one.
    pub fn entry(&self, number: u32) -> Option<Given>
        ensures value { option_map entry_of result ≡ entry_at self.now number }
        ensures given { IfSome result (IsGivenOn self.now.base) }
    {
        match self.given.get(number as usize) {
            Some(given) => *given,
            None => None,
        }
    }
}

// Numbers the player's elements on the board anew.
//
// Few lines are a `put`, and a function pays at entry for the size of its locals: so the new
// elements are a local here, and not in the function that keeps each line.
#[inline(never)]
fn number_elements(elements: &mut Elements, board: &Board, player: Colour)
    ensures { elements.new ≡ record { board = board.now; player = player } }
{
    *elements = board.elements(player);
}

/// The board with the player's stones on these empty cells too.
pub(super) fn with_stones(base: &Board, player: Colour, cells: CellSet) -> Board
    requires { (k : ℕ) → has cells k ≡ true → is_empty_at base.now k ≡ true }
    ensures { result ≡ with_stones base.now player cells }
{
    let (black, white) = (base.stones(Colour::Black), base.stones(Colour::White));
    match player {
        Colour::Black => Board::of(base.size(), black.union(cells), white),
        Colour::White => Board::of(base.size(), black, white.union(cells)),
    }
}

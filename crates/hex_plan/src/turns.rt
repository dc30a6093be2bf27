//! Turns.

ghost use Rattle.std.specs.Prelude.{◌≡◌, ◌*◌, ◌<◌, true, IfSome, option_map};
ghost use Rattle.std.specs.Option.{ForSome};
ghost use Rattle.hex_board.specs.Positions.{is_empty_at};
ghost use Rattle.tree_words.specs.Closing.{IsClosed};
ghost use Rattle.tree_words.specs.Roots.{IsBest};
ghost use Rattle.tree_words.specs.Settings.{IsSetting};
ghost use Rattle.hex_plan.specs.Good.{IsGoodAsPlanned, IsGoodAsSearched};
ghost use Rattle.hex_plan.specs.Plans.{IsPlanned, IsWin, IsWinBy};
ghost use Rattle.hex_plan.specs.Turns.{CanBeWritten, DecidesBy, IsSearchedBy, certificate_of};
ghost use Rattle.hex_plan.specs.Turns.{turn_of_search, turn_of_win};
ghost use Rattle.hex_plan.specs.declared.settings.Means.{Means};

use super::plans::Planned;
use super::types::Plan;
use hex_board::Board;
use hex_cells::{Cell, Colour};
use look_ahead::Looked;
use std::marker::Model;
use tree_words::{Closed, best};

/// A turn: the board, the player to move there, the turn's number, what was planned, what the look-
/// ahead found, if there was one, the closed tree that was searched for it, if one was, and the
/// cell that was chosen. It keeps that the cell is empty, and that the plan decides it: the cell is
/// that of a win, or the best one of a tree of the turn's board and player, of the allowed cells or
/// the one of them that the look-ahead chose.
#[derive(Drop)]
pub struct Turn {
    board: Board,
    colour: Colour,
    number: u64,
    planned: Planned,
    looked: Option<Looked>,
    closed: Option<Closed>,
    cell: Cell,
}

impl Model for Turn {
    ghost use Rattle.hex_plan.specs.Turns.{TurnData, IsDecided};

    ghost Value = { TurnData };

    ghost view = { λ t. record {
      board = t.board;
      player = t.colour;
      number = t.number;
      planned = t.planned;
      looked = t.looked;
      closed = t.closed;
      cell = t.cell;
    } };

    ghost invariant = { λ t. IsDecided
        (record {
          board = t.board;
          player = t.colour;
          number = t.number;
          planned = t.planned;
          looked = t.looked;
          closed = t.closed;
          cell = t.cell;
        }) };
}

// The best cell of a closed tree.
fn decided(closed: &Closed) -> Cell
    ensures closed { IsClosed closed.now.shape closed.now.words }
    ensures best { IsBest closed.now.shape closed.now.words result }
    ensures empty { is_empty_at closed.now.shape.board result ≡ true }
{
    closed.keeps();
    best(closed)
}

// The cell of a win.
fn won_cell(plan: &Plan) -> Cell
    requires { IsWin plan.now }
    ensures { IsWinBy plan.now result }
{
    match plan {
        Plan::Win { cell, .. } => *cell,
        Plan::Search { .. } => unreachable!(),
    }
}

impl Turn {
    /// The turn with this number on the board if the plan is a win: its cell is that of the win,
    /// and it has no tree.
    pub fn won(board: &Board, colour: Colour, number: u64, planned: Planned) -> Turn
        requires win { IsWin planned.plan }
        requires planned { (means : Means) × IsPlanned board.now colour means planned }
        ensures parts { result ≡ turn_of_win board.now colour number planned result.cell }
        ensures cell { IsWinBy planned.plan result.cell }
        ensures empty { is_empty_at board.now result.cell ≡ true }
        ensures good { IsGoodAsPlanned result board.now colour planned }
    {
        board.keeps();
        let cell = won_cell(&planned.plan);
        Turn {
            board: *board,
            colour,
            number,
            planned,
            looked: None,
            closed: None,
            cell,
        }
    }

    /// The turn with this number that the tree decides after this look-ahead, if there was one, if
    /// the plan is a search and the tree's cells are those that are searched then: its board and
    /// player are those of the tree, and its cell is the tree's best.
    pub fn searched(closed: Closed, number: u64, planned: Planned, looked: Option<Looked>) -> Turn
        requires searched { IsSearchedBy planned.plan looked closed.shape.allowed }
        requires written { CanBeWritten planned.loss }
        ensures parts { result ≡ turn_of_search closed number planned looked result.cell }
        ensures best { IsBest closed.shape closed.words result.cell }
        ensures empty { is_empty_at closed.shape.board result.cell ≡ true }
        ensures good { IsGoodAsSearched result number planned looked closed }
    {
        let cell = decided(&closed);
        let shape = closed.shape();
        let board = *shape.board();
        let colour = shape.colour();
        Turn {
            board,
            colour,
            number,
            planned,
            looked,
            closed: Some(closed),
            cell,
        }
    }

    /// The board.
    pub fn board(&self) -> &Board
        ensures { result.now ≡ self.now.board }
    {
        &self.board
    }

    /// The player to move.
    pub fn colour(&self) -> Colour
        ensures { result ≡ self.now.player }
    {
        self.colour
    }

    /// The number: how many turns of the session were made before.
    pub fn number(&self) -> u64
        ensures { result ≡ self.now.number }
    {
        self.number
    }

    /// What was planned.
    pub fn planned(&self) -> &Planned
        ensures value { result.now ≡ self.now.planned }
        ensures decided { DecidesBy self.now self.now.planned.plan }
        ensures written { CanBeWritten (certificate_of result.now.plan result.now.loss) }
    {
        &self.planned
    }

    /// What the look-ahead found, if there was one and the plan is a search.
    pub fn looked(&self) -> Option<&Looked>
        ensures { option_map (λ looked. looked.now) result ≡ self.now.looked }
    {
        self.looked.as_ref()
    }

    /// The tree that was searched for the turn, if one was: one of its board and player.
    pub fn closed(&self) -> Option<&Closed>
        ensures value { option_map (λ closed. closed.now) result ≡ self.now.closed }
        ensures board { IfSome result (λ closed. closed.now.shape.board ≡ self.now.board) }
        ensures player { IfSome result (λ closed. closed.now.shape.player ≡ self.now.player) }
    {
        self.closed.as_ref()
    }

    /// The cell that was chosen, which is empty: of a turn with a tree, the least cell of those of
    /// the root's children with most visits.
    #[tactic(auto, using(hex_board::proofs::Placed::empty_on))]
    pub fn cell(&self) -> Cell
        ensures value { result ≡ self.now.cell }
        ensures on_board { result < self.now.board.size * self.now.board.size }
        ensures empty { is_empty_at self.now.board result ≡ true }
        ensures best { ForSome self.now.closed (λ closed. IsBest closed.shape closed.words result) }
    {
        self.cell
    }
}

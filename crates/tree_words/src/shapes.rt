//! The shape of a tree: what it is searched for.

ghost use Rattle.std.specs.Prelude.{◌≡◌, ◌≤◌};
ghost use Rattle.hex_board.specs.Positions.{AllEmpty};
ghost use Rattle.tree_words.specs.Areas.{IsNarrower, with_area};
ghost use Rattle.tree_words.specs.Settings.{AreInRange, IsAny, IsSetting};
ghost use Rattle.tree_words.specs.Words.{area_at, end_of, root_at};
ghost use Rattle.tree_words.specs.declared.settings.TheConstants.{LEAST_WORDS};

use super::layout::{FRONT_WORDS, RECORDS_AT};
use super::settings::Knobs;
use hex_board::Board;
use hex_cells::{CellSet, Colour};
use std::marker::Model;

/// What a tree is searched for: a board, the player to move there, the cells that he may play, and
/// the knobs.
#[derive(Clone, Copy, Debug, PartialEq, Eq)]
pub struct Shape {
    board: Board,
    colour: Colour,
    allowed: CellSet,
    knobs: Knobs,
}

impl Model for Shape {
    ghost use Rattle.tree_words.specs.Settings.{Setting, IsSetting};

    ghost Value = { Setting };

    ghost view = { λ s. record {
      board = s.board;
      player = s.colour;
      allowed = s.allowed;
      knobs = s.knobs;
    } };

    ghost inverse = { λ s. record {
      board = s.board;
      colour = s.player;
      allowed = s.allowed;
      knobs = s.knobs;
    } };

    ghost invariant = { λ s. IsSetting (record {
      board = s.board;
      player = s.colour;
      allowed = s.allowed;
      knobs = s.knobs;
    }) };
}

impl Shape {
    /// The shape with these parts. Some cell is allowed, the allowed cells lie inside the empty
    /// cells of the board, and the knobs are in their ranges.
    pub fn make(board: &Board, colour: Colour, allowed: CellSet, knobs: &Knobs) -> Shape
        requires any { IsAny allowed }
        requires empty { AllEmpty board.now allowed }
        requires ranges { AreInRange knobs.now }
        ensures { result ≡ record {
          board = board.now;
          player = colour;
          allowed = allowed;
          knobs = knobs.now;
        } }
    {
        board.keeps();
        Shape {
            board: *board,
            colour,
            allowed,
            knobs: *knobs,
        }
    }

    /// Does nothing: that the shape is a setting is known after the call.
    #[inline]
    pub fn keeps(&self)
        ensures setting { IsSetting self.now }
    {
        let _ = &self.board;
    }

    /// The board.
    pub fn board(&self) -> &Board
        ensures value { result.now ≡ self.now.board }
        ensures setting { IsSetting self.now }
    {
        &self.board
    }

    /// The player to move.
    pub fn colour(&self) -> Colour
        ensures { result ≡ self.now.player }
    {
        self.colour
    }

    /// The allowed cells.
    pub fn allowed(&self) -> CellSet
        ensures value { result ≡ self.now.allowed }
        ensures any { IsAny result }
        ensures empty { AllEmpty self.now.board result }
    {
        self.allowed
    }

    /// The knobs.
    pub fn knobs(&self) -> &Knobs
        ensures value { result.now ≡ self.now.knobs }
        ensures ranges { AreInRange result.now }
    {
        &self.knobs
    }

    /// The shape with an area of so many words, which are at most its own.
    pub fn narrowed(&self, words: u32) -> Shape
        requires least { LEAST_WORDS ≤ words }
        requires most { words ≤ self.now.knobs.words }
        ensures value { result ≡ with_area self.now words }
        ensures narrower { IsNarrower result self.now }
    {
        let knobs = Knobs {
            words,
            ..*self.knobs()
        };
        Shape::make(self.board(), self.colour(), self.allowed(), &knobs)
    }

    /// The first word of the root node, behind NEXT, TICKET and the records.
    #[inline]
    pub fn root(&self) -> u32
        ensures { result ≡ root_at self.now }
    {
        self.knobs.playouts + RECORDS_AT as u32
    }

    /// The first word of the block area, behind the root's four words.
    #[inline]
    pub fn area(&self) -> u32
        ensures { result ≡ area_at self.now }
    {
        self.knobs.playouts + FRONT_WORDS as u32
    }

    /// The number of words of the tree: one for NEXT, one for TICKET, one for each record, four for
    /// the root, and the block area's.
    pub fn total(&self) -> u32
        ensures { result ≡ end_of self.now }
    {
        self.knobs.playouts + self.knobs.words + FRONT_WORDS as u32
    }
}

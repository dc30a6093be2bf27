//! The nodes of a new block.

ghost use Rattle.std.specs.Prelude.{◌≡◌, ◌≢◌, ◌+◌, ◌<◌, [], ◌∷◌, IsTrue, ◌↔◌, slice_index};
ghost use Rattle.hex_cells.specs.declared.board_size.TheConstants.{MOST_CELLS};
ghost use Rattle.tree_words.specs.Words.{move_word};
ghost use Rattle.tree_words.specs.declared.steps.Op.{Op};
ghost use Rattle.walker.specs.NewNodes.{cells_by_number, nodes_after};

use super::PAST_WORDS;
use hex_cells::{Cell, CellSet};
use std::marker::Model;
use tree_words::Op;
use tree_words::layout::{LINK_WORD, NODE_WORDS, PLACE_UNIT, SEEN_WORD, TALLY_WORD};

/// The nodes of a new block that are still to be written, by rising place: one for each cell that
/// is left.
///
/// It is small and stands alone, so that a loop over it can keep it in a local.
#[derive(Drop)]
pub struct NewNodes {
    at: u32,
    place: u32,
    left: CellSet,
}

impl Model for NewNodes {
    ghost use Rattle.walker.specs.NewNodes.{NewNodesData, cells_by_number};

    ghost Value = { NewNodesData };

    ghost view = { λ s. record {
      at = s.at;
      place = s.place;
      cells = cells_by_number s.left;
    } };
}

impl NewNodes {
    /// The nodes for these cells, of which the first begins at `at`.
    pub(crate) fn of(at: u32, cells: CellSet) -> NewNodes
        ensures { result ≡ record {
          at = at;
          place = 0;
          cells = cells_by_number cells;
        } }
    {
        NewNodes {
            at,
            place: 0,
            left: cells,
        }
    }

    /// Whether no node is left.
    #[inline(always)]
    pub fn is_done(&self) -> bool
        ensures { IsTrue result ↔ (self.now.cells ≡ []) }
    {
        self.left.keeps();
        self.left.is_empty()
    }

    /// The four writes of the next node: its move, and its link, tally and seen word, which are 0.
    #[inline(always)]
    pub fn node_ops(&self) -> (Op, Op, Op, Op)
        requires more { self.now.cells ≢ [] }
        requires at { self.now.at < PAST_WORDS }
        ensures first { result.0 ≡ Op.Write self.now.at
            (move_word self.now.place (slice_index self.now.cells 0)) }
        ensures second { result.1 ≡ Op.Write (self.now.at + LINK_WORD) 0 }
        ensures third { result.2 ≡ Op.Write (self.now.at + TALLY_WORD) 0 }
        ensures fourth { result.3 ≡ Op.Write (self.now.at + SEEN_WORD) 0 }
    {
        let cell = least_and_rest(self.left).0.number();
        (
            Op::Write(
                self.at,
                PLACE_UNIT * u64::from(self.place) + u64::from(cell),
            ),
            Op::Write(self.at + LINK_WORD as u32, 0),
            Op::Write(self.at + TALLY_WORD as u32, 0),
            Op::Write(self.at + SEEN_WORD as u32, 0),
        )
    }

    /// Goes on after the four writes of the next node were made.
    #[inline(always)]
    pub fn got_node(&mut self)
        requires more { self.old.cells ≢ [] }
        requires at { self.old.at < PAST_WORDS }
        requires place { self.old.place < MOST_CELLS }
        ensures { self.new ≡ nodes_after self.old }
    {
        self.left = least_and_rest(self.left).1;
        self.at += NODE_WORDS as u32;
        self.place += 1;
    }

    /// The word at which the next node begins.
    pub(crate) fn at(&self) -> u32
        ensures { result ≡ self.now.at }
    {
        self.at
    }
}

// The least cell of the set, and the others.
#[inline(always)]
fn least_and_rest(cells: CellSet) -> (Cell, CellSet)
    requires { cells_by_number cells ≢ [] }
    ensures { cells_by_number cells
        ≡ result.0 ∷ cells_by_number result.1 }
{
    match cells.least() {
        Some(cell) => {
            // The cell is one of a board.
            let _number = cell.number();
            (cell, cells.without(cell))
        }
        None => unreachable!(),
    }
}

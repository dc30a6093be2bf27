//! What is added to a ledger for a position: a `put` of its scope, and the line that shows the win.
//! With a `put` before each of them, a line does not depend on what stood before it, so lines can
//! be taken back.

ghost use Rattle.std.specs.Prelude.{◌≡◌, ℕ, ◌<◌, ◌≤◌, IfOk, OnOk, length, true};
ghost use Rattle.hex_board.specs.Joined.{is_joined};
ghost use Rattle.hex_board.specs.Positions.{is_empty_at, placed, stones_of};
ghost use Rattle.hex_cells.specs.declared.board_size.TheConstants.{MOST_CELLS};
ghost use Rattle.conn_store.specs.declared.entries.Kind.{Kind};
ghost use Rattle.hex_solve.specs.Ledgers.{AnswerAll, CountsBy, GrowsBy, MayStandNext};
ghost use Rattle.hex_solve.specs.Ledgers.{ShowsWin, with_one_line};
ghost use Rattle.win_cert.specs.Showing.{Keeps, scope_of};
ghost use Rattle.win_cert.specs.declared.certs.TheConstants.{MOST_LINES};

use super::ledgers::Ledger;
use hex_board::Board;
use hex_cells::{Cell, CellSet};
use std::alloc::AllocError;
use win_cert::{Line, MOST_LINES, Numbers};

impl Ledger {
    /// Adds that the player, who is joined on the board, has won; answers the number of the line.
    pub fn add_done(&mut self, board: &Board) -> Result<u32, AllocError>
        requires keeps { Keeps self.old.base.board board.now }
        requires joined { is_joined board.now.size self.old.base.player
            (stones_of board.now self.old.base.player) ≡ true }
        ensures grows { OnOk result (GrowsBy 2 self.old self.new) }
        ensures counts { OnOk result (CountsBy 2 self.old self.new) }
        ensures shows { IfOk result (ShowsWin self.new board.now Kind.Full) }
    {
        let scope = self.scope(board);
        let number = self.lines.len() as u32 + 1;
        self.add(Line::Put(scope))?;
        self.add(Line::Done)?;
        Ok(number)
    }

    /// Adds that the player wins by a stone on the cell, if this line shows that he wins then;
    /// answers the number of the new line.
    pub fn add_move(&mut self, board: &Board, cell: Cell, line: u32) -> Result<u32, AllocError>
        requires keeps { Keeps self.old.base.board board.now }
        requires empty { is_empty_at board.now cell ≡ true }
        requires shows { ShowsWin self.old (placed board.now self.old.base.player cell)
            Kind.Full line }
        ensures grows { OnOk result (GrowsBy 2 self.old self.new) }
        ensures counts { OnOk result (CountsBy 2 self.old self.new) }
        ensures shows { IfOk result (ShowsWin self.new board.now Kind.Semi) }
    {
        let scope = self.scope(board);
        let number = self.lines.len() as u32 + 1;
        self.add(Line::Put(scope))?;
        self.add(Line::Move(cell, line))?;
        Ok(number)
    }

    /// Adds that the player wins after each stone of the other's, if these lines answer all;
    /// answers the number of the new line.
    pub fn add_cases(&mut self, board: &Board, lines: Vec<u32>) -> Result<u32, AllocError>
        requires keeps { Keeps self.old.base.board board.now }
        requires room { (k : ℕ) × (is_empty_at board.now k ≡ true) }
        requires few { length lines.items ≤ MOST_CELLS }
        requires answers { AnswerAll self.old board.now lines.items }
        ensures grows { OnOk result (GrowsBy 2 self.old self.new) }
        ensures counts { OnOk result (CountsBy 2 self.old self.new) }
        ensures shows { IfOk result (ShowsWin self.new board.now Kind.Full) }
    {
        let scope = self.scope(board);
        let number = self.lines.len() as u32 + 1;
        self.add(Line::Put(scope))?;
        self.add(Line::Cases(Numbers::of(lines)))?;
        Ok(number)
    }

    // The cells on which the player has stones on this board and had none on the first.
    fn scope(&self, board: &Board) -> CellSet
        ensures { result ≡ scope_of self.now.base board.now }
    {
        board
            .stones(self.player)
            .minus(self.base.stones(self.player))
    }

    // Adds a line that may follow, if there is room for it, and else counts it.
    fn add(&mut self, line: Line) -> Result<(), AllocError>
        requires { length self.old.lines < MOST_LINES → MayStandNext self.old line }
        ensures { OnOk result (self.new ≡ with_one_line self.old line) }
    {
        if self.lines.len() < MOST_LINES {
            self.lines.push(line)?;
        } else {
            self.lost = self.lost.saturating_add(1);
        }
        Ok(())
    }
}

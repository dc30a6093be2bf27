//! A game: a start board, the steps taken from it, and the board now.

ghost use Rattle.std.specs.Prelude.{◌≡◌, ◌<◌, ◌≤◌, [], ◌↔◌, true, false, IfOk};
ghost use Rattle.std.specs.Prelude.{OnOk, OnErr, IfErr, IsErr, vec_capacity, length, Some};
ghost use Rattle.hex_board.specs.Positions.{empty_board};
ghost use Rattle.hex_game.specs.Moves.{step_of};
ghost use Rattle.hex_game.specs.Games.{GameData, new_game, board_of, is_legal};
ghost use Rattle.hex_game.specs.Games.{refusal, with_step, without_last};
ghost use Rattle.hex_game.specs.Games.{IsOnBoard, AreLegal};

use super::moves::{MOST_STEPS, Memory, Move, NoMove, PlayError, Step};
use super::rule::{board_after, cause_against};
use hex_board::Board;
use hex_cells::{Cell, Colour, Size};
use std::alloc::Global;
use std::marker::Model;

/// A game. Contracts see its start board and its steps; the board now is their replay.
#[derive(Drop)]
pub struct Game {
    start: Board,
    board: Board,
    steps: Vec<Step>,
    /// The board before each step, for `undo`.
    before: Vec<Board>,
}

impl Model for Game {
    ghost use Rattle.std.specs.Prelude.{◌≤◌, [], vec_capacity};
    ghost use Rattle.hex_game.specs.Games.{GameData};
    ghost use Rattle.hex_game.specs.Kept.{StepsLead};
    ghost use Rattle.hex_game.specs.declared.moves.TheConstants.{MOST_STEPS};

    ghost Value = { GameData };

    ghost view = { λ g. record { start = g.start; steps = g.steps.items } };

    ghost invariant = { λ g. StepsLead g.start [] g.start g.steps.items g.before.items g.board
        × (MOST_STEPS ≤ vec_capacity g.steps) × (MOST_STEPS ≤ vec_capacity g.before) };
}

impl Game {
    /// A game without steps. It takes the room for all the steps that may come.
    pub fn make(alloc: Global, start: &Board) -> Result<Game, Memory>
        ensures { IfOk result (λ game. game ≡ new_game start.now) }
    {
        let steps = match Vec::with_capacity(alloc, MOST_STEPS) {
            Ok(steps) => steps,
            Err(_) => return Err(Memory),
        };
        let before = match Vec::with_capacity(alloc, MOST_STEPS) {
            Ok(before) => before,
            Err(_) => return Err(Memory),
        };
        Ok(Game {
            start: *start,
            board: *start,
            steps,
            before,
        })
    }

    /// Takes one more step, if it is legal. It takes no memory.
    ///
    /// `Over` comes exactly if a player is joined; otherwise `Occupied` exactly if the stone's cell
    /// holds a stone, and `BadSwap` exactly if the swap may not come.
    pub fn play(&mut self, colour: Colour, what: Move) -> Result<(), PlayError>
        requires on_board { IsOnBoard (board_of self.old) what }
        ensures ok { OnOk result
            ((is_legal self.old (step_of colour what) ≡ true)
            × (self.new ≡ with_step self.old (step_of colour what))) }
        ensures err { OnErr result
            ((is_legal self.old (step_of colour what) ≡ false) × (self.new ≡ self.old)) }
        ensures cause { IfErr result
            (λ cause. refusal self.old (step_of colour what) ≡ Some cause) }
    {
        let step = Step { colour, what };
        if let Some(cause) = cause_against(&self.start, &self.steps, &self.board, &step) {
            return Err(cause);
        }
        let board = self.board;
        let next = board_after(&board, &self.steps, &step);
        self.steps.push(step).unwrap();
        self.before.push(board).unwrap();
        self.board = next;
        Ok(())
    }

    /// Takes back the last step. `NoMove` comes exactly if there is none.
    pub fn undo(&mut self) -> Result<(), NoMove>
        ensures none { IsErr result ↔ (self.old.steps ≡ []) }
        ensures ok { OnOk result (self.new ≡ without_last self.old) }
        ensures err { OnErr result (self.new ≡ self.old) }
    {
        let Some(_) = self.steps.pop() else {
            return Err(NoMove);
        };
        if let Some(before) = self.before.pop() {
            self.board = before;
        }
        Ok(())
    }

    /// The game becomes an empty board of that size without steps.
    pub fn clear(&mut self, size: Size)
        ensures { self.new ≡ new_game (empty_board size) }
    {
        let board = Board::empty(size);
        self.start = board;
        self.board = board;
        self.steps.clear();
        self.before.clear();
    }

    /// The board before the first step.
    pub fn start(&self) -> &Board
        ensures { result.now ≡ self.now.start }
    {
        &self.start
    }

    /// The board now: the replay of the steps from the start board.
    pub fn board(&self) -> &Board
        ensures { result.now ≡ board_of self.now }
    {
        &self.board
    }

    /// The history: the steps from the start board on, the oldest first.
    pub fn steps(&self) -> &[Step]
        ensures { result.now ≡ self.now.steps }
    {
        &self.steps
    }

    /// A law of each game: each of its steps was legal when it was taken, and there are at most
    /// [`MOST_STEPS`]. It does nothing.
    pub fn steps_are_legal(&self)
        ensures legal { AreLegal self.now.start self.now.steps }
        ensures few { length self.now.steps ≤ MOST_STEPS }
    {
        // That the two sets of stones are apart bounds the steps.
        self.board.keeps();
    }
}

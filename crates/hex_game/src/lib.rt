//! Games of Hex: a start board, the steps taken from it, and the board now.
//!
//! **What it is.** A *move* is a stone on a cell, or the swap. A *step* is a move with the colour
//! that made it. A *history* is the list of steps. The *replay* of a history is the board that it
//! leads to from the start board; a step that isn't legal leaves a replay as it is. A step is legal
//! if no player is joined, and a stone's cell is empty, or the swap is White's answer to Black's
//! one stone on a board that was empty.
//!
//! **A caller** makes a [`Game`] from a board, plays and takes back, and reads the board:
//! `game.play(Colour::Black, Move::Stone(cell))`, `game.undo()`, `game.board()`.
//!
//! **What is proved.** The board of a game is the replay of its start board and steps, at every
//! moment. `play` accepts exactly the legal steps and tells why it refuses another; after a refusal
//! the game is as before. `undo` after an accepted `play` gives the game before. Each step of a
//! game was legal when it was taken, and there are at most 122. Only `make` takes memory, and a
//! game never needs more room than that.
//!
//! **What is only tested, or not said.** The derived texts of errors.
//!
//! **Limits.** A game has at most 122 steps.
//!
//! **Why so.**
//!
//! - A swap is legal only if Black's stone is the only one on the board, so the board after it is
//!   the empty one with White's stone on the mirrored cell.
//! - A game keeps the board before each step, 122 small boards, taken when it is made: so `undo`
//!   takes no work and no memory.
//! - [`Game::steps_are_legal`] does nothing; its contract is the one place that says of a game in
//!   hand that each step was legal and that there are at most 122, which the law of records needs.
#![tactic(auto)]

ghost use Rattle.std.specs.Prelude.{◌≡◌};
ghost use Rattle.hex_game.specs.Games.{GameData, board_of, after_step, with_step};
ghost use Rattle.hex_game.specs.Games.{without_last};
ghost use Rattle.hex_game.specs.declared.moves.Step.{Step};

mod history;
mod moves;
mod rule;

pub use history::Game;
pub use moves::{MOST_STEPS, Memory, Move, NoMove, PlayError, Step};

/// The law of `play` and `undo`: taking back the step that was just taken gives the game before it.
pub fn undo_takes_back()
    ensures { (game : GameData) (step : Step) → without_last (with_step game step) ≡ game }
{}

/// The law of the replay: one step more changes the board as that step does on the board before it.
pub fn replay_goes_on()
    ensures { (game : GameData) (step : Step)
        → board_of (with_step game step) ≡ after_step game.start game.steps (board_of game) step }
{}

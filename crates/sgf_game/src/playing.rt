//! Playing the turns of a record.

ghost use Rattle.std.specs.Prelude.{◌≡◌, ◌++◌, true, false, not};
ghost use Rattle.sgf_game.specs.GameOf.{GameOrMemory};
ghost use Rattle.sgf_game.specs.Turns.{is_refused_said, step_said, game_of_turns};
ghost use Rattle.sgf_game.specs.Playing.{IsSaidOn, AreSaidOn, EndsLast};

use super::error::GameError;
use super::turns::{MoveMeaning, Turn};
use hex_board::Board;
use hex_game::Game;
use std::alloc::Global;

/// Takes a turn, and answers whether it may be taken. A refused one changes nothing.
fn take_turn(game: &mut Game, turn: &Turn) -> bool
    requires { IsSaidOn game.old.start.size turn.now.said }
    ensures legal { result ≡ not (is_refused_said game.old turn.now.colour turn.now.said) }
    ensures taken { result ≡ true → game.new
        ≡ record game.old { steps = game.old.steps ++ step_said turn.now.colour turn.now.said } }
    ensures refused { result ≡ false → game.new ≡ game.old }
{
    match turn.said {
        None => false,
        Some(MoveMeaning::Ends) => true,
        Some(MoveMeaning::Plays(what)) => game.play(turn.colour, what).is_ok(),
    }
}

/// The game that the turns lead to from the start board, unless one is refused.
pub fn game_of_turns(alloc: Global, start: &Board, turns: &[Turn]) -> Result<Game, GameError>
    requires on_board { AreSaidOn start.now.size turns.now }
    requires ends_last { EndsLast turns.now }
    ensures { GameOrMemory result (game_of_turns start.now turns.now) }
{
    let mut game = match Game::make(alloc, start) {
        Ok(game) => game,
        Err(_) => return Err(GameError::Memory),
    };
    for (index, turn) in turns.iter().enumerate() {
        if !take_turn(&mut game, turn) {
            // Each turn before this one made a step, and a game has few steps.
            game.steps_are_legal();
            return Err(GameError::BadMove {
                index: index as u32,
            });
        }
    }
    Ok(game)
}

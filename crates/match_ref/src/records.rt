//! The record of a game that was played.

ghost use Rattle.std.specs.Prelude.{◌≡◌, ◌++◌, IfOk, OnOk, true};
ghost use Rattle.hex_board.specs.Positions.{empty_board};
ghost use Rattle.hex_game.specs.Games.{AreLegal, is_legal, with_step};
ghost use Rattle.match_ref.specs.MatchTexts.{record_line};
ghost use Rattle.match_ref.specs.Matches.{game_with};

use super::played::Played;
use super::refusals::Memory;
use super::settings::Match;
use hex_board::Board;
use hex_game::{Game, Step};
use sgf_game::game_text;
use std::alloc::Global;

// Takes one more step, which is legal.
fn take_step(game: &mut Game, step: &Step)
    requires { is_legal game.old step.now ≡ true }
    ensures { game.new ≡ with_step game.old step.now }
{
    game.play(step.colour, step.what).unwrap();
}

// The game on the empty board with these steps.
fn game_again(alloc: Global, setup: &Match, played: &Played) -> Result<Game, Memory>
    requires { AreLegal (empty_board setup.now.size) played.now.steps }
    ensures { IfOk result (λ game. game ≡ game_with setup.now played.now.steps) }
{
    let bare = Board::empty(setup.size);
    let mut game = Game::make(alloc, &bare)?;
    for step in played.steps.as_slice() {
        take_step(&mut game, step);
    }
    Ok(game)
}

/// Writes the record of the game, as a line.
pub fn push_record(
    alloc: Global,
    text: &mut Vec<u8>,
    setup: &Match,
    played: &Played,
) -> Result<(), Memory>
    requires { AreLegal (empty_board setup.now.size) played.now.steps }
    ensures { OnOk result
        (text.new.items ≡ text.old.items ++ record_line setup.now played.now) }
{
    let game = game_again(alloc, setup, played)?;
    let record = game_text(alloc, &game)?;
    text.extend_from_slice(record.as_slice())?;
    text.extend_from_slice(b"\n")?;
    Ok(())
}

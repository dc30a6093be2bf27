//! How a game begins: with its opening, before its sides play.

ghost use Rattle.std.specs.Prelude.{◌≡◌, ◌≤◌, IfOk, length, true};
ghost use Rattle.hex_game.specs.Games.{IsOnBoard, board_of, is_legal, with_step};
ghost use Rattle.hex_game.specs.Moves.{step_of};
ghost use Rattle.hex_game.specs.declared.moves.Move.TheVariants.{Stone};
ghost use Rattle.hex_game.specs.declared.moves.TheConstants.{MOST_STEPS};
ghost use Rattle.match_ref.specs.Matches.{IsMatch, first_side, first_steps, opened_game};
ghost use Rattle.match_ref.specs.Matches.{opening_of};

use super::refusals::Memory;
use super::settings::Match;
use hex_board::Board;
use hex_cells::{Cell, Colour};
use hex_game::{Game, Move};
use std::alloc::Global;

// The opening of the game with this number, if the match has openings. Two games after one another
// have the same one, so each side plays both colours of it.
fn opening_of(setup: &Match, number: u32) -> Option<Cell>
    ensures { result ≡ opening_of setup.now number }
{
    let cells = setup.openings.as_slice();
    if cells.is_empty() {
        return None;
    }
    Some(cells[number as usize / 2 % cells.len()])
}

/// The colour whose side moves first in the game with this number.
pub fn first_side(setup: &Match, number: u32) -> Colour
    ensures { result ≡ first_side (opening_of setup.now number) }
{
    match opening_of(setup, number) {
        None => Colour::Black,
        Some(_) => Colour::White,
    }
}

/// How many steps the game with this number has before its sides play.
pub fn opening_length(setup: &Match, number: u32) -> usize
    ensures { result ≡ length (first_steps (opening_of setup.now number)) }
{
    match opening_of(setup, number) {
        None => 0,
        Some(_) => 1,
    }
}

/// Puts the mover's stone on the cell.
pub fn put_stone(game: &mut Game, mover: Colour, cell: Cell)
    requires on_board { IsOnBoard (board_of game.old) (Stone cell) }
    requires legal { is_legal game.old (step_of mover (Stone cell)) ≡ true }
    ensures stone { game.new ≡ with_step game.old (step_of mover (Stone cell)) }
    ensures few { length game.new.steps ≤ MOST_STEPS }
{
    game.play(mover, Move::Stone(cell)).unwrap();
    game.steps_are_legal();
}

/// What the sides find of the game with this number: the empty board, with the opening's stone.
pub fn opened_game(alloc: Global, setup: &Match, number: u32) -> Result<Game, Memory>
    requires { IsMatch setup.now }
    ensures { IfOk result (λ game. game ≡ opened_game setup.now number) }
{
    let bare = Board::empty(setup.size);
    let mut game = Game::make(alloc, &bare)?;
    if let Some(cell) = opening_of(setup, number) {
        put_stone(&mut game, Colour::Black, cell);
    }
    Ok(game)
}

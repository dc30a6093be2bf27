//! One game.

ghost use Rattle.std.specs.Prelude.{◌≡◌, ◌*◌, ◌<◌, IfOk, true};
ghost use Rattle.hex_board.specs.Joined.{winner_of};
ghost use Rattle.hex_game.specs.Games.{board_of};
ghost use Rattle.hex_plan.specs.Openings.{may_move};
ghost use Rattle.tree_words.specs.Settings.{AreInRange};
ghost use Rattle.match_ref.specs.Matches.{IsMatch, IsMatchGame, IsTurnCell, is_side_a, side_knobs};
ghost use Rattle.match_ref.specs.Matches.{opening_of, side_means, side_of, turns_made};
ghost use Rattle.match_ref.specs.declared.settings.TheConstants.{MOST_GAMES};

use super::beginning::{first_side, opened_game, opening_length, put_stone};
use super::passes::GatePass;
use super::played::{Played, Steps};
use super::refusals::Memory;
use super::settings::{Match, Side};
use hex_board::Board;
use hex_cells::{Cell, Colour};
use hex_game::Game;
use hex_plan::{Means, may_move};
use search_team::OpenGate;
use std::alloc::{AllocError, Global};
use std::thread::Threads;
use tree_words::Knobs;
use turn_search::{KeptLook, decided_turn};

/// The seeds of two sides, or of one side in two games, are at least this far apart: a side makes
/// fewer than 2^8 turns, and the seeds of two turns are 2^32 apart.
const SIDE_STEP: u64 = 1 << 40;

/// Whether it is side a that plays this colour in the game with this number.
pub fn is_side_a(number: usize, player: Colour) -> bool
    ensures { result ≡ is_side_a number player }
{
    match player {
        Colour::Black => number % 2 == 0,
        Colour::White => number % 2 == 1,
    }
}

// The side that plays this colour in the game with this number.
fn side_of(setup: &Match, number: u32, player: Colour) -> Side
    ensures { result ≡ side_of setup.now number player }
{
    if is_side_a(number as usize, player) {
        setup.a
    } else {
        setup.b
    }
}

// With what this side searches, if it plays this colour in the game with this number.
fn side_knobs(setup: &Match, number: u32, player: Colour) -> Knobs
    requires setup { IsMatch setup.now }
    requires few { number < MOST_GAMES }
    ensures value { result ≡ side_knobs setup.now number player }
    ensures ranges { AreInRange result }
{
    let (side, place): (&Side, u64) = if is_side_a(number as usize, player) {
        (&setup.a, 0)
    } else {
        (&setup.b, 1)
    };
    let seed = setup
        .seed
        .wrapping_add((2 * number as u64 + place).wrapping_mul(SIDE_STEP));
    Knobs {
        workers: 1,
        playouts: side.playouts,
        seed,
        words: side.words,
        expand: side.expand,
        weight: side.weight,
    }
}

// By what means a side chooses its moves.
fn side_means(side: &Side) -> Means
    ensures { result ≡ side_means side.now }
{
    Means {
        hsearch: 0 < side.solve || 0 < side.look,
        solve: side.solve,
        look: side.look,
    }
}

// How many turns the mover made before in the game with this number: the sides take turns.
fn turns_made(setup: &Match, number: u32, game: &Game) -> u64
    ensures { result ≡ turns_made (opening_of setup.now number) game.now }
{
    let played = game
        .steps()
        .len()
        .saturating_sub(opening_length(setup, number));
    (played / 2) as u64
}

// The cell of the mover's turn after so many turns.
fn turn_cell<R: Threads + Sync>(
    rt: &R,
    alloc: Global,
    knobs: &Knobs,
    means: Means,
    board: &Board,
    mover: Colour,
    turns: u64,
) -> Result<Cell, Memory>
    requires may { may_move board.now ≡ true }
    requires ranges { AreInRange knobs.now }
    ensures turn { IfOk result (IsTurnCell knobs.now means board.now mover turns) }
    ensures on_board { IfOk result (λ cell. cell < board.now.size * board.now.size) }
{
    let mut kept = KeptLook::none();
    let turn = decided_turn(
        rt, alloc, board, mover, turns, knobs, means, &OpenGate, &mut kept,
    )?;
    Ok(turn.cell())
}

// The steps of a game, and who is joined there.
fn played(alloc: Global, game: &Game) -> Result<Played, AllocError>
    ensures steps { IfOk result (λ p. p.steps ≡ game.now.steps) }
    ensures winner { IfOk result (λ p. p.winner ≡ winner_of (board_of game.now)) }
{
    let steps = game.steps().iter().copied().collect(alloc)?;
    let winner = game.board().winner();
    Ok(Played {
        steps: Steps::of(steps),
        winner,
    })
}

/// The match game that has this pass.
pub fn play_game<R: Threads + Sync>(
    rt: &R,
    alloc: Global,
    setup: &Match,
    pass: GatePass,
) -> Result<Played, Memory>
    requires setup { IsMatch setup.now }
    requires few { pass < MOST_GAMES }
    ensures { IfOk result (IsMatchGame setup.now pass) }
{
    let number = pass.number();
    let mut game = opened_game(alloc, setup, number)?;
    let mut mover = first_side(setup, number);
    'moves: while may_move(game.board()) {
        let knobs = side_knobs(setup, number, mover);
        let means = side_means(&side_of(setup, number, mover));
        let turns = turns_made(setup, number, &game);
        let cell = turn_cell(rt, alloc, &knobs, means, game.board(), mover, turns)?;
        put_stone(&mut game, mover, cell);
        mover = mover.other();
    }
    let played = played(alloc, &game)?;
    Ok(played)
}

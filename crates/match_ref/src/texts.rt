//! The text of a match.

ghost use Rattle.std.specs.Prelude.{◌≡◌, ◌++◌, All, IfOk, OnOk};
ghost use Rattle.hex_board.specs.Positions.{empty_board};
ghost use Rattle.hex_game.specs.Games.{AreLegal};
ghost use Rattle.match_ref.specs.MatchTexts.{game_line, game_text, games_text};
ghost use Rattle.match_ref.specs.MatchTexts.{has_won, match_text, side_word, winner_words, wins_of};
ghost use Rattle.match_ref.specs.Matches.{is_side_a};

use super::played::Played;
use super::playing::is_side_a;
use super::records::push_record;
use super::refusals::Memory;
use super::words::MatchWords;
use hex_cells::{Colour, push_number};
use std::alloc::{AllocError, Global};

fn side_word(is_a: bool) -> &'static [u8]
    ensures { result.now ≡ side_word is_a }
{
    if is_a { b"a" } else { b"b" }
}

// Writes the side and the colour that won, with a space at each end.
fn push_winner(text: &mut Vec<u8>, number: usize, winner: Option<Colour>) -> Result<(), AllocError>
    ensures { OnOk result (text.new.items ≡ text.old.items ++ winner_words number winner) }
{
    let Some(player) = winner else {
        return text.extend_from_slice(b" none none ");
    };
    text.push(b' ')?;
    text.extend_from_slice(side_word(is_side_a(number, player)))?;
    text.push(b' ')?;
    text.extend_from_slice(player.word())?;
    text.push(b' ')?;
    Ok(())
}

/// The line of a game: its number, who won it, and how many steps it has. It refuses only
/// if memory runs out.
pub fn game_line(alloc: Global, number: usize, game: &Played) -> Result<Vec<u8>, AllocError>
    ensures { IfOk result (λ line. line.items ≡ game_line number game.now) }
{
    let mut line = Vec::new(alloc);
    push_number(alloc, &mut line, number as u64)?;
    push_winner(&mut line, number, game.winner)?;
    push_number(alloc, &mut line, game.steps.as_slice().len() as u64)?;
    line.push(b'\n')?;
    Ok(line)
}

// Writes the line of a game.
fn push_line(
    alloc: Global,
    text: &mut Vec<u8>,
    number: usize,
    game: &Played,
) -> Result<(), AllocError>
    ensures { OnOk result (text.new.items ≡ text.old.items ++ game_line number game.now) }
{
    let line = game_line(alloc, number, game)?;
    text.extend_from_slice(&line)
}

// Writes the line of a game, and its record if records are wanted.
fn push_game(
    alloc: Global,
    text: &mut Vec<u8>,
    asked: &MatchWords,
    number: usize,
    game: &Played,
) -> Result<(), Memory>
    requires { AreLegal (empty_board asked.now.setup.size) game.now.steps }
    ensures { OnOk result (text.new.items ≡ text.old.items ++ game_text asked.now number game.now) }
{
    push_line(alloc, text, number, game)?;
    if asked.records {
        push_record(alloc, text, &asked.setup, game)?;
    }
    Ok(())
}

// Writes the texts of the games.
fn push_games(
    alloc: Global,
    text: &mut Vec<u8>,
    asked: &MatchWords,
    games: &[Played],
) -> Result<(), Memory>
    requires { All (λ game. AreLegal (empty_board asked.now.setup.size) game.steps) games.now }
    ensures { OnOk result (text.new.items ≡ text.old.items ++ games_text asked.now 0 games.now) }
{
    for (number, game) in games.iter().enumerate() {
        push_game(alloc, text, asked, number, game)?;
    }
    Ok(())
}

// Whether this side won the game with this number.
fn has_won(is_a: bool, number: usize, winner: Option<Colour>) -> bool
    ensures { result ≡ has_won is_a number winner }
{
    match winner {
        None => false,
        Some(player) if is_a => is_side_a(number, player),
        Some(player) => !is_side_a(number, player),
    }
}

// How many of the games this side won.
fn wins_of(is_a: bool, games: &[Played]) -> usize
    ensures { result ≡ wins_of is_a 0 games.now }
{
    let mut wins = 0;
    for (number, game) in games.iter().enumerate() {
        if has_won(is_a, number, game.winner) {
            wins += 1;
        }
    }
    wins
}

/// The text of the match with these games.
pub fn match_text(alloc: Global, asked: &MatchWords, games: &[Played]) -> Result<Vec<u8>, Memory>
    requires { All (λ game. AreLegal (empty_board asked.now.setup.size) game.steps) games.now }
    ensures { IfOk result (λ text. text.items ≡ match_text asked.now games.now) }
{
    let mut text = Vec::new(alloc);
    push_games(alloc, &mut text, asked, games)?;
    text.extend_from_slice(b"a ")?;
    push_number(alloc, &mut text, wins_of(true, games) as u64)?;
    text.extend_from_slice(b" b ")?;
    push_number(alloc, &mut text, wins_of(false, games) as u64)?;
    text.extend_from_slice(b"\n")?;
    Ok(text)
}

//! What the words of a command line ask for: a match, and whether its records are wanted.

ghost use Rattle.std.specs.Prelude.{◌≡◌, ℕ, ◌↔◌, List, IfOk, IfSome, Some};
ghost use Rattle.clap.specs.Words.{first_value, found_of};
ghost use Rattle.option_words.specs.Values.{IsNumberFrom};
ghost use Rattle.match_ref.specs.Matches.{IsMatch};
ghost use Rattle.match_ref.specs.Openings.{AreOpenings};
ghost use Rattle.match_ref.specs.MatchWords.{AreMatchWords, IsSaidSide, IsSideNumber, AskFor};
ghost use Rattle.match_ref.specs.declared.settings.Side.{Side};
ghost use Rattle.match_ref.specs.declared.words.MatchWords.{MatchWords};

use super::command::command;
use super::openings::{Openings, read_openings};
use super::refusals::Memory;
use super::settings::{Match, Side};
use super::table::{
    EXPAND, GAMES, LOOK, OPENING, PLAYOUTS, RECORDS, SEED, SIZE, SOLVE, SideNumber, THREADS,
    WEIGHT, WORDS,
};
use clap::ArgMatches;
use hex_cells::Size;
use hex_io::Word;
use option_words::{find, found_long_number, found_number, small_number, switch};
use std::alloc::Global;

/// The match that is asked for, and whether its records are.
#[derive(Drop)]
pub struct MatchWords {
    /// The match.
    pub setup: Match,
    /// Whether the record of each game is wanted.
    pub records: bool,
}

/// The match that the arguments ask for; none exactly if they ask for none.
pub fn read_match_words(alloc: Global, words: &[Word]) -> Result<Option<MatchWords>, Memory>
    ensures exact { IfOk result
        (λ r. (w : MatchWords) → (r ≡ Some w) ↔ AskFor words.now w) }
    ensures ranges { IfOk result (λ r. IfSome r (λ w. IsMatch w.setup)) }
{
    let command = command(alloc)?;
    match find(command, words)? {
        Some(found) => said_match(alloc, &found),
        None => Ok(None),
    }
}

// The match that was found; none if a positional word was, or if a value is not as its option wants
// it.
fn said_match(alloc: Global, found: &ArgMatches<'_>) -> Result<Option<MatchWords>, Memory>
    ensures { IfOk result (λ r. (w : MatchWords)
        → (r ≡ Some w) ↔ AreMatchWords (first_value (found_of found.now)) w) }
{
    let Some(size) = board_size(found) else {
        return Ok(None);
    };
    let Some(openings) = found_openings(alloc, found, size)? else {
        return Ok(None);
    };
    Ok(with_openings(found, size, openings))
}

// The same, with the board's size and the openings at hand.
fn with_openings(found: &ArgMatches<'_>, size: Size, openings: Openings) -> Option<MatchWords>
    requires size { IsNumberFrom SIZE.2 SIZE.3 (first_value (found_of found.now) SIZE.0.now) size }
    requires openings { AreOpenings size (first_value (found_of found.now) OPENING.0.now) openings }
    ensures { (w : MatchWords)
        → (result ≡ Some w) ↔ AreMatchWords (first_value (found_of found.now)) w }
{
    if found.get_str("word").is_some() {
        return None;
    }
    Some(MatchWords {
        setup: Match {
            size,
            games: found_number(found, GAMES)?,
            threads: found_number(found, THREADS)?,
            seed: found_long_number(found, SEED)?,
            openings,
            a: side(found, false)?,
            b: side(found, true)?,
        },
        records: switch(found.get_str(RECORDS.0))?,
    })
}

fn board_size(found: &ArgMatches<'_>) -> Option<Size>
    ensures { (n : ℕ) → (result ≡ Some n)
        ↔ IsNumberFrom SIZE.2 SIZE.3 (first_value (found_of found.now) SIZE.0.now) n }
{
    Size::of(found_number(found, SIZE)?)
}

fn found_openings(
    alloc: Global,
    found: &ArgMatches<'_>,
    size: Size,
) -> Result<Option<Openings>, Memory>
    ensures { IfOk result (λ r. (cells : List ℕ) → (r ≡ Some cells)
        ↔ AreOpenings size (first_value (found_of found.now) OPENING.0.now) cells) }
{
    read_openings(alloc, found.get_str(OPENING.0), size)
}

// What is said of side a, or of side b.
fn side(found: &ArgMatches<'_>, is_b: bool) -> Option<Side>
    ensures { (s : Side)
        → (result ≡ Some s) ↔ IsSaidSide (first_value (found_of found.now)) is_b s }
{
    Some(Side {
        playouts: side_number(found, is_b, PLAYOUTS)?,
        words: side_number(found, is_b, WORDS)?,
        expand: side_number(found, is_b, EXPAND)?,
        weight: side_number(found, is_b, WEIGHT)?,
        solve: side_number(found, is_b, SOLVE)?,
        look: side_number(found, is_b, LOOK)?,
    })
}

// The number that is said of this option for side a, or for side b.
fn side_number(found: &ArgMatches<'_>, is_b: bool, option: SideNumber) -> Option<u32>
    ensures { (n : ℕ) → (result ≡ Some n)
        ↔ IsSideNumber (first_value (found_of found.now)) is_b option.entry n }
{
    let name = if is_b { option.1 } else { option.0 };
    small_number(found.get_str(name), option.3, option.4)
}

//! From the words of a command line to its options.

ghost use Rattle.std.specs.Prelude.{◌≡◌, ◌≢◌, ◌↔◌, IfOk, IfSome, IsTrue, Some, []};
ghost use Rattle.std.specs.Prelude.{ℕ, option_map};
ghost use Rattle.clap.specs.Words.{first_value, found_of};
ghost use Rattle.option_words.specs.Values.{IsNumberFrom};
ghost use Rattle.hexd_args.specs.Reading.{WellFormed};
ghost use Rattle.tree_words.specs.declared.settings.Knobs.{Knobs};
ghost use Rattle.hexd_args.specs.Values.{OptionsInRange, AreKnobs, AreOptions};
ghost use Rattle.hexd_args.specs.declared.settings.Options.{Options};

use crate::command::command;
use crate::modes::mode;
use crate::table::{
    BEST, BUDGET, EXPAND, HSEARCH, LOOK, PLAYOUTS, SEED, SIZE, SOLVE, STEPS, TRACE, WEIGHT, WORDS,
    WORKERS,
};
use crate::{Memory, Options};
use clap::ArgMatches;
use hex_cells::Size;
use hex_io::Word;
use option_words::{find, found_long_number, found_number, switch};
use std::alloc::Global;
use tree_words::Knobs;

/// The options that the arguments ask for; none exactly if these are not well formed.
pub fn read_words(alloc: Global, words: &[Word]) -> Result<Option<Options>, Memory>
    ensures exact { IfOk result (λ r. (o : Options) → (r ≡ Some o) ↔ WellFormed words.now o) }
    ensures ranges { IfOk result (λ r. IfSome r OptionsInRange) }
{
    let command = command(alloc)?;
    match find(command, words)? {
        Some(matches) => options_of(alloc, &matches),
        None => Ok(None),
    }
}

// The options that the matches say; none if a value is not as its option wants it.
fn options_of(alloc: Global, matches: &ArgMatches<'_>) -> Result<Option<Options>, Memory>
    ensures { IfOk result (λ r. (o : Options)
        → (r ≡ Some o) ↔ AreOptions (first_value (found_of matches.now)) o) }
{
    let name = matches.get_str(TRACE);
    if is_empty(name) {
        return Ok(None);
    }
    let trace = copied(alloc, name)?;
    Ok(with_trace(matches, trace))
}

fn is_empty(text: Option<&str>) -> bool
    ensures { IsTrue result ↔ (option_map (λ t. t.now) text.entry ≡ Some []) }
{
    match text {
        Some(text) => text.is_empty(),
        None => false,
    }
}

/// A copy of the text, as a word.
pub fn copied(alloc: Global, text: Option<&str>) -> Result<Option<Word>, Memory>
    ensures { IfOk result (λ w. w ≡ option_map (λ t. t.now) text.entry) }
{
    match text {
        Some(text) => Ok(Some(Word::of(String::from_str(alloc, text)?))),
        None => Ok(None),
    }
}

// The options; the name of the trace is at hand. The ranges are those of the table.
fn with_trace(matches: &ArgMatches<'_>, trace: Option<Word>) -> Option<Options>
    requires as_given { first_value (found_of matches.now) TRACE.now ≡ trace }
    requires named { trace ≢ Some [] }
    ensures { (o : Options)
        → (result ≡ Some o) ↔ AreOptions (first_value (found_of matches.now)) o }
{
    Some(Options {
        mode: mode(matches.get_str("word"))?,
        size: size(matches)?,
        knobs: knobs(matches)?,
        hsearch: switch(matches.get_str(HSEARCH.0))?,
        solve: found_number(matches, SOLVE)?,
        look: found_number(matches, LOOK)?,
        steps: found_number(matches, STEPS)?,
        budget: found_long_number(matches, BUDGET)?,
        best: switch(matches.get_str(BEST.0))?,
        trace,
    })
}

// The size of the first board; none if its value is not as its option wants it.
fn size(matches: &ArgMatches<'_>) -> Option<Size>
    ensures { (n : ℕ) → (result ≡ Some n)
        ↔ IsNumberFrom SIZE.2 SIZE.3 (first_value (found_of matches.now) SIZE.0.now) n }
{
    Size::of(found_number(matches, SIZE)?)
}

// The knobs of a search; none if a value is not as its option wants it.
fn knobs(matches: &ArgMatches<'_>) -> Option<Knobs>
    ensures { (k : Knobs)
        → (result ≡ Some k) ↔ AreKnobs (first_value (found_of matches.now)) k }
{
    Some(Knobs {
        workers: found_number(matches, WORKERS)?,
        playouts: found_number(matches, PLAYOUTS)?,
        seed: found_long_number(matches, SEED)?,
        words: found_number(matches, WORDS)?,
        expand: found_number(matches, EXPAND)?,
        weight: found_number(matches, WEIGHT)?,
    })
}

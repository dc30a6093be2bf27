//! What is found in words.

ghost use Rattle.std.specs.Prelude.{◌≡◌, ◌≢◌, ◌↔◌, All, Contains, IfOk, IsTrue, List, None};
ghost use Rattle.std.specs.Bool.{OnFalse};
ghost use Rattle.std.specs.Str.{IsUtf8};
ghost use Rattle.clap.specs.Words.{App, app_of, kind_of};
ghost use Rattle.option_words.specs.Command.{ReadsForm};
ghost use Rattle.option_words.specs.Finding.{FindsByForm, FindsMatches, FindsWhatIsSaid};
ghost use Rattle.option_words.specs.Finding.{FaultlessIsLine, HasNoFault};
ghost use Rattle.option_words.specs.Grammar.{Form, Saying};
ghost use Rattle.option_words.specs.Lines.{IsLine};
ghost use Rattle.option_words.specs.Values.{lone_hyphen};

use crate::Memory;
use clap::error::ErrorKind;
use clap::{ArgMatches, Command, Error};
use hex_io::Word;

/// What the arguments say by the command. If something is found, they are a line of its form, and
/// the value of each name is what the line says, or the default. If nothing is, they are no line of
/// it, or one whose positional word is a hyphen alone.
pub fn find<'a>(command: Command<'a>, words: &'a [Word]) -> Result<Option<ArgMatches<'a>>, Memory>
    ensures { IfOk result (FindsByForm (app_of command.entry) words.now) }
{
    if has_lone_hyphen(words) {
        return Ok(None);
    }
    matched(command, words)
}

/// The law that `clap` reads the grammar; it does nothing when it runs.
///
/// Of words that are text, none of them a hyphen alone, `clap` finds no fault exactly in those that
/// are a line, and the value that it then finds of a name is what the line says, or the default.
pub fn clap_reads_lines(words: &[Word])
    ensures line { (app : App) (form : Form) → ReadsForm app form
        → FaultlessIsLine app form words.now }
    ensures clear { (app : App) (form : Form) → ReadsForm app form → (said : List Saying)
        → IsLine form words.now said → HasNoFault app words.now }
    ensures values { (app : App) (form : Form) → ReadsForm app form
        → FindsWhatIsSaid app form words.now }
{
    let _words = words;
}

// Whether one of the words is a hyphen alone. In a line only the positional word may be one, but
// `clap` takes it for any value. If none is, each word is text.
fn has_lone_hyphen(words: &[Word]) -> bool
    ensures found { IsTrue result ↔ Contains words.now lone_hyphen }
    ensures text { OnFalse result (All IsUtf8 words.now) }
{
    for word in words {
        if word.as_str() == "-" {
            return true;
        }
    }
    false
}

// What `clap` finds in the words; none exactly if it finds a fault in them.
fn matched<'a>(command: Command<'a>, words: &'a [Word]) -> Result<Option<ArgMatches<'a>>, Memory>
    ensures { IfOk result (λ found. (form : Form) → ReadsForm (app_of command.entry) form
        → FindsMatches (app_of command.entry) words.now found) }
{
    match command.try_get_matches_from(words) {
        Ok(matches) => Ok(Some(matches)),
        Err(error) => none_unless_full(&error),
    }
}

// A fault of the words doesn't say that memory ran out.
fn none_unless_full<'a>(error: &Error) -> Result<Option<ArgMatches<'a>>, Memory>
    ensures { IfOk result (λ r. (r ≡ None) × (kind_of error.now ≢ ErrorKind.OutOfMemory)) }
{
    match error.kind() {
        ErrorKind::OutOfMemory => Err(Memory),
        _ => Ok(None),
    }
}

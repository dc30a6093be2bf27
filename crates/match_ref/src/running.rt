//! The top call: from the words of the command line to a status.

ghost use Rattle.std.specs.Prelude.{◌≡◌, ◌⊎◌, Err};
ghost use Rattle.hex_io.specs.Causes.{CountsFault};
ghost use Rattle.hex_devices.specs.Statuses.{Reports, status_of};
ghost use Rattle.hex_devices.specs.declared.ends.End.TheVariants.{Stopped};
ghost use Rattle.hex_devices.specs.declared.stops.Stop.TheVariants.{WriteFault, Memory};
ghost use Rattle.match_ref.specs.MatchRuns.{CompletesMatch, CountsMatchWrites, IsMatchRefusal};
ghost use Rattle.match_ref.specs.MatchRuns.{IsMatchStatus, LeavesLink, Referees, RefereesBy};
ghost use Rattle.match_ref.specs.MatchRuns.{RefereesTo, end_of_match};
ghost use Rattle.match_ref.specs.MatchWords.{AskForNone};
ghost use Rattle.match_ref.specs.Matches.{IsMatch};

use super::matches::play_match;
use super::refusals::MatchError;
use super::texts::match_text;
use super::words::{MatchWords, read_match_words};
use hex_devices::{End, Stop};
use hex_io::{Link, Word, give, report};
use search_team::Gate;
use std::alloc::Global;
use std::thread::Threads;

/// Plays the match that the arguments ask for, gives its text to the link, and answers the status.
///
/// The words are the arguments of the process after the program's name. The games are played side
/// by side in threads of `rt`, each after it passed the gate; no clause speaks of these. The text
/// has a line for each game, in order, with its record after it if records are wanted, and then how
/// many games each side won. It is given when all games were played. Nothing is read.
///
/// | status | comes | line for the errors |
/// |---|---|---|
/// | 0 | the match was played, and its text given | |
/// | 2 | only if the arguments ask for no match; nothing was given | `hexd: usage` |
/// | 4 | only if a write failed; a prefix of the text was given | |
/// | 5 | memory ran out; nothing was given | `hexd: out of memory` |
///
/// A fault of the errors changes nothing of the status. Status 5 may come in place of any other.
pub fn run_match<R: Threads + Sync, L: Link, E: Link, G: Gate + Sync>(
    rt: &R,
    alloc: Global,
    words: &[Word],
    link: &mut L,
    errors: &mut E,
    gate: &G,
) -> u8
    ensures status { IsMatchStatus result }
    ensures usage { result ≡ status_of End.Usage → AskForNone words.now }
    ensures refused { AskForNone words.now → IsMatchRefusal result }
    ensures untouched { IsMatchRefusal result → LeavesLink L.Link link.old link.new }
    ensures played { RefereesBy L.Link words.now result link.old link.new }
    ensures write_fault { CountsMatchWrites L.Link result link.old link.new }
    ensures reads { L.read_faults link.new ≡ L.read_faults link.old }
    ensures complete { CompletesMatch L.Link words.now result link.old link.new }
    ensures errors { Reports E.Link result errors.old errors.new }
{
    let end = serve(rt, alloc, words, link, gate);
    report(errors, end.line());
    end.status()
}

// Does what the words ask for, and tells how the run ended.
fn serve<R: Threads + Sync, L: Link, G: Gate + Sync>(
    rt: &R,
    alloc: Global,
    words: &[Word],
    link: &mut L,
    gate: &G,
) -> End
    ensures status { IsMatchStatus (status_of result) }
    ensures usage { result ≡ End.Usage → AskForNone words.now }
    ensures refused { AskForNone words.now → (result ≡ End.Usage) ⊎ (result ≡ Stopped Memory) }
    ensures untouched { (result ≡ End.Usage) ⊎ (result ≡ Stopped Memory)
        → L.told link.new ≡ L.told link.old }
    ensures played { RefereesTo words.now result (L.told link.old) (L.told link.new) }
    ensures write_fault { CountsFault (L.write_faults link.old) (L.write_faults link.new)
        (result ≡ Stopped WriteFault) }
    ensures reads { L.read_faults link.new ≡ L.read_faults link.old }
{
    match read_match_words(alloc, words) {
        Ok(Some(asked)) => end_of(referee(rt, alloc, &asked, link, gate)),
        Ok(None) => End::Usage,
        Err(_) => End::Stopped(Stop::Memory),
    }
}

// How a run ends whose match ended so.
fn end_of(outcome: Result<(), MatchError>) -> End
    ensures { result ≡ end_of_match outcome }
{
    match outcome {
        Ok(()) => End::Done,
        Err(MatchError::Memory) => End::Stopped(Stop::Memory),
        Err(MatchError::Write) => End::Stopped(Stop::WriteFault),
    }
}

// Plays the match, and gives its text.
fn referee<R: Threads + Sync, L: Link, G: Gate + Sync>(
    rt: &R,
    alloc: Global,
    asked: &MatchWords,
    link: &mut L,
    gate: &G,
) -> Result<(), MatchError>
    requires { IsMatch asked.now.setup }
    ensures referees { Referees result asked.now (L.told link.old) (L.told link.new) }
    ensures write_fault { CountsFault (L.write_faults link.old) (L.write_faults link.new)
        (result ≡ Err MatchError.Write) }
    ensures reads { L.read_faults link.new ≡ L.read_faults link.old }
{
    let games = play_match(rt, alloc, &asked.setup, gate)?;
    let text = match_text(alloc, asked, &games)?;
    give(link, &text)?;
    Ok(())
}

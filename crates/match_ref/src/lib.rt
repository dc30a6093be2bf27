//! Matches: many games between two settings of the search, side by side.
//!
//! **What it is.** A [`Match`] has two *sides*, each with the settings of its searches. In each
//! game they take turns from the empty board on: side a is Black in the games of even number. If
//! the match has [`Openings`], a game begins with one, a stone of Black's that no side chose, and
//! White moves next; two games after one another have the same one. A side plays with one worker,
//! and looks for connections if its `look` or `solve` is above 0. If no side does, the match and
//! its number determine a *match game*.
//!
//! **A caller** hands in the match and gets its games in order, or hands in the words of a command
//! line and gets the status:
//!
//! ```text
//! let games = play_match(rt, alloc, &setup, &OpenGate)?;
//! let status = run_match(rt, alloc, &words, &mut link, &mut errors, &OpenGate);
//! ```
//!
//! **What is proved.** The games of [`play_match`] are the match games of specs/Matches.antt, as
//! many as the match says and in order, whatever the number of threads and the schedule; each step
//! is legal; and [`match_games_are_determined`]. A game takes a pass that is had at the gate alone,
//! so it was there before its first move. [`read_match_words`] answers a match exactly if the words
//! ask for it, and the options are [the manual's](options_are_those_of_the_manual). What
//! [`run_match`] gives is the text of the match games of its words, or a prefix of it with the
//! status of a write fault, and else nothing; each status has its cause.
//!
//! **What is only tested, or not said.** That games are played side by side, and no more at once
//! than there are threads: a gate holds each of two games until the other has come, and another
//! counts how many are at it at once. That memory suffices, that more threads are faster, and which
//! side is the better one.
//!
//! **Limits.** Those of [`Match`] and [`Side`]. A thread holds one tree at a time: 8 bytes for
//! each of a side's words, its playouts and six more. If no thread can be made, games are played in
//! turn.
//!
//! **Why so.**
//!
//! - An opening is a step of the game, so that records show it, and no turn of a side: the side's
//!   seeds are those of its own moves alone, as in a session that gets the opening by `play`.
//! - A half of the games gets every other one, so that games 0 and 1 are the first of two halves in
//!   every setting. So games that take unequally long are shared out, and the test with a gate
//!   holds for any numbers of games and threads.
//! - The match game is a relation between a number and a game, as a good turn is; that it
//!   determines the game is a law of its own.
//! - What can come of a match is that its text was given, or one of two errors (`MatchError`). What
//!   the words may add to that, a usage, is said beside it: so `Referees` has a row for each end.
//! - The record of a game is made from a game that takes its steps again on the empty board. An
//!   option of the sides is one line of the table with two names. hexmatch says `hexd: usage`, so
//!   that scripts look for one line.
//! - Wrong bodies that stand as no edit, with what refuses them: sides that search with two workers
//!   (`value` of `side_knobs`); a match without its last game (`one_by_one`, by `AreGamesBy`);
//!   status 2 whatever happened (`usage`, `untouched`, `played`, `write_fault`, `complete` of
//!   [`run_match`]). No clause refuses a match on one thread, or with a thread for each game: the
//!   tests with gates do. The runtime's `join` calls nothing of the handle that it is passed, so no
//!   handle could count threads.
#![tactic(auto)]

mod beginning;
mod command;
mod halves;
mod laws;
mod matches;
mod openings;
mod passes;
mod played;
mod playing;
mod records;
mod refusals;
mod running;
mod settings;
mod table;
mod texts;
mod words;

pub use laws::{match_games_are_determined, options_are_those_of_the_manual};
pub use matches::play_match;
pub use openings::Openings;
pub use played::{Played, Steps};
pub use refusals::Memory;
pub use running::run_match;
pub use settings::{MOST_GAMES, MOST_OPENINGS, MOST_THREADS, Match, Side};
pub use texts::game_line;
pub use words::{MatchWords, read_match_words};

//! The engine: from one request to its answer.
//!
//! **What it is.** A *request* is what a line asks: a command's name and its arguments. A *reply*
//! is a success with a text, a success after which nothing more is answered, or a failure. A
//! conversation *stands* at a game, a number of turns, and the texts of the last turn. What it
//! *uses up* comes from outside: the *load* of each file that `loadsgf` asks for, and the *turn* of
//! each `genmove`. The other commands are *quiet*: they use nothing up.
//!
//! **A caller** makes an [`Engine`] on a board's size, with the options of its turns, and hands it
//! the requests one by one. `engine.answer(&request)` answers one that uses nothing up. For every
//! other one it gives the command, which is obeyed with the runtime and the gate of its searches, a
//! shelf that has the files and an archive that takes the turns: `engine.obey_with(rt, command,
//! args, &mut shelf, &mut archive, &gate)`.
//!
//! **What is proved.** The reply and what stands after it are a function of what stood before, of
//! what was used up, and of the request (specs/Requests.antt). Each load is what the shelf's fetch
//! gave: the game of which the file is a record, or a refusal exactly if it is of none
//! (specs/Uses.antt). Each turn is good: it was planned, and searched among the allowed cells if
//! its plan is no win. The archive has it before its cell is played; its answer and its texts were
//! made before, and the answer is brief. If memory ran out or the archive failed, nothing changed,
//! and one fetch at most came to nothing. A count of faults changes only with the answer that tells
//! the fault.
//!
//! **What is only tested, or not said.** That memory suffices. How strong a move is. That a win is
//! not searched: a turn with such a plan has no tree, but no clause says that none was made.
//!
//! **A new command:** docs/change/RECIPES.md, "A pure command". No proof has a table of commands.
//!
//! **Limits.** Boards of size 1 to 11, and 1 to 64 workers.
//!
//! **Why so.**
//!
//! - The answer to `loadsgf` depends on a file, and that to `genmove` on a search. So a
//!   conversation is a function of the lines and of two lists, of loads and of searched turns, each
//!   used in turn: it computes, and needs neither files nor searches. The contract of `run` says
//!   that there are such lists and where they came from. A load has the name that was asked for and
//!   what came of it, since whether bytes are a record of a game is a relation and no function. A
//!   load or turn that doesn't fit stops the conversation.
//! - `Engine::obey_with` is made for every number of turns; the count is a `u64`, and a `genmove`
//!   that would pass its end is answered as out of memory, which no session reaches.
//! - The engine keeps the last turn's texts and not its tree, whose memory is free before the next
//!   turn. What a turn needs (its texts, its vertex, the count) is made before it is handed over:
//!   after `archive.take` nothing can fail.
//! - A quiet command is a type of its own. What it does is a reply and the game after it, so
//!   options, number of turns and last texts stay by construction, and no proof has a table of
//!   commands.
//! - Contracts use the declared types `Request`, `Parsed` and `Loaded`, with no record in specs/
//!   that mirrors one.
#![tactic(auto)]

mod answers;
mod boards;
mod commands;
mod forms;
mod genmove;
mod last_turn;
mod loadsgf;
mod next_turn;
mod options;
mod picture;
mod quiet;
mod state;
mod telling;
mod texts;

pub use answers::{Answer, Asked, EngineError, Fail, Memory};
pub use commands::{COMMANDS, Command, Quiet, Using};
pub use options::Options;
pub use state::Engine;

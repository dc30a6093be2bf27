//! A session of the protocol: the conversation over a link, from its first byte to its end.
//!
//! **What it is.** A *conversation* takes the input piece by piece, cuts it into raw lines and
//! answers each. What it *uses up* are the files that it fetches from its shelf and the turns that
//! it hands to its archive, each in turn. The *talk* over a list of raw lines, with some files and
//! turns to use up, is what answers the lines, by definition. It tells the text, what the
//! conversation stands at then, and what is left to be used up. It goes on, ended with an answered
//! `quit`, or fell short of a file or a turn. Nothing of pieces, buffers or searches is in it.
//!
//! **A caller** makes the `Devices` of hex_devices: a link, a shelf and an archive with the runtime
//! and the gate of the searches. It says the engine's options, the size of the first board and the
//! most bytes that are answered, and learns how it ended:
//!
//! ```text
//! let outcome = converse(alloc, &mut devices, &options, size, limit);
//! ```
//!
//! **What is proved**, in the words of `specs/Endings.antt`: if the link tells it, what was given
//! is the talk over the lines of what was taken, as far as each outcome says. Its files are those
//! that came of the shelf's fetches, and its turns those that the archive took, each of which is
//! good. All whole lines taken were answered before the next read, and no read that was answered
//! follows an answered `quit`. What fails first ends it: a count of faults rose with its own `Stop`
//! and is as before with every other outcome. More at the end of what a talk has to use up changes
//! nothing of it ([`more_left_is_not_used`]). With one worker it is determined
//! ([`one_worker_is_determined`], [`one_worker_and_one_shelf_determine`]). The move of a good turn
//! is legal when it is played ([`searched_moves_are_legal`]).
//!
//! **What is only tested, or not said.** That memory suffices: it may always stop since memory ran
//! out, which no clause ties to a refused growth. That after a fault nothing is read or written.
//! That searches run in the threads of the runtime, and pass the gate.
//!
//! **Limits.** At most [`MOST_HELD`](hex_io::MOST_HELD) bytes of answers are held when a line is
//! looked at (a clause of `relieve` in src/holding.rt), and then its answer; so no memory grows
//! with the input but the game's own.
//!
//! **Why so.**
//!
//! - The answers to the lines of one read are held, and given together before the next read: a
//!   write for each would take longer than the answer. What is held is given first whenever a
//!   request would use something up, since a search may take long, and since a write that fails
//!   after the archive did would count two faults in a run that ends with one. So a line is
//!   answered at once, by the engine alone, or it is asked over the devices with nothing held.
//! - No turn is taken whose answer can't be given. The text of a `genmove`'s answer is made before
//!   its turn is handed over, and room for the longest answer of a command that uses something up
//!   is reserved before the engine is asked. An answer is written into room that its caller
//!   reserved.
//! - Each call of a session keeps one invariant, `HasAnswered` of `specs/Sessions.antt`, whatever
//!   conversation it is of: what was given and is held is the talk over the lines answered so far.
//!   Where a call fails, by memory, the archive or a write (`OutputError`), its clause says at once
//!   how the conversation ended. A read fails in `converse` alone.
//! - With status 5 what was written is the transcript over the first m lines, if line m exists, or
//!   nothing was taken at all. That line m is the one that ran out of memory can't be said: no
//!   contract sees a refused allocation.
#![tactic(auto)]

mod answering;
mod asking;
mod conversation;
mod holding;
mod laws;
mod questions;
mod session;

pub use conversation::converse;
pub use laws::{
    more_left_is_not_used, one_worker_and_one_shelf_determine, one_worker_is_determined,
    searched_moves_are_legal,
};

//! The modes of a run that hand in one turn: `sim` and `bench`.
//!
//! **Nouns.** The *position* of bench is a board on which stones were placed in turn on shuffled
//! cells ([`bench_position`]). The *schedule* of sim says which simulated worker makes each step.
//! Both are drawn from the seed. A [`TurnMode`] says which of the two modes it is, and what it is
//! told are its [`ModeOptions`].
//!
//! **A caller** calls [`hand_in`] with the mode and the devices of a run. The turn is decided and
//! its text made; then the archive takes the turn, and the link the text:
//!
//! ```text
//! let outcome = hand_in(alloc, TurnMode::Bench, &options, &mut devices);
//! ```
//!
//! **What is proved**, in the words of specs/OneTurn.antt and specs/HandingIn.antt: after success
//! the archive has exactly one turn more, if it tells; the turn is good and has number 0. In sim it
//! is that of the board without stones, with Black to move, for a session that looks for no
//! connections, and its tree is that of the schedule, or with one worker the sequential search's.
//! In bench it is that of the position, for a
//! session with the means of bench; the position's stones are the longest prefix of a third of the
//! shuffled cells of which none joins its player. The text is that of the turn: of its tree, or of
//! a win. In bench without connections, and in sim with one worker, the options determine it. At a
//! write fault a prefix of it was given; at an archive fault or out of memory nothing was, and the
//! archive has the same turns. Counts of faults rise exactly with their errors, and nothing is read
//! or fetched.
//!
//! **What is only tested, or not said.** That workers of bench run side by side. That memory
//! suffices. That with several workers sim gives one text for the same options.
//!
//! **Limits.** Those of a search; the schedule takes a byte for each step.
//!
//! **Why so.**
//!
//! - The position of `bench` is the longest prefix, within the first third of the shuffled cells,
//!   after no stone of which somebody is joined. If nobody was joined before, a new stone joins
//!   nobody but its player, so that is where placing stops before a stone that would join its
//!   player.
//! - That the options determine a text is said by itself (`IsModeTurn`): each other turn of the
//!   mode has the same. The proof has the text as a function of the sequential search's rows, and
//!   so the best cell as one (`best_cell`), which is proved to be the cell of `IsBest`.
//! - The tree of `sim` is that of its schedule by a clause of [`hand_in`] and by none of `run`,
//!   which would ask the reader for the worker as a machine of single steps, some 130 definitions.
//! - One worker makes the same tree by every schedule, so none is followed: the sequential search
//!   makes it.
#![tactic(auto)]

mod modes;
mod options;
mod positions;
mod records;
mod schedules;
mod searches;
mod texts;

pub use modes::{TurnMode, hand_in};
pub use options::ModeOptions;
pub use positions::{BenchPosition, bench_position};
pub use schedules::schedule;

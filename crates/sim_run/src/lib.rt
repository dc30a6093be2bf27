//! A team of workers in one thread: their steps on one tree, in the order that a list says.
//!
//! **Nouns.** A *schedule* is a list of numbers of workers, which are numbered from 0: each entry
//! is one step of that worker. A *simulation* ([`simulate`]) has the words of a tree in a plain
//! vector and a walker for each worker.
//!
//! **A caller** makes a shape and a schedule and calls `simulate(alloc, &shape, &schedule)?`. The
//! same two give the same words each time.
//!
//! **What is proved.** The tree is closed and of this shape, for every schedule. It is the tree of
//! this very schedule: from the opening words and new walkers on, each entry is one step of the
//! walker with its number. Then come rounds, in each a step of each walker by rising number, until
//! none has a step left (specs/Steps.antt, specs/BetweenSteps.antt). A number that no worker has is
//! refused with its first place, before anything is simulated, and it refuses otherwise only if
//! memory runs out. `simulate` returns, takes all its memory before the first step, and waits for
//! nobody.
//!
//! **What is only tested, or not said.** That it gets its memory; that one worker makes the tree of
//! the sequential search (search_tests compares them).
//!
//! **How it is proved.** Between two steps there is a list of views, one of width 1 for each
//! worker, each belongs to its walker, and the arena rule holds of the words with these views. The
//! views stand in proofs alone, so what is left to do is told from the words and the walkers:
//! TICKET says how many draws are left at most.
//!
//! **Limits.** Those of a shape.
//!
//! **Why so.**
//!
//! - The views of a simulation stand in proofs alone: the loop's measure is told from the words and
//!   the walkers, by the draws that are left and what the walks in hand have left. The views of
//!   several workers are of width 1, and joined at the end to one, which closes the tree.
#![tactic(auto)]

mod errors;
mod search;
mod simulation;
mod steps;
mod walkers;

pub use errors::SimError;
pub use search::simulate;

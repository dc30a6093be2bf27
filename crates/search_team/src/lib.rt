//! A team of threads over one shared tree, or one worker over a plain vector.
//!
//! **Nouns.** A *worker* is a walker with a seat of its own, stepped until its draw answers that no
//! playout is left ([`work`]). A *team* is the workers of one shape, each in a thread. A [`Gate`]
//! is what a worker passes once, between its first looks and its first add; a test counts and holds
//! workers there with a [`CountingGate`], and [`OpenGate`] holds none.
//!
//! **A caller** calls [`search`]. It first cuts the area to what the workers can use; the closed
//! tree is one of the whole shape. One worker has nobody to share with, and searches alone
//! (seq_search). For more it makes the tree, splits its seat by halves until each part stands for
//! one worker, lets each work in a thread, joins the seats and closes the tree.
//!
//! **Speed.** The looks at a block's children and the adds to its seen words are most of a walk,
//! and the words of a new block come many at a time. A worker takes the walker's small machine for
//! them out, runs it in a loop of its own, and puts it back. The four looks at a block's header
//! have a loop in which the stage is known. The steps and their order are the same.
//!
//! Adds to a seen word with many visits are held back: a worker keeps their sum, and gives it in
//! one add. Made one by one, these adds took most of the time that workers waited for one another.
//!
//! **What is proved.** `work` ends: each draw gives a number that its worker hasn't drawn, and a
//! walk has a bounded number of steps. It takes no memory and never waits. All that it held back is
//! given when it ends, each visit and each win once. `search` gives a closed
//! tree of its shape for every number of workers, and with one the tree of the sequential search.
//! Its only refusal is out of memory, which it takes before any worker begins, and once more if a
//! claim passed the end of the cut area.
//!
//! **What is only tested, or not said.** That workers run side by side, which worker draws which
//! number, how often and when the gate is passed, that no claim passes the end of the cut area,
//! that few adds are held back at a time, and speed.
//!
//! **Limits.** Those of a shape: 1 to 64 workers. The threads take their stacks from the system.
//!
//! **Why so.**
//!
//! - One worker shares the words with nobody: `search` hands over to the sequential definition's
//!   program, which makes no atomic operation and copies nothing back. The other way was a trait by
//!   which the walker's loops step on a table or on a vector. A plain vector has no view of a seat,
//!   so each loop's contract would have spoken of all views that the words may have.
//! - The area is cut before a search, since most of a short search's time went into clearing words
//!   that it never used. How many a search can use is counted in one function (`first_words`) and
//!   not proved: if that is too low, the search is made again with all words. What no claim reached
//!   is 0, so the tree is the same.
//! - No clause says that two workers run side by side: a search that lets them work one after
//!   another makes closed trees too. So each worker passes a gate once, before its first update,
//!   and a test hands in a gate that holds workers until the others have come.
//! - Sums stand in a table of a worker's own, by the seen word and not by the block, so that which
//!   word a slot has is all that is to be known of it. The table lies on the thread's stack, so no
//!   memory is refused. What all workers hold back of a word is bounded together, so that more
//!   workers don't read older counts.
//! - The scan's loop takes a whole child at a turn ([`walker::Scan::child_ops`]), by contracts that
//!   say what three single calls do: so it doesn't ask in which word of a child it is, and its
//!   state stays in a local. The order of the steps is the same. Looks after a child without visits
//!   have a loop of their own, since nothing is chosen there any more.
//! - The adds of each half of a block have a loop of their own, which keeps one half in registers:
//!   a loop over both moved six registers about for each add.
//! - Full scores stand in the loop too: kept out of it by a call they took 4 % more instructions of
//!   a search, since a call's saved registers are paid for each child.
#![tactic(auto)]

mod climbing;
mod counting;
mod heading;
mod holding;
mod scanning;
mod searching;
mod stepping;
mod working;
mod writing;

pub use counting::CountingGate;
pub use holding::held_adds_have_limits;
pub use searching::{search, search_within};
pub use seq_search::{Gate, OpenGate};
pub use working::work;

//! One worker of a search as a machine.
//!
//! **Nouns.** A [`Walker`] makes one *walk* after another: it draws a number, goes down from the
//! root to a *leaf*, plays out from there, and goes up again with its *adds*. Its *stage* is the
//! kind of step that is next ([`Stage`]), and its *way* are the *levels* between the root and the
//! node where it stands. A [`Scan`] goes over the children of a block and keeps the one that Choice
//! takes, and a [`Climb`] over the adds to a block's seen words: both are small machines inside it.
//! [`NewNodes`] are the nodes of a new block that are still to be written.
//!
//! **A caller** steps it until it is done, and makes each step on the words of a shared tree:
//!
//! ```text
//! loop {
//!     let op = walker.op();
//!     if op == Op::Done { return; }
//!     let answer = seat.act(tree, op);
//!     walker.got(answer);
//! }
//! ```
//!
//! A faster loop takes a [`Scan`] or a [`Climb`] out ([`Walker::scan`], [`Walker::climb`]), makes
//! its steps, and puts it back ([`Walker::put_scan`], [`Walker::put_climb`]): the steps are the
//! same. Of a scan it may make the three looks at a child together ([`Scan::child_ops`],
//! [`Scan::got_child`]), and of a new block the four writes of a node ([`Walker::new_nodes`],
//! [`NewNodes::node_ops`], [`NewNodes::got_node`], [`Walker::put_new_nodes`]).
//!
//! **What is proved.** `op` and `got` are the machine of specs/Machine.antt. If a view belongs to
//! the walker (specs/Belongs.antt), it fits `op`; and after an answer that the step may give, the
//! view afterwards belongs to the walker again. Each view of its shape that is in order, stands for
//! one worker and has drawn nothing belongs to a new walker. At each node of a walk's way the walk
//! went to the child that Choice gives for the counts that it loaded there. `Done` comes exactly
//! after a Draw that gave at least N. Each step but a draw leaves the walk fewer steps, and a walk
//! has at most [`WALK_STEPS`].
//!
//! **What is only tested, or not said.** How fast a walker is, and the trees that walkers make: of
//! those speak the crates that run them.
//!
//! **Limits.** Those of `tree_words`. A walker has a fixed size, of some 4 kB. No call takes memory
//! or a handle.
//!
//! **Why so.**
//!
//! - A walker doesn't use the header and move words that it loads: its own board gives them, and
//!   wherever the answer may be given they are equal. It looks at each all the same, in the order
//!   of one walk.
//! - [`Walker::got`] needs an answer that some view belonging to the walker may be given. At Done
//!   it may be called too, and changes nothing. While a block is held, Belongs says that it begins
//!   behind the node: a Publish needs no more.
//! - A new block is written by whole nodes, in a loop of its own ([`Walker::new_nodes`]). Asked
//!   word by word, each word was found anew from the board: a thirteenth of all instructions of
//!   100,000 playouts on size 11.
//! - The place of a cell in a block is the number of bits below its own, one count of ones under a
//!   mask, in two words of 64 bits. Taking each hole out of one number of 128 bits took a sixth of
//!   a search.
#![tactic(auto)]

mod ascending;
mod climbs;
mod descending;
mod expanding;
mod machine;
mod new_nodes;
mod scans;
mod stages;
mod ways;

pub use climbs::Climb;
pub use machine::{WALK_STEPS, Walker};
pub use new_nodes::NewNodes;
pub use scans::{Phase, Scan};
pub use stages::Stage;
pub use ways::{Level, Way};

/// No word that a walker names is past this one: the largest table has 17,777,222 words, and NEXT
/// is at most 64 of the largest blocks past its end.
pub const PAST_WORDS: u32 = 1 << 25;

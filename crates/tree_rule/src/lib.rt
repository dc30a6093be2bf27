//! The shared tree: the words of a search on one table of atomic words, and the seats that step on
//! them.
//!
//! **Nouns.** A [`Tree`] is the words of a search and the shape that it is for; threads share it. A
//! [`TreeSeat`] stands for one or more workers of one tree, and may be moved to another thread. A
//! *step* is one atomic operation on one word: a draw, a look, a claim, a write, a publish, an add
//! or a note. A seat's *view* is what is known of it by its own steps alone, and tells which steps
//! fit it, what they may answer and what they leave (arena_rule).
//!
//! **A caller** makes a tree with [`Tree::make`], and splits its one seat into one for each worker
//! with [`TreeSeat::split`]. Each worker makes its steps with [`TreeSeat::act`] until its draw
//! answers that no playout is left. Then the caller puts the seats together again with
//! [`TreeSeat::join`], and takes the closed tree out with [`Tree::close`].
//!
//! A seat may hold an add to a seen word back ([`TreeSeat::owe`]), and give what it owes to a word
//! in one step ([`TreeSeat::give`]). It owes nothing when it splits, joins or is closed.
//!
//! **What is proved.** The arena rule holds between any two steps, whichever seats make them: of
//! the words with what is owed to them (`OwingRule` of arena_rule). A step that fits has an answer
//! that it may give, and the view afterwards is the one of that answer. What a seat knows only
//! grows, and a look at a node's tally answers at least the visits that this seat itself made
//! there. A split and a join give the views that the rule says. The words at the end are a closed
//! tree. They show what the last seat knew, and their records are those of its walks, which are the
//! walks of all playouts. If its view has a copy of all words they are that copy. `make` takes all
//! memory, of which its only refusal speaks; no other call takes any, and none waits.
//!
//! **What is only tested, or not said.** Which worker draws which number, that two workers ran at
//! the same time, that a publish wins its race, and progress.
//!
//! **Limits.** Those of a shape: 1 to 64 workers, 1 to 1,000,000 playouts, 1,024 to 16,777,216
//! words of blocks. Two allocations of all words stand from `make` to `close`.
//!
//! **Why so.**
//!
//! - A seat is of this tree (`IsOf`) if its table is the tree's and its view has the tree's shape.
//!   The second is there because a join learns nothing of the rule, and views of two shapes could
//!   not be joined in order.
//! - A seat's number in its table is not seen, and no clause names a private field: tree and seat
//!   are seen through models. Contracts of make, split, join and act say again that views are in
//!   order, since a walker's Belongs asks it.
//! - Each call says that the arena rule holds as far as it sees it. The kit gives a step the state
//!   in which it was made, so `act` says that the rule holds before and after; it gives a split and
//!   a join none, so they say that they keep the rule.
//! - The closed words are the opening words, not cleared: `close` copies only the words below NEXT,
//!   since behind NEXT both are 0. So no memory is taken after `make`.
#![tactic(auto)]

mod plays;
mod rule;
mod seats;
mod steps;
mod trees;

pub use seats::TreeSeat;
pub use trees::Tree;

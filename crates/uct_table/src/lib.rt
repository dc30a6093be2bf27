//! Integer scores for a tree search: which child a walk goes to.
//!
//! **What it is.** A *child* has counts: visits and wins, and *seen* visits and wins, which are
//! those of stones on filled boards. Its *score* below a parent's visits is a *mean* of the two
//! shares of wins, in 65536th parts, plus a *bonus* that falls as its visits grow. *Choice* is the
//! first child without visits, or else the first of the greatest score. It is UCT (Kocsis and
//! Szepesvári, 2006) with seen counts in the manner of RAVE (Gelly and Silver, 2007), in whole
//! numbers alone, so that a score is one exact number.
//!
//! **A caller** goes through children in their order and keeps the one that is preferred:
//!
//! ```text
//! if better(p, kept.v, kept.w, kept.a, kept.b, next.v, next.w, next.a, next.b, c) { kept = next; }
//! ```
//!
//! or, faster, makes a [`Parent`] for the block, keeps the best score and a bar beside it, and asks
//! [`Parent::is_low`] of each later child, and [`Parent::score`] of those that are not low.
//!
//! **What is proved.** [`level`], [`root`], [`score`] and [`Parent::score`] give exactly the
//! numbers of `specs/Scores.antt`. A child of which [`Parent::is_low`] holds has no score above the
//! bar, and [`better`] is exactly its word in `specs/Choice.antt`. The law
//! [`going_through_gives_choice`] says that the child kept at the end is Choice. Floats are only
//! guesses: a guess is taken if its square shows that it is right.
//!
//! **What is only tested, or not said.** That scores choose well, and how long a call takes.
//!
//! **Limits.** Counts are at most [`MOST_COUNT`] and a weight at most [`MOST_WEIGHT`]. No call
//! takes memory, and none refuses.
//!
//! **Why so.**
//!
//! - A choice doesn't need each child's score. A [`Parent`], made once for a block, keeps a factor
//!   above the weight times the root of the parent's level. A child's bonus is at most this factor
//!   times the reciprocal root of its visits, from a table of 1,023 numbers that is proved number
//!   by number. More visits are quartered until the table has them, which makes the bound greater
//!   by at most a 500th part. The mean is bounded by products. If both are no more than the best
//!   score so far, which is so for nearly every child, nothing is divided.
//! - A search keeps a bar beside the best score, never above what the products can bear, and asks
//!   [`Parent::is_low`]: so no child asks whether its products fit, and none whether it is the
//!   first.
//! - The table is written out, since a constant can't call a function here; a wrong number in it is
//!   refused by the prover.
//! - A score is three divisions of whole numbers. Quotients guessed by floats and tested by
//!   products were proved too, and took longer in whole searches (2.55 against 2.41 thousand
//!   million instructions for 100,000 playouts on size 11).
#![tactic(auto)]

mod choosing;
mod reciprocal_roots;
mod scorer;
mod scoring;

pub use choosing::{better, going_through_gives_choice};
pub use scorer::Parent;
pub use scoring::{MOST_BAR, MOST_COUNT, MOST_WEIGHT, level, root, score};

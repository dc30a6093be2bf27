//! Boards with stones: who is joined, who has won, and the elements of a player.
//!
//! **Nouns.** A [`Board`] is a size and the stones of both players; as plain data it is a
//! `Position`. A player is joined if a path of his stones leads from his first edge to his second;
//! that is how Hex is won. A group is a connected part of a player's stones and his two edges, and
//! his elements are his groups and the empty cells, by number ([`Elements`]).
//!
//! **A caller** makes a board by [`Board::empty`] or [`Board::of`], puts stones by
//! [`Board::place`], asks [`Board::joined`] and [`Board::winner`], and goes over
//! [`Board::elements`]. [`flood`], [`joined`] and [`roots_of`] work on sets of stones that are on
//! no board yet.
//!
//! **What is proved.** `joined` answers yes exactly if there is a path of stones between the edges,
//! and equals `is_joined`, a plain search of paths that callers may define things by
//! ([`joined_is_decided`]). A board is told apart by its `Position`. The elements are those of the
//! definitions in specs/Elements.antt, where an element's number is a count of least cells. What
//! lies near is said in specs/Places.antt, where a place is a cell or an edge, and by the test
//! `is_near` ([`near_is_decided`]). `Wins`, who wins if both play on, is a definition for the
//! crates above, with its laws ([`wins_go_on`]).
//!
//! **What is only tested, or not said.** That a full board has exactly one winner is nowhere used,
//! and tested on all boards of sizes 1 to 4. Speed, and what the derived `Debug` prints.
//!
//! **Limits.** Boards of 1 by 1 to 11 by 11 cells. No call takes memory.
//!
//! **Why so.**
//!
//! - Joined is a relation: a list of the player's cells that leads from edge to edge. Replays,
//!   legality and answers must compute, and a proof may not assume that a fact is true or false. So
//!   there is a test `is_joined`, a plain search of paths with one cell less at each step, and a
//!   law that it is true exactly if Joined holds. Groups are found by the same search.
//! - A `Board` is plain data in contracts, so that a replay is a function over data. What holds of
//!   every board (the sets are apart and lie on it) is kept in its type.
//! - Two elements are near if they differ and a place of one lies beside a place of the other; a
//!   place is a cell or an edge of the player, so a path may go through an edge. The rules of
//!   connection and the lines of certificates use its test `is_near`.
//! - The largest board has a flood of its own: there each shift is by a constant, two instructions
//!   in place of six.
#![tactic(auto)]

mod boards;
mod calls;
mod groups;
mod laws;
mod numbering;
mod paths;
mod tables;

pub use boards::Board;
pub use groups::roots_of;
pub use laws::{near_is_decided, one_element_is_a_group, wins_go_on};
pub use numbering::MOST_ELEMENTS;
pub use paths::{flood, joined, joined_is_decided};
pub use tables::Elements;

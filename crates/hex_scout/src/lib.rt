//! The search with connections: who wins a position, and the entries between the edges that show
//! it.
//!
//! **Nouns.** *Entries* and their tables are those of `edge_tables`, *reports* those of
//! `edge_reach`. A *state* is a board with who moves next. A *node* is a state that was entered,
//! with its *effort*: the proof and the disproof number of proof-number search. The *replies* at a
//! state are the cells that all carriers of the other's semi entries have in common: a stone
//! elsewhere is answered.
//!
//! **A caller** makes a [`Search`] and asks it to [`Search::decide`]; what it found is in its
//! tables ([`Search::tables`]), and [`Search::best`] is the cell that it would try next.
//!
//! **How it goes.** A round goes from the root to a state that is new, always to the cell with the
//! least disproof number, and makes the mover's report there, which goes on over edges if need be
//! and ends at a semi entry; if there is none, it makes the other's. A state is decided by a semi
//! entry of the mover whose carrier is empty, by a full one of the other's, if no reply is left, or
//! by a reply after which the mover has a full entry or leaves none. If no reply is left, the
//! other's semi entries are the cases of a full one.
//!
//! **What is proved.** That each call is safe and ends, that no more states are counted as entered
//! than the budget has, that it is told to be spent only if as many were counted, and that the best
//! cell is empty. Nothing of who wins: `cert_draft` makes certificates of what was found, and
//! `hex_found` has them checked.
//!
//! **What is only tested, or not said.** Who wins, and how soon that is found; that each state that
//! is counted was entered. Without a promise, by trial: in which order cells are tried, and
//! how many are looked at (src/orders.rt).
//!
//! **Limits.** 4,000,000 nodes and the entries of `edge_tables`. A full table ends a search like a
//! spent budget.
//!
//! **Why so.**
//!
//! - The search may leave a stone for another and come back: a search that never leaves one that it
//!   has begun finds proofs with ten times as many lines.
//! - A node looks at half of its cells and one more, by the product of both players' currents. If
//!   these lose, others follow, since a cell that is answered is no reply.
//! - To show a loss counts the hardest reply, and one for each other: replies share most of what is
//!   to be shown, which a sum would count again and again. A state that was never entered counts
//!   the replies that the tables leave there.
//!
//! Source: focused proof-number search, which looks at a part of a node's moves, over H-search and
//! mustplay regions (P. Henderson, B. Arneson and R. Hayward). The greatest proof number in place
//! of the sum is the weak proof number (T. Ueda and others).
#![tactic(auto)]

mod nodes;
mod orders;
mod reporters;
mod searches;
mod states;

pub use searches::{Outcome, Search};
pub use states::State;

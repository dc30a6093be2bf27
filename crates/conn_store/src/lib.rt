//! Connections: what a player can be sure of joining, kept as entries that are true.
//!
//! **Nouns.** An [`Entry`] speaks of two elements of a player (his empty cells and groups) and of
//! a *carrier*, a set of empty cells. A full entry says that the player links the two elements
//! inside the carrier even if the opponent places first there; a semi entry says that he does if
//! he places first. An entry *follows* from others by one of four rules, its [`Cause`]. A
//! [`Store`] holds a player's entries on a board, and by pair and kind the numbers of its entries
//! ([`Held`]).
//!
//! **A caller** makes a [`Store`], adds entries that follow from those that it holds
//! ([`Store::add`]), looks up those of a pair ([`Store::held`]), and goes over all
//! ([`Store::entries`]). What follows by AND is asked of an entry over its middle ([`EntryOver`])
//! and any other, so that each is a few tests on two carriers ([`Store::by_and`]). The next store
//! may take its memory ([`Store::again`]).
//!
//! **What is proved.** Each entry of a store is valid and follows by the four rules from earlier
//! ones. So it is *true* ([`sound_entries_are_true`]): the truth of an entry (specs/Truth.antt,
//! specs/Links.antt) speaks of paths of stones and of placing in turn, and of no rule. `add`
//! refuses exactly if an entry of that pair and kind has its carrier inside the new one, or else
//! the pair is full. `held` has exactly the numbers of the entries of that pair and kind. Who is
//! sure of linking the elements of his two edges wins the game ([`connected_edges_win`]); more
//! cells, more stones and the first move keep truth ([`truth_goes_on`]).
//!
//! **What is only tested, or not said.** That [`Store::make`] gets its memory, and that
//! [`Store::again`] seldom takes more; speed; what the derived `Debug` prints. That a rule is never
//! missed is for the crate above.
//!
//! **Limits.** At most [`MOST_FULL`] full and [`MOST_SEMI`] semi entries of a pair, and
//! [`MOST_ENTRIES`] in all. Only [`Store::make`] and [`Store::again`] take memory.
//!
//! Source: Anshelevich's virtual and semi connections, with the AND rule, the OR rule and carriers.
//!
//! **Why so.**
//!
//! - That entries are true is a law and no part of what sound means. So what a plan keeps of a
//!   report speaks of rules alone, and who reads the contract of `run` meets the truth of entries
//!   nowhere: that certified moves win is said by `Wins`.
//! - `IsSure` speaks of any goal that stones may reach, by recursion on the number of cells; the
//!   truth of an entry takes as goal that its two elements are linked. So each rule is proved once,
//!   as a law of goals.
//! - The calls `by_adjacent`, `by_and`, `by_or_two` and `by_or_three` are the one place where the
//!   rules' conditions are tested; H-search and tests make their entries by them.
#![tactic(auto)]

mod entries;
mod index;
mod laws;
mod limits;
mod refusals;
mod rules;
mod stores;

pub use entries::{Cause, Entry, Held, Kind, MOST_ENTRIES, MOST_FULL, MOST_SEMI, Put};
pub use laws::{connected_edges_win, sound_entries_are_true, truth_goes_on};
pub use limits::four_full_and_six_semi_entries_are_kept;
pub use refusals::Memory;
pub use rules::EntryOver;
pub use stores::Store;

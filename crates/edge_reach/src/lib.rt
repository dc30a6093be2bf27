//! Connections between a player's edges: an H-search that is made for a solver.
//!
//! **Nouns.** An *entry* is a connection of two of the player's *elements* (his groups with the
//! edges, and the empty cells): full if he joins them even if the opponent moves first, semi if he
//! has to move first. Its *carrier* has the cells that this needs to be empty. A *question* is of a
//! player, his stones, and a region of empty cells; the opponent has all other cells.
//!
//! **A caller** makes a [`Reach`] once, asks it one question after another ([`Reach::report`], and
//! [`Reach::go_on`] if that isn't enough), and reads what it found: [`Reach::between_edges`],
//! [`Reach::entry`], [`Reach::derivation`], and the currents ([`Reach::currents`]).
//!
//! **What is proved.** That each call is safe and ends, and what the calls that read a report
//! answer of what it has (specs/Reports.antt): [`Reach::entry`] the entry with this number,
//! [`Reach::count`] how many there are, [`Reach::between_edges`] the numbers that it keeps, and how
//! [`Reach::end`] names the edges. Nothing of the entries themselves: whoever makes a certificate
//! of them has it checked.
//!
//! **What is only tested, or not said.** That the entries are true, and how many are found; that
//! none of those between the edges was given up; that a derivation has all premises, and which cell
//! of [`cells_of`] is next. That currents are those of the circuit, up to what is rounded.
//!
//! **Limits.** Those that a [`Reach`] is made with ([`Limits`]), at most [`MOST_FULL`] full and
//! [`MOST_SEMI`] semi entries of a pair. Memory is kept from report to report.
//!
//! **Why so.**
//!
//! - `hsearch` keeps few entries of each pair and is closed under its rules, which is proved. A
//!   search that wants many entries soon is served better by more of them, by narrower ones in
//!   place of wider ones, and by an end as soon as what it asks for is there.
//! - Entries are taken in the order of their carriers' sizes: what is narrow makes more of others
//!   needless.
//! - Of semi entries that have no cell in common two and three are tried in each way, but of more
//!   one choice alone, by greed: a third of the positions are left to enter, at about the same time
//!   for each.
//! - Over an edge elements are joined only if they lie beside it, and only if a report without that
//!   wasn't enough. A cell beside an edge then counts as the edge does, as if a stone were there:
//!   so a report sees what else a stone on each such cell would have to show.
//!
//! Source: H-search (V. Anshelevich); the electrical circuit over virtual connections is his, too.
#![tactic(auto)]

mod circuits;
mod elements;
mod entries;
mod found;
mod held;
mod queues;
mod reports;
mod walks;

pub use circuits::FLOW;
pub use elements::{Cells, cells_of};
pub use entries::{End, Entry, MOST_UNITED, Rule};
pub use found::Limits;
pub use held::{MOST_FULL, MOST_SEMI};
pub use reports::{MOST_OVER_EDGES, Question, Reach, Until};

//! Live links: a player's connections on a board, kept from stone to stone.
//!
//! **Nouns.** An *entry* is a connection of two of the player's *elements* (his groups with the
//! edges, and the empty cells): full if he joins them even if the other moves first, semi if he has
//! to move first. Its *carrier* has the cells that this needs to be empty. A *pair* is two elements
//! and a kind of entry. A player's *links* are his elements on a board and the entries between
//! them.
//!
//! **A caller** makes [`Links`] of a board from nothing ([`Links::load`]), or from those of a board
//! with fewer stones, which were kept ([`KeptLinks`], [`Links::follow`]). It reads whether an
//! entry leads from edge to edge ([`Links::has_any`], [`Links::has_full`]), and which cells all
//! semi ones between them have in common ([`Links::common`]), and draws their circuit
//! ([`Links::draw`]).
//!
//! **What is proved.** That each call is safe and ends.
//!
//! **What is only tested, or not said.** That the entries are true, and how many are found. Whoever
//! searches by them has to choose well by any of them.
//!
//! **Limits.** 15,000 entries of 24 bytes: 0.6 MB for links, and for those that are kept as many as
//! they were given room for. What has room takes no memory any more.
//!
//! **Why so.**
//!
//! - `hsearch` makes a report from nothing, which is closed under its rules, and that is proved.
//!   Between a board and the next one most entries stay: after the other's stone those that need
//!   its cell are gone and few come, after one's own stone those around it change.
//! - An element has a fixed number: a cell's own, and for a group that of one of its cells. So an
//!   entry stays as it is when stones come elsewhere, and one pass over the entries takes over
//!   those that stay.
//! - A pair with as many entries as it may have has turned others away. So if it loses one, it is
//!   joined anew, over each middle.
//! - Entries are taken in the order of their carriers' sizes, and a narrower one takes the place of
//!   the widest.
//! - How many entries a pair has stands apart from which these are: so what is cleared for each
//!   board, and asked most, is small.
//!
//! Source: H-search (V. Anshelevich).
#![tactic(auto)]

mod adding;
mod bits;
mod changes;
mod circuits;
mod entries;
mod keeping;
mod links;
mod loading;
mod losses;
mod pairs;
mod queues;
mod rules;
mod stones;

pub use adding::MOST_ENTRIES;
pub use keeping::KeptLinks;
pub use links::{Links, Until};
pub use stones::Room;

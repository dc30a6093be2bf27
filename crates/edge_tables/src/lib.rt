//! Entries between a player's edges, in tables: what a search for a winner found, and what a
//! certificate is made of.
//!
//! **Nouns.** An *entry* is one of a player's between his edges, semi or full: with these stones he
//! joins them inside its *carrier*, whatever stones the opponent has. Its *key* is of whom it
//! speaks: the player, who of the two may move first, and his stones. A *cover* is of few carriers
//! that have no cell in common, so that each stone of the opponent's is answered by one of them.
//!
//! **A caller** makes [`Tables`], puts what he found ([`Tables::put`]), and asks whether there is
//! an entry inside a region ([`Tables::has`]), which is the narrowest ([`Tables::narrowest`]), and
//! what all have in common ([`Tables::common`]). [`by_cases`] makes a full entry of semi ones by a
//! [`cover`], and [`Costs`] say which covers are cheap.
//!
//! **What is proved.** That each call is safe and ends, what a reading call answers of the entries
//! that are there (`entries_of`, specs/Entries.antt), and what is there after a writing one.
//! [`Tables::entries`] answers those of a key, [`Tables::has`] whether one lies inside the region,
//! [`Tables::list`] exactly these, the newest first, [`Tables::common`] exactly the cells of the
//! region that these have in common, and [`Tables::narrowest`] one of these such that none is
//! narrower, or `None` exactly if there is none. New tables have none. [`Tables::put`] leaves the
//! entries of each other key, and of its own key all but those that the new entry makes needless,
//! with it as the newest, or all as they are if one of them makes it needless (`with_newest`). A
//! full table stays as it was. The places of a [`cover`] are places of the list, not one alone, and
//! its carriers have no cell of the region in common. What [`by_cases`] makes has the cells and
//! lines of entries whose carriers are such a cover (`IsByCases`, specs/Covers.antt).
//! [`EdgeEntry::width`] is exact. Nothing says that an entry is true: a certificate that is made of
//! them is checked.
//!
//! **What is only tested, or not said.** When a table is full: a body that always says so is
//! proved. Which of several that are as narrow [`Tables::narrowest`] answers (the newest), and
//! which of several covers is chosen; a body of [`cover`] that always answers none is proved. Any
//! call that takes memory may say that it ran out.
//!
//! **Limits.** 8,000,000 entries. A full table ends a search like a spent budget.
//!
//! **Why so.**
//!
//! - Entries are looked up by the stones of their player alone, since they stand wherever their
//!   carrier is empty: what was found at one state decides others.
//! - A key's hash is of its stones alone: those of the other kind stand next to it, and one number
//!   is hashed in place of three.
//! - A wider entry stays beside a narrower one if it has less than half as many lines: it makes the
//!   certificate shorter.
//! - The maps are the kit's, which keep the order of insertion, so that one search has one result.
#![tactic(auto)]

mod cases;
mod covers;
mod entries;
mod stops;
mod tables;

pub use cases::by_cases;
pub use covers::{Costs, cost_of, cover};
pub use entries::{EdgeEntry, Key};
pub use stops::FinderStop;
pub use tables::Tables;

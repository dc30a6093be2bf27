//! H-search: the connections that the four rules lead to.
//!
//! **Nouns.** A *report* ([`Report`]) is a store of a player's entries on a board that is closed
//! under the four rules of `conn_store`. What a rule gives is *settled* if the pair has an entry
//! of that kind with a carrier inside the rule's, or its full number of that kind.
//!
//! **A caller** makes a report by [`connect`] and reads its entries by [`Report::store`]:
//!
//! ```text
//! let report = connect(alloc, board, colour)?;
//! let edges = report.store().held(0, 1, Kind::Semi);
//! ```
//!
//! Who needs one report after the other makes the next in the memory of the one before it
//! ([`Report::again`]): `report = report.again(alloc, board, colour)?`.
//!
//! **What is proved.** A report's store is that of the board and the player. Each entry is valid,
//! follows from earlier ones and is true. Each pair that lies side by side has an entry with the
//! empty carrier, and what the rules of AND, over a middle that holds no edge, and of OR give of
//! its entries is settled (specs/Closed.antt). The definition knows neither rounds nor an order.
//!
//! **What is only tested, or not said.** That [`connect`] and [`Report::again`] get their memory,
//! and make reports with the same entries in the same order; that they take small carriers first,
//! and their speed; which entries a report has beyond what closed says. H-search does not find
//! every connection.
//!
//! **Limits.** Those of `conn_store`. Only [`connect`] and [`Report::again`] take memory.
//!
//! Source: Anshelevich's H-search.
//!
//! **Why so.**
//!
//! - [`connect`] asks nothing of its caller. If the colour is joined both edges are element 0, and
//!   no pair of them has an entry.
//! - Entries wait by the sizes of their carriers, and a smallest one is taken first. What follows
//!   from small carriers is small too: it meets less, makes shorter certificates, and most of what
//!   comes later is refused, since its carrier has a smaller one inside.
//! - An entry that is taken is combined with those that were taken before it alone, so each two are
//!   met once; then it is marked, and listed for both of its elements if it is full. The search
//!   ends since a store has at most `MOST_ENTRIES`, of which each turn takes one.
//! - That its own pairs add nothing is a law and no test: a semi entry has a cell in its carrier.
//! - An entry over three ways is made of ways at falling places of the index, so no set of ways is
//!   tried twice, and of none of which the first two will do.
//! - Ends, kinds and carriers are tested before an entry is made of them. Whether the pair is full,
//!   or has a smaller carrier, the store tests on the entry, once for all rules.
//! - A report makes its lists at its beginning: one of waiting entries for each size of a carrier,
//!   and one of taken entries for each element. It keeps them, empty or not, for the next report.
#![tactic(auto)]

mod combining;
mod listing;
mod refusals;
mod reports;
mod waiting;

pub use refusals::Memory;
pub use reports::{Report, connect};

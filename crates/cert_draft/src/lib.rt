//! Certificates that are made of what a search found, and not yet checked.
//!
//! **Nouns.** A *draft* is a certificate that is being made. A *block* has its lines in one scope,
//! that is with certain stones of the player's; a *need* is what a scope is to show, an entry of a
//! kind inside a region. A *pool* has the lines that a block may take. A *fact* is what a line
//! gives in whatever scope: an entry, and the stones that its derivation uses.
//!
//! **A caller** asks [`seek`], which says who wins, if its search came to an end, by which
//! certificate, and how many states were entered. `hex_found` does, and has the certificate
//! checked. What one claims is [`claim_for`].
//!
//! **How it goes.** `hex_scout` decides the position and hands over entries between the edges. Each
//! scope, from few stones to many, is written once and serves all its needs: full ones by a derived
//! entry or by cases, then semi ones by derived entries and by stones, which bring needs of scopes
//! with a stone more. What costs least is chosen, lines that stand there already cost nothing. At
//! last each fact is written once, and lifted to the scopes that take it. What is written without
//! lifts is answered if versions 2 and 3 may have so many lines, and if these are no more, so that
//! more checkers read it.
//!
//! **What is proved.** That [`seek`] counts at most the budget of states, whatever it finds, and
//! names an empty cell if it names one as the best; what [`claim_for`] answers; and that each call
//! is safe and ends. Nothing of who wins, or of the certificate.
//!
//! **What is only tested, or not said.** That something is found, how soon, and by how many lines;
//! that it is true; that a cell is named, and which; that each state is counted; that calls get
//! their memory.
//!
//! **Limits.** Those of `edge_tables` and `hex_scout`; 4,000,000 scopes or needs while a
//! certificate is made.
//!
//! **Why so.**
//!
//! - The entries of a report are derived anew, by a report in the region of each need that keeps as
//!   many entries of a pair as one may, and of equal ones that with fewer lines.
//! - Who plays by a certificate needs a claimed move, and who asks only who wins does not. So a
//!   claim is served by a stone if there is one: the search knew it, or H-search finds it inside
//!   the carrier of the entry that decided; else by that entry.
//! - A fact holds wherever the player has the stones that it uses, so most lines say again what is
//!   said in other scopes: written once they are a third. A fact stands in the stones that all
//!   scopes that take it have in common, since that takes fewer lifts than where it uses all.
//! - Of an edge a line uses the stones of one path, since the edge is named without them. Of
//!   another group it uses all: so the group is the same one wherever they stand.
//! - Of lines that give the same fact the first is written. The scope where it was derived has all
//!   stones that it is written with, so its premises are apart there as they were.
//! - It is apart from `hex_found`, whose contracts say something of certificates, and has no wrong
//!   bodies, since these would have the gate prove it twice.
#![tactic(auto)]

mod assemblies;
mod claims;
mod derivers;
mod drafts;
mod facts;
mod layouts;
mod lifting;
mod pools;
mod prices;
mod refusals;
mod scenes;
mod seeking;
mod writing;

pub use claims::claim_for;
pub use refusals::Memory;
pub use seeking::{Sought, seek};

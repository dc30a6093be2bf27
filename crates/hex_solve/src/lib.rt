//! The solver: who wins a position, with a certificate.
//!
//! **Nouns.** *First* of a position is the player who is told to win by trying each move. The
//! *positions needed* are those that a search enters that tries the cells in rising order, and
//! *bound* is the most that they can be with so many empty cells. *Lines needed* are how many lines
//! a player's certificate by that search has. A *ledger* has the lines of a player's certificate
//! while that search goes on.
//!
//! **A caller** asks [`solve`] and takes its [`Solved`] apart:
//!
//! ```text
//! match solve(alloc, &board, mover, hsearch, budget)? {
//!     Solved::Won { winner, cert } => ..
//! ```
//!
//! **What is proved.** A winner wins, whether his certificate fits or not. The certificate of one
//! who has won has the version that its lines need, can be written, is accepted, and is of this
//! board, for him.
//! It is unknown who wins only if the budget is below the positions needed, and these are at most
//! bound ([`positions_are_bounded`]). A cell that is told as the best then is empty, and there is
//! one if any is empty. A certificate is too long only if more than nine cells are empty. How many
//! lines it has is told: those of the winner, at most two for each position needed
//! (specs/Solved.antt and Deciding.antt).
//!
//! **What is only tested, or not said.** That calls get their memory; the time. That connections
//! make the search shorter, beyond a semi entry between the mover's edges at the root, and that the
//! search with connections gets the budget and no more; which empty cell is told as the best. That
//! a full board has a winner: [`Solved::Open`] would show one that has none.
//!
//! **Limits.** Those of `win_cert` and `hex_found`: a certificate has at most 200,000 lines, or
//! 1,000,000 if some are lifts. The plain search has two ledgers of at most 200,000.
//!
//! **Why so.**
//!
//! - With connections there are three tries. A semi entry between the mover's edges in his report
//!   is a win, cut and upgraded. Otherwise `hex_found` looks for a certificate, and what it hands
//!   over was checked, so nothing of its search is proved. If it finds none, the plain search is
//!   asked, with the budget anew: it is proved by itself, and the clauses on what is unknown are
//!   its own.
//! - The winner of a certificate that is too long is told by the plain search alone. The checker
//!   takes certificates that can be written, so a longer one that `hex_found` makes is shown by
//!   nothing, and the answer is what the plain search says, mostly that it is unknown.
//! - In the plain search a `put` stands before every line, so the lines of a failed try are dropped
//!   by length. Both players' lines are kept until the winner is known, and swapped at each level.
//!   Lines for which a certificate has no room are counted.
//! - A budget of 0 is always below the positions needed.
//! - Wrong bodies that stand as no edit, with what refuses them: no certificate, or one for the
//!   other claim (`won`, by `Certifies`); a ledger that isn't cut back (`back`); no plain search
//!   (`unknown`); too long though the lines fit (`too_long`).
#![tactic(auto)]

mod additions;
mod answers;
mod laws;
mod ledgers;
mod plain_answer;
mod plain_search;
mod refusals;
mod solver;

pub use answers::Solved;
pub use laws::{few_cells_are_nine, first_implies_wins, positions_are_bounded};
pub use refusals::Memory;
pub use solver::solve;

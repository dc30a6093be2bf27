//! Certificates that are found: a search says who wins, a certificate is made of what it found, and
//! what is answered is what the checker accepted.
//!
//! **A noun.** A certificate is *found* if it has the version that its lines need, is accepted, is
//! of the board that was asked, and claims that its player wins with this mover.
//!
//! **A caller** asks [`find`], and gets a certificate or nothing, and how many states were entered:
//!
//! ```text
//! let findings = find(alloc, &board, mover, budget, most)?;
//! match findings.found {
//!     Some(Found { cert, carrier }) => ..
//! ```
//!
//! [`certified`] is its last step, for a certificate from anywhere. What comes before, without the
//! check, is `cert_draft::seek`.
//!
//! **What is proved.** [`find`] and [`certified`] answer certificates that are found
//! (specs/Found.antt), so that their player wins: by `cert_check`, whatever the search said; and
//! the carriers of what they claim. Those of [`find`] have at most so many lines. That [`find`]
//! counts at most the budget of states, whatever it finds, and names an empty cell if it names one
//! as the best; and that each call is safe and ends.
//!
//! **What is only tested, or not said.** That something is found, how soon, and by how many lines;
//! that a cell is named, and which; that each state is counted; that calls get their memory. A body
//! of [`find`] or [`certified`] that never finds a certificate, or of any call that memory ran out,
//! is proved, and refused by the tests (board_tests, of_hex_found).
//!
//! **Limits.** Those of `cert_draft` and `win_cert`.
//!
//! **Why so.** Find, then check: the search needs no proof, and can change without a promise.
#![tactic(auto)]

mod certificates;
mod refusals;

pub use certificates::{Findings, Found, certified, find};
pub use refusals::Memory;

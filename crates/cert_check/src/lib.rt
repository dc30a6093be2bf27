//! The checker of certificates.
//!
//! **Nouns.** Those of `win_cert`. A *verdict* (`win_cert::Verdict`) is what the checker answers:
//! yes with the claim and the carrier of its entry, or no with the number of a line and the reason
//! against it (`win_cert::Reason`).
//!
//! **A caller** checks a certificate by [`check`]:
//!
//! ```text
//! match check(alloc, &cert)? {
//!     Verdict::Yes { claim, carrier } => ..
//!     Verdict::No { line, reason } => ..
//! }
//! ```
//!
//! **What is proved.** The verdict is the one of `win_cert`'s definition (specs/Verdicts.antt
//! there): yes exactly if the certificate is accepted, else no with the first line or claim against
//! which there is a reason, and the first reason. If it is yes, the player wins.
//!
//! **What is only tested, or not said.** That [`check`] gets its memory, and its speed.
//!
//! **Limits.** Those of `win_cert`. [`check`] takes room for an entry a line, and for the elements
//! of one scope.
//!
//! **Why so.**
//!
//! - The checker takes the room for all entries at its start (48 bytes a line, 9.6 MB for 200,000
//!   lines), so that no growth copies them. It numbers the elements of the board once for each
//!   scope.
#![tactic(auto)]

mod chains;
mod checkers;
mod checking;
mod given;
mod lifting;
mod named;
mod reading;
mod refusals;
mod scopes;

pub use checking::check;
pub use refusals::Memory;

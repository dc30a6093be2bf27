//! One turn, from its board to its cell: planned, and searched if its plan is no win.
//!
//! **A caller** says on which board, with whom to move, and after how many turns, and with which
//! settings, and gets the turn that is owed there:
//!
//! ```text
//! let turn = decided_turn(rt, alloc, board, colour, turns, &knobs, means, &gate, &mut kept)?;
//! ```
//!
//! What the look-ahead finds is kept for the next turn, as long as the caller keeps it
//! ([`KeptLook`]).
//!
//! **What is proved.** The turn is the one that a session with these settings owes
//! (specs/Owed.antt): it is good, and it has this board, this player and this number. With one
//! worker its tree, if it has one, is that of the sequential search; if no connections are looked
//! for, it has a tree.
//!
//! **What is only tested, or not said.** That memory suffices, and that workers run side by side.
//! That a win is not searched: such a turn has no tree, but no clause says that none was made.
//!
//! **Limits.** Those of a search: 1 to 64 workers, and the knobs in their ranges.
//!
//! **Why so.**
//!
//! - One call makes a turn for a session, for mode `bench` and for a match. hex_plan knows no
//!   search and search_team no plan, so it is a crate on both. Mode `sim` alone makes its turn from
//!   hex_plan's parts, since its tree is that of a schedule. What the call promises is one word,
//!   `IsOwed`; a session's transcript goes by the test that a turn is the next one (`is_next`),
//!   which has to compute.
#![tactic(auto)]

mod deciding;

pub use deciding::{KeptLook, decided_turn};

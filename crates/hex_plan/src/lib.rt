//! Turns: what the engine plans and decides at each `genmove`, and where the turns go.
//!
//! **Nouns.** A *plan* ([`types::Plan`]) is a win with its certificate, or a search among allowed
//! cells. It rests on the *reports* of both players, sound and closed sets of connections, or on a
//! certificate that the solver found. The *means* ([`Means`]) say which of these are used; what was
//! planned ([`Planned`]) keeps none of the reports. A *threat* ([`Threat`]) is a certificate that
//! the other player wins if he is to place next, with its carrier; the *mustplay region* is the
//! cells that lie in each threat's carrier. A *turn* ([`Turn`]) is a board, the player to move
//! there, its number, what was planned, what a look-ahead found and the closed tree that was
//! searched, if there are such, and the cell that was chosen. An *archive* takes each turn
//! ([`Archive`]). A turn is *good* for a session's knobs if it is what the session owes at that
//! board: the definition `IsGood` of specs/Good.antt.
//!
//! **A caller** asks [`may_move`], plans, searches if the plan is a search, makes the turn and its
//! texts, and hands it to an archive (`decided_turn` of turn_search is this up to the texts). After
//! a look-ahead he plans once more ([`plan_after`]):
//!
//! ```text
//! let planned = plan(alloc, board, colour, means)?;
//! let turn = match planned.allowed() {
//!     None => Turn::won(board, colour, number, planned),
//!     Some(allowed) => {
//!         let shape = turn_shape(board, colour, allowed, &knobs, number);
//!         Turn::searched(search(rt, alloc, &shape, &gate)?, number, planned, None)
//!     }
//! };
//! let texts = turn_texts(alloc, &turn)?;
//! archive.take(turn)?;
//! ```
//!
//! **What is proved.**
//!
//! - The plan ([`plan`], specs/Resting.antt) is a win if the player's own report has an entry
//!   between his two edges. Otherwise it may rest on a certificate that was found: a win by the
//!   cell of its claimed `move`, or, if the other player wins, a search of a lost board with this
//!   threat. Else it is a search: among the cells that lie in the carrier of each semi entry of the
//!   other player between his edges, or, if there is none such and the board is lost, among all
//!   empty cells. Each certificate is accepted, and has the kind and the carrier of its entry.
//! - Whatever a plan rests on (specs/Plans.antt), the certificate of a win is accepted, and so is
//!   that of each threat, with its carrier.
//! - Beside the plan of a lost board may stand a certificate of that: it is accepted, is the other
//!   player's, and claims that he wins whoever places first. Beside no other plan stands one.
//! - After the cell of a win its player wins against every reply ([`certified_moves_win`]). Each
//!   move outside the carrier of a threat loses ([`moves_outside_a_threat_lose`]), and each move on
//!   a lost board ([`lost_boards_lose`]).
//! - After a look-ahead a search may become a win by a certificate too ([`plan_after`]); no other
//!   plan changes.
//! - With a budget of 0 a plan rests on connections alone, or after a look-ahead on the certificate
//!   of a win, and without connections on nothing. It tells how many positions the solver entered:
//!   at most the budget, and as many again after a look-ahead ([`SOLVE_AFTER`] for 0).
//! - The shape of a turn has the board, the player, the allowed cells, and the knobs with the seed
//!   `S + number·2^32` modulo 2^64.
//! - The turns that are made here are good. With one worker, if no connections are looked for, the
//!   cell and the texts of a good turn are determined ([`one_worker_decides`]).
//! - The texts are those of specs/TurnTexts.antt ([`turn_texts`]).
//! - An archive that tells its turns has exactly this turn more at the end; a fault comes only if
//!   its count rose, and then no turn changed. A [`MemArchive`] is at fault exactly if it is full,
//!   [`NoArchive`] never.
//!
//! **What is only tested, or not said.** That [`plan`], [`turn_texts`] and `MemArchive::make` get
//! their memory; which entry a certificate is cut from if several would serve; that beside each
//! plan of a lost board a certificate of it stands (tools/check_lost tries that); that a report
//! has a connection that exists; that a certificate is found, and that each position is counted;
//! what becomes of turns in [`NoArchive`].
//!
//! **Limits.** A count of faults stands still at the greatest value of a `u64`. [`plan`] and
//! [`turn_texts`] take memory, and `MemArchive::make` takes it for all that it will hold; no other
//! call takes any.
//!
//! Source: the mustplay region is this project's own definition.
//!
//! **Why so.**
//!
//! - A turn has a tree if its plan is a search. If connections join the mover's edges the move is
//!   certified, and nothing is searched. The laws of one worker have connections off as a premise,
//!   since the cell of a certified move depends on which connection was cut.
//! - A threat is a certificate and a carrier. The claim gives the carrier too; it stands beside it
//!   so that `mustplay` prints it without a check. `IsCertifiedThreat` ties both to the verdict of
//!   the checker, `IsThreat` to one semi entry too.
//! - A certificate that was found wins by its claimed line, a `move`: the board of this line's
//!   scope is that with the stone. If it claims another line the plan rests on connections.
//! - A cell that the look-ahead knows to win has a certificate if the solver has one of the board
//!   after the stone, where less is to be shown than before it. Of this one is made by two lines
//!   `put` and a `move` more, and checked, so nothing is proved of how. Such a turn keeps nothing
//!   of the look-ahead: its plan has no allowed cells, of which the rows would be.
//! - The certificate of a loss is made, then checked, so nothing is proved of how it is made. It is
//!   cut from a full entry between the edges if there is one: of two or three threats that have no
//!   cell in common the report makes one. Else it is an `or` of the threats that are needed. It is
//!   made of lost boards alone, so other moves pay nothing. Of a board that the solver shows to be
//!   lost it is a copy of the threat's, so that texts need not know where it came from.
//! - What the look-ahead found stands in the turn, so that a tree's cells are known from the turn:
//!   the allowed ones, or the one that was chosen.
//! - Threats are one for each carrier. Two semi entries of one pair never have one carrier, but no
//!   clause of conn_store says so. They are found one after another, each time the least carrier
//!   from a bound on, so that no list is sorted.
//! - A win is by a semi entry if there is one, the first by number, since its certificate is
//!   shorter. No clause says which.
//! - [`IsGood`](specs/Good.antt) says that no stones of the turn's board overlap or lie off it,
//!   since of a win no search's shape says it.
#![tactic(auto)]

mod after_stone;
mod archives;
mod collecting;
mod edges;
mod in_memory;
mod laws;
mod look_texts;
mod losses;
mod mustplay_texts;
mod openings;
mod planning;
mod plans;
mod refusals;
mod regions;
mod report_texts;
mod settings;
mod shapes;
mod solving;
mod taking_back;
mod texts;
mod threats;
mod turns;
pub mod types;
mod winning;

pub use after_stone::plan_after;
pub use archives::{Archive, NoArchive};
pub use in_memory::MemArchive;
pub use laws::{
    certified_moves_win, lost_boards_lose, moves_outside_a_threat_lose, one_worker_decides,
};
pub use openings::may_move;
pub use planning::plan;
pub use plans::Planned;
pub use refusals::{ArchiveFault, Memory};
pub use settings::{Means, SOLVE_AFTER};
pub use shapes::turn_shape;
pub use texts::{TurnTexts, turn_texts};
pub use threats::{Threat, Threats};
pub use turns::Turn;

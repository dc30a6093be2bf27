//! Plans by certificates that are found.

ghost use Rattle.std.specs.Prelude.{◌≡◌, ◌≢◌, ◌≤◌, ◌∷◌, [], IfOk, IfSome, None};
ghost use Rattle.hex_found.specs.Found.{IsFound};
ghost use Rattle.hex_plan.specs.Planning.{IsFoundFor};
ghost use Rattle.hex_plan.specs.Plans.{IsLossOf, IsWin};
ghost use Rattle.hex_plan.specs.Resting.{IsFoundPlan};

use super::refusals::Memory;
use super::regions::empties_of;
use super::threats::{Threat, Threats};
use super::types::Plan;
use hex_board::Board;
use hex_cells::Colour;
use hex_found::{Findings, Found, find};
use std::alloc::Global;
use win_cert::{Cert, MOST_LINES, claimed_move, copy};

/// A plan by a certificate that was found.
#[derive(Drop)]
pub(crate) struct FoundPlan {
    pub plan: Plan,
    /// The certificate, if it is one of a loss.
    pub loss: Option<Cert>,
}

/// What came of asking the solver for a plan.
#[derive(Drop)]
pub(crate) struct Attempt {
    /// The plan by a certificate, if one was found.
    pub plan: Option<FoundPlan>,
    /// How many positions were entered.
    pub entered: u64,
}

/// The plan by a certificate of who wins with `colour` to move, if one of at most [`MOST_LINES`]
/// lines is found by entering at most `budget` positions; none is looked for with a budget of 0. If
/// the player to move wins, it is a win by the cell of the claimed `move`, and none if no `move` is
/// claimed; if the other player does, a search of a lost board with this threat, and its
/// certificate is that of the loss.
///
/// It refuses only if memory runs out. No clause says when one is found: a body that never answers
/// a plan is proved.
pub(crate) fn found_plan(
    alloc: Global,
    board: &Board,
    colour: Colour,
    budget: u32,
) -> Result<Attempt, Memory>
    ensures found { IfOk result (λ r. IfSome r.plan
        (λ found. IsFoundFor board.now colour budget found.plan found.loss)) }
    ensures within { IfOk result (λ r. r.entered ≤ budget) }
{
    if budget == 0 {
        return Ok(Attempt {
            plan: None,
            entered: 0,
        });
    }
    let findings = find(alloc, board, colour, u64::from(budget), MOST_LINES)?;
    let Findings { found, entered, .. } = findings;
    let plan = plan_by(alloc, found, board, colour)?;
    Ok(Attempt { plan, entered })
}

// The plan by a certificate, if one was found.
fn plan_by(
    alloc: Global,
    found: Option<Found>,
    board: &Board,
    colour: Colour,
) -> Result<Option<FoundPlan>, Memory>
    requires { IfSome found (IsFound board.now colour) }
    ensures plan { IfOk result (λ f. IfSome f (λ found. IsFoundPlan board.now colour found.plan)) }
    ensures loss { IfOk result
        (λ f. IfSome f (λ found. IsLossOf board.now colour found.plan found.loss)) }
{
    match found {
        None => Ok(None),
        Some(found) if found.cert.player == colour => Ok(win_by(found, board, colour)),
        Some(found) => Ok(Some(loss_by(alloc, found, board, colour)?)),
    }
}

/// The win by a certificate of the player to move that was found, if it claims a `move`.
pub(crate) fn win_by(found: Found, board: &Board, colour: Colour) -> Option<FoundPlan>
    requires found { IsFound board.now colour found }
    requires player { found.cert.player ≡ colour }
    ensures plan { IfSome result (λ found. IsFoundPlan board.now colour found.plan) }
    ensures win { IfSome result (λ found. IsWin found.plan) }
    ensures loss { IfSome result (λ found. found.loss ≡ None) }
{
    let cert = found.cert;
    match claimed_move(&cert) {
        Some(cell) => Some(FoundPlan {
            plan: Plan::Win { cert, cell },
            loss: None,
        }),
        None => None,
    }
}

// The search of a board that is lost by a certificate of the other player that was found.
fn loss_by(alloc: Global, found: Found, board: &Board, colour: Colour) -> Result<FoundPlan, Memory>
    requires found { IsFound board.now colour found }
    requires player { found.cert.player ≢ colour }
    ensures plan { IfOk result (λ found. IsFoundPlan board.now colour found.plan) }
    ensures loss { IfOk result (λ found. IsLossOf board.now colour found.plan found.loss) }
{
    let Found { cert, carrier } = found;
    let loss = copy(alloc, &cert)?;
    let threats = one_threat(alloc, Threat { cert, carrier })?;
    Ok(FoundPlan {
        plan: Plan::Search {
            threats,
            allowed: empties_of(board),
            lost: true,
        },
        loss: Some(loss),
    })
}

// A list of one threat.
fn one_threat(alloc: Global, threat: Threat) -> Result<Threats, Memory>
    ensures { IfOk result (λ threats. threats ≡ threat ∷ []) }
{
    let mut threats = Vec::new(alloc);
    threats.push(threat)?;
    Ok(Threats::of(threats))
}

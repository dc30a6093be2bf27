//! What is planned on a board.

ghost use Rattle.std.specs.Prelude.{◌≡◌, ◌≤◌, ℕ, IfOk, None, true, false};
ghost use Rattle.hex_board.specs.Joined.{winner_of};
ghost use Rattle.hex_board.specs.Positions.{is_empty_at};
ghost use Rattle.hsearch.specs.Closed.{IsReportOf};
ghost use Rattle.hex_plan.specs.Plans.{AllowsEmpties, IsFree, IsLossOf, IsPlanned, unlooked};
ghost use Rattle.hex_plan.specs.Resting.{IsConnected, IsEdgeEntry, RestsOn};
ghost use Rattle.hex_plan.specs.Turns.{CanBeWritten};
ghost use Rattle.hex_board.specs.Elements.{are_joined};
ghost use Rattle.win_cert.specs.Cuts.{HasEdgeEntryAt};
ghost use Rattle.conn_store.specs.declared.entries.Entry.{Entry};

use super::collecting::threats_of;
use super::edges::edge_entry;
use super::losses::loss_where;
use super::plans::Planned;
use super::refusals::Memory;
use super::regions::{empties_of, mustplay_region};
use super::settings::Means;
use super::solving::{Attempt, FoundPlan, found_plan};
use super::threats::Threats;
use super::types::Plan;
use super::winning::winning_cell;
use hex_board::Board;
use hex_cells::Colour;
use hsearch::{Report, connect};
use std::alloc::Global;
use win_cert::cut;

/// What is planned with these means on the board for the player to move, before a look-ahead. No
/// player is joined there, and a cell is empty.
///
/// Without a look for connections, the plan is a search among all empty cells. With it, the plan is
/// a win if the player's report has an entry between his two edges. Otherwise a certificate of who
/// wins is looked for by entering at most `solve` positions. If the player does, the plan is a win
/// by it; if the other one does, a search among all empty cells of a lost board. Else it is a
/// search among the empty cells that lie in the carrier of each threat of the other player. The
/// plan tells how many positions were entered. Beside the plan of a lost board stands a certificate
/// of that, if what was made of the threats is accepted.
///
/// It refuses only if memory runs out.
pub fn plan(alloc: Global, board: &Board, colour: Colour, means: Means) -> Result<Planned, Memory>
    requires nobody { winner_of board.now ≡ None }
    requires room { (k : ℕ) × (is_empty_at board.now k ≡ true) }
    ensures rests { IfOk result
        (λ planned. RestsOn board.now colour means.hsearch means.solve planned.plan) }
    ensures planned { IfOk result (IsPlanned board.now colour means) }
    ensures allowed { IfOk result (λ planned. AllowsEmpties board.now planned.plan) }
    ensures first { IfOk result (IsPlanned board.now colour (unlooked means)) }
    ensures written { IfOk result (λ planned. CanBeWritten planned.loss) }
{
    if !means.hsearch {
        return Ok(free_plan(alloc, board));
    }
    board.keeps();
    let own = connect(alloc, board, colour)?;
    match edge_entry(&own) {
        Some(number) => win_plan(alloc, own, number),
        None => unjoined_plan(alloc, board, colour, own, means.solve),
    }
}

// The plan if the player's own report has no entry between his two edges: by a certificate that is
// found, or to search.
fn unjoined_plan(
    alloc: Global,
    board: &Board,
    colour: Colour,
    own: Report,
    solve: u32,
) -> Result<Planned, Memory>
    requires nobody { winner_of board.now ≡ None }
    requires own { IsReportOf board.now colour own }
    requires unjoined { (a : Entry) → ¬ (IsEdgeEntry own a) }
    ensures rests { IfOk result (λ planned. RestsOn board.now colour true solve planned.plan) }
    ensures within { IfOk result (λ planned. planned.entered ≤ solve) }
    ensures loss { IfOk result (λ planned. IsLossOf board.now colour planned.plan planned.loss) }
{
    let Attempt { plan, entered } = found_plan(alloc, board, colour, solve)?;
    match plan {
        None => search_plan(alloc, board, colour, own, entered),
        Some(FoundPlan { plan, loss }) => Ok(Planned {
            plan,
            loss,
            entered,
        }),
    }
}

// The plan without a look for connections.
fn free_plan(alloc: Global, board: &Board) -> Planned
    ensures free { IsFree board.now result }
    ensures none { result.entered ≡ 0 }
    ensures loss { result.loss ≡ None }
{
    Planned {
        plan: Plan::Search {
            threats: Threats::of(Vec::new(alloc)),
            allowed: empties_of(board),
            lost: false,
        },
        loss: None,
        entered: 0,
    }
}

// The plan to win by the entry with this number of the report of the player, who is not joined.
fn win_plan(alloc: Global, own: Report, number: u32) -> Result<Planned, Memory>
    requires apart { are_joined own.elements ≡ false }
    requires entry { HasEdgeEntryAt own number }
    ensures connected { IfOk result
        (λ planned. IsConnected own.elements.board own.elements.player planned.plan) }
    ensures none { IfOk result (λ planned. planned.entered ≡ 0) }
    ensures loss { IfOk result (λ planned. planned.loss ≡ None) }
{
    let cert = cut(alloc, &own, number)?;
    let cell = winning_cell(&own, number);
    own.keeps();
    Ok(Planned {
        plan: Plan::Win { cert, cell },
        loss: None,
        entered: 0,
    })
}

// The plan to search, if the player's own report has no entry between his two edges, and the solver
// entered so many positions without finding a plan.
fn search_plan(
    alloc: Global,
    board: &Board,
    colour: Colour,
    own: Report,
    entered: u64,
) -> Result<Planned, Memory>
    requires nobody { winner_of board.now ≡ None }
    requires own { IsReportOf board.now colour own }
    requires unjoined { (a : Entry) → ¬ (IsEdgeEntry own a) }
    ensures connected { IfOk result (λ planned. IsConnected board.now colour planned.plan) }
    ensures same { IfOk result (λ planned. planned.entered ≡ entered) }
    ensures loss { IfOk result (λ planned. IsLossOf board.now colour planned.plan planned.loss) }
{
    let other = connect(alloc, board, colour.other())?;
    let threats = threats_of(alloc, &other)?;
    let region = mustplay_region(board, threats.as_slice());
    let loss = loss_where(alloc, region.lost, board, colour, &other)?;
    Ok(Planned {
        plan: Plan::Search {
            threats,
            allowed: region.allowed,
            lost: region.lost,
        },
        loss,
        entered,
    })
}

//! Wins by the stone of a look-ahead, which the solver certifies.

ghost use Rattle.std.specs.Prelude.{◌≡◌, ◌⊎◌, ◌≤◌, ℕ, IfOk, IfSome};
ghost use Rattle.hex_plan.specs.Plans.{IsPlanned, IsSearchAmong, IsWin, unlooked};
ghost use Rattle.hex_plan.specs.Resting.{IsFoundPlan};
ghost use Rattle.hex_plan.specs.Turns.{CanBeWritten};

use super::plans::Planned;
use super::refusals::Memory;
use super::settings::Means;
use super::solving::{Attempt, FoundPlan, win_by};
use super::taking_back::{MORE_LINES, taken_back};
use hex_board::Board;
use hex_cells::{Cell, Colour};
use hex_found::{Findings, Found, certified, find};
use look_ahead::{Looked, Outcome};
use std::alloc::Global;
use win_cert::MOST_LINES;

/// What is planned after a look-ahead, if these means have one, where a search was planned before.
/// If the cell that it chose is known to win, the solver is asked of the board after this stone, by
/// entering as many positions as `solve` says, or [`SOLVE_AFTER`](crate::SOLVE_AFTER) if that is 0.
/// If it has a certificate that the player wins there, of which comes one of the board before the
/// stone that is accepted, the plan is a win by this. Else it is the one before. It tells how many
/// positions were entered in all.
///
/// It refuses only if memory runs out. No clause says when the plan is a win: a body that answers
/// the plan before is proved, and refused by the tests.
pub fn plan_after(
    alloc: Global,
    board: &Board,
    colour: Colour,
    means: Means,
    planned: Planned,
    looked: &Option<Looked>,
) -> Result<Planned, Memory>
    requires planned { IsPlanned board.now colour (unlooked means) planned }
    requires search { (allowed : ℕ) × IsSearchAmong planned.plan allowed }
    requires written { CanBeWritten planned.loss }
    ensures planned { IfOk result (IsPlanned board.now colour means) }
    ensures same { IfOk result (λ new. IsWin new.plan ⊎ (new.plan ≡ planned.plan)) }
    ensures found { IfOk result
        (λ new. IsFoundPlan board.now colour new.plan ⊎ (new.plan ≡ planned.plan)) }
    ensures written { IfOk result (λ new. CanBeWritten new.loss) }
{
    if !means.looks_ahead() {
        return Ok(planned);
    }
    let Some(cell) = sure_cell(looked) else {
        return Ok(planned);
    };
    board.keeps();
    let Attempt {
        plan: found,
        entered: more,
    } = win_after(alloc, board, colour, cell, means.most_after())?;
    let entered = planned.entered + more;
    match found {
        None => Ok(Planned {
            plan: planned.plan,
            loss: planned.loss,
            entered,
        }),
        Some(FoundPlan { plan, .. }) => Ok(Planned {
            plan,
            loss: None,
            entered,
        }),
    }
}

// The cell that a look-ahead chose, if it is known to win.
fn sure_cell(looked: &Option<Looked>) -> Option<Cell> {
    let looked = looked.as_ref()?;
    let cell = looked.cell();
    for row in looked.rows() {
        if row.cell == cell && row.known == Some(Outcome::Won) {
            return Some(cell);
        }
    }
    None
}

// What comes of asking the solver, with so many positions, of the board after the player's stone on
// the cell, if this is empty.
fn win_after(
    alloc: Global,
    board: &Board,
    colour: Colour,
    cell: Cell,
    budget: u32,
) -> Result<Attempt, Memory>
    ensures plan { IfOk result
        (λ r. IfSome r.plan (λ found. IsFoundPlan board.now colour found.plan)) }
    ensures win { IfOk result (λ r. IfSome r.plan (λ found. IsWin found.plan)) }
    ensures within { IfOk result (λ r. r.entered ≤ budget) }
{
    if !board.empties().has(cell) {
        return Ok(Attempt {
            plan: None,
            entered: 0,
        });
    }
    let mut after = *board;
    after.place(colour, cell);
    let most = MOST_LINES - MORE_LINES;
    let findings = find(alloc, &after, colour.other(), u64::from(budget), most)?;
    let Findings { found, entered, .. } = findings;
    let plan = win_before(alloc, found, board, colour, cell)?;
    Ok(Attempt { plan, entered })
}

// The win on the board by a stone on the cell, after which the player wins by a certificate, if one
// was found.
fn win_before(
    alloc: Global,
    found: Option<Found>,
    board: &Board,
    colour: Colour,
    cell: Cell,
) -> Result<Option<FoundPlan>, Memory>
    ensures plan { IfOk result (λ f. IfSome f (λ found. IsFoundPlan board.now colour found.plan)) }
    ensures win { IfOk result (λ f. IfSome f (λ found. IsWin found.plan)) }
{
    let Some(after) = found else {
        return Ok(None);
    };
    let draft = taken_back(alloc, &after.cert, board, cell)?;
    match certified(alloc, board, colour, draft)? {
        Some(found) if found.cert.player == colour => Ok(win_by(found, board, colour)),
        _ => Ok(None),
    }
}

//! The mustplay region: where a player who is threatened has to play.

ghost use Rattle.std.specs.Prelude.{◌≡◌, ℕ, ◌↔◌, true};
ghost use Rattle.hex_cells.specs.Sets.{has};
ghost use Rattle.hex_plan.specs.Plans.{IsInEach};
ghost use Rattle.hex_plan.specs.Resting.{IsMustplay};
ghost use Rattle.tree_words.specs.Complete.{HasEmpties};

use super::threats::Threat;
use hex_board::Board;
use hex_cells::CellSet;

/// Where a player who is threatened has to play.
#[derive(Clone, Copy)]
pub(crate) struct Region {
    pub allowed: CellSet,
    pub lost: bool,
}

/// The empty cells that lie in each threat's carrier; if there is none, the board is lost, and all
/// empty cells are allowed.
pub(crate) fn mustplay_region(board: &Board, threats: &[Threat]) -> Region
    ensures { IsMustplay board.now threats.now result.allowed result.lost }
{
    let common = common_cells(board, threats);
    if common.is_empty() {
        Region {
            allowed: empties_of(board),
            lost: true,
        }
    } else {
        Region {
            allowed: common,
            lost: false,
        }
    }
}

// The empty cells that lie in each threat's carrier.
fn common_cells(board: &Board, threats: &[Threat]) -> CellSet
    ensures { (k : ℕ) → (has result k ≡ true) ↔ IsInEach board.now threats.now k }
{
    let mut cells = board.empties();
    'threats: for threat in threats {
        cells = cells.meet(threat.carrier);
    }
    cells
}

/// The empty cells of the board.
pub(crate) fn empties_of(board: &Board) -> CellSet
    ensures { HasEmpties result board.now }
{
    let empties = board.empties();
    empties.keeps();
    empties
}

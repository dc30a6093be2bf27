//! Who wins after a stone, as far as H-search shows it.

ghost use Rattle.std.specs.Prelude.{◌≡◌, ℕ, IfOk, true, false};
ghost use Rattle.hex_cells.specs.Colours.{other_of};
ghost use Rattle.hex_board.specs.Elements.{are_joined};
ghost use Rattle.hex_board.specs.Wins.{Wins};
ghost use Rattle.look_ahead.specs.Looked.{IsTrueOf};
ghost use Rattle.look_ahead.specs.Shown.{IsAcross, IsSureAcross};

use super::refusals::Memory;
use super::rows::Outcome;
use conn_store::{Entry, Kind, connected_edges_win};
use hex_board::{Board, wins_go_on};
use hex_cells::{Cell, Colour};
use hsearch::{Report, connect};
use std::alloc::Global;

/// Who wins after the player's stone on the cell, if it is who is said to, and if stones or a
/// report of H-search show it.
pub(crate) fn shown(
    alloc: Global,
    board: &Board,
    colour: Colour,
    cell: Cell,
    said: Outcome,
) -> Result<Option<Outcome>, Memory>
    ensures { IfOk result (IsTrueOf board.now colour cell) }
{
    if !board.empties().has(cell) {
        return Ok(None);
    }
    let mut after = *board;
    after.place(colour, cell);
    let other = colour.other();
    match said {
        Outcome::Won => {
            if wins_second(alloc, &after, colour)? {
                return Ok(Some(Outcome::Won));
            }
        }
        Outcome::Lost => {
            if wins_first(alloc, &after, other)? {
                return Ok(Some(Outcome::Lost));
            }
        }
    }
    Ok(None)
}

// Whether it is shown that the player wins with the other one to move.
fn wins_second(alloc: Global, board: &Board, player: Colour) -> Result<bool, Memory>
    ensures { IfOk result (λ yes. yes ≡ true → Wins player board.now (other_of player)) }
{
    wins_go_on();
    connected_edges_win();
    if board.joined(player) {
        return Ok(true);
    }
    let report = connect(alloc, board, player)?;
    Ok(is_sure(&report, Kind::Full))
}

// Whether it is shown that the player wins with himself to move.
fn wins_first(alloc: Global, board: &Board, player: Colour) -> Result<bool, Memory>
    ensures { IfOk result (λ yes. yes ≡ true → Wins player board.now player) }
{
    wins_go_on();
    connected_edges_win();
    if board.joined(player) {
        return Ok(true);
    }
    let report = connect(alloc, board, player)?;
    Ok(is_sure(&report, Kind::Semi))
}

// Whether the report of a player who isn't joined has an entry of that kind between his two edges.
fn is_sure(report: &Report, kind: Kind) -> bool
    requires { are_joined report.now.elements ≡ false }
    ensures { result ≡ true → IsSureAcross kind report.now.elements }
{
    let store = report.store();
    // The stones lie on the board.
    let _stones = store.board().stones(store.colour());
    'entries: for entry in store.entries() {
        if is_across(entry, kind) {
            return true;
        }
    }
    false
}

// Whether the entry is one of that kind, and of the elements of the edges of a player who isn't
// joined.
fn is_across(entry: &Entry, kind: Kind) -> bool
    ensures { result ≡ true → IsAcross kind entry.now }
{
    entry.kind == kind && entry.x == 0 && entry.y == 1
}

//! Certificates that a board is lost, by the other player's report.

ghost use Rattle.std.specs.Prelude.{◌≡◌, ◌≢◌, ◌<◌, ◌≤◌, All, false, IfOk, IfSome, length};
ghost use Rattle.conn_store.specs.declared.entries.TheConstants.{MOST_SEMI};
ghost use Rattle.hex_board.specs.Elements.{are_joined};
ghost use Rattle.hex_found.specs.Found.{Certifies, IsFound};
ghost use Rattle.hex_cells.specs.Colours.{other_of};
ghost use Rattle.hex_plan.specs.Planning.{AreWithin, IsLossWhere};

use super::refusals::Memory;
use conn_store::{Held, Kind, Store};
use hex_board::Board;
use hex_cells::{CellSet, Colour};
use hex_found::{Found, certified};
use hsearch::Report;
use std::alloc::Global;
use win_cert::{Cert, cut, draft_or, edge_numbers, version_for};

/// A certificate that the board is lost for the player to move, if it is `lost` and one that is
/// made of the other player's report is accepted. It refuses only if memory runs out. No clause
/// says when there is one: a body that never answers one is proved, and refused by the tests.
pub(crate) fn loss_where(
    alloc: Global,
    lost: bool,
    board: &Board,
    colour: Colour,
    other: &Report,
) -> Result<Option<Cert>, Memory>
    requires { are_joined other.now.elements ≡ false }
    ensures { IfOk result (IsLossWhere board.now colour lost) }
{
    if lost {
        loss_by(alloc, board, colour, other)
    } else {
        Ok(None)
    }
}

// What is made of the report, if it is accepted as a certificate that the other player wins
// whoever places first.
fn loss_by(
    alloc: Global,
    board: &Board,
    colour: Colour,
    other: &Report,
) -> Result<Option<Cert>, Memory>
    requires { are_joined other.now.elements ≡ false }
    ensures { IfOk result (λ loss. IfSome loss (Certifies board.now colour (other_of colour))) }
{
    let draft = draft_of(alloc, other)?;
    match certified(alloc, board, colour, draft)? {
        None => Ok(None),
        Some(found) if found.cert.player == colour => Ok(None),
        Some(found) => Ok(Some(shown_by(found, board, colour))),
    }
}

// The certificate of the other player that was found.
fn shown_by(found: Found, board: &Board, colour: Colour) -> Cert
    requires found { IsFound board.now colour found }
    requires player { found.cert.player ≢ colour }
    ensures { Certifies board.now colour (other_of colour) result }
{
    found.cert
}

// A draft of a certificate that the player of the report, who is not joined, wins whoever places
// first: by a full entry between his edges, if there is one, else by an `or` of semi ones that have
// no cell in common, if there are such. It has the version that its lines need.
fn draft_of(alloc: Global, report: &Report) -> Result<Cert, Memory>
    requires { are_joined report.now.elements ≡ false }
{
    let store = report.store();
    let full = edge_numbers(store, Kind::Full);
    if 0 < full.count {
        let mut cert = cut(alloc, report, full.at[0])?;
        cert.version = version_for(cert.lines.as_slice());
        return Ok(cert);
    }
    let semi = edge_numbers(store, Kind::Semi);
    let needed = needed_of(alloc, store, &semi)?;
    Ok(draft_or(alloc, report, needed.as_slice())?)
}

// The numbers without those that are not needed: the carriers of the entries that are kept before,
// and of those after, have no cell in common anyway.
fn needed_of(alloc: Global, store: &Store, held: &Held) -> Result<Vec<u32>, Memory>
    requires count { held.now.count ≤ MOST_SEMI }
    requires within { AreWithin store.now.entries held.now }
    ensures { IfOk result (λ needed. All (λ n. n < length store.now.entries) needed.items) }
{
    let count = held.count as usize;
    let mut needed = Vec::new(alloc);
    'places: for place in 0..count {
        let before = common_of(store, needed.as_slice());
        let after = common_of(store, &held.at[place + 1..count]);
        if !before.meet(after).is_empty() {
            needed.push(held.at[place])?;
        }
    }
    Ok(needed)
}

// The empty cells in the carriers of all entries with these numbers.
fn common_of(store: &Store, numbers: &[u32]) -> CellSet {
    let mut cells = store.board().empties();
    for &number in numbers {
        if let Some(entry) = store.entries().get(number as usize) {
            cells = cells.meet(entry.carrier);
        }
    }
    cells
}

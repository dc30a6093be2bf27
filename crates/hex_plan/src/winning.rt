//! The cell by which an entry between the player's two edges wins.

ghost use Rattle.std.specs.Prelude.{◌≡◌, ℕ, ◌<◌, Some, false};
ghost use Rattle.std.specs.List.{slice_get};
ghost use Rattle.hex_board.specs.Elements.{are_joined};
ghost use Rattle.conn_store.specs.Rules.{IsChain};
ghost use Rattle.conn_store.specs.declared.entries.Entry.{Entry};
ghost use Rattle.conn_store.specs.declared.entries.Kind.{Kind};
ghost use Rattle.hex_plan.specs.Resting.{IsMiddle, IsWinningCell};
ghost use Rattle.win_cert.specs.Cuts.{HasEdgeEntryAt, IsEdgeEntryAt};

use conn_store::{Cause, Entry, Kind, Store};
use hex_cells::Cell;
use hsearch::Report;

/// The cell by which the entry with this number, between the edges of the player, who is not
/// joined, wins: the middle of a semi one, the least cell of the carrier of a full one.
pub(crate) fn winning_cell(report: &Report, number: u32) -> Cell
    requires apart { are_joined report.now.elements ≡ false }
    requires entry { HasEdgeEntryAt report.now number }
    ensures { (a : Entry) → IsEdgeEntryAt report.now number a
        → IsWinningCell report.now a a.kind result }
{
    let store = report.store();
    // The player's stones lie on the board.
    let _stones = store.board().stones(store.colour());
    let entry = store.entries()[number as usize];
    match entry.kind {
        Kind::Full => entry.carrier.least().unwrap(),
        Kind::Semi => middle_of(store, number as usize),
    }
}

// The empty cell over which a semi entry of the store follows.
fn middle_of(store: &Store, number: usize) -> Cell
    requires { (a : Entry) × (slice_get store.now.entries number ≡ Some a) × (a.kind ≡ Kind.Semi) }
    ensures { (a : Entry) → slice_get store.now.entries number ≡ Some a
        → IsMiddle store.now a result }
{
    let entries = store.entries();
    match entries[number].cause {
        Cause::AndEmpty(i, j) => {
            let middle = shared(&entries[i as usize], &entries[j as usize]);
            store.elements().cell(middle).unwrap()
        }
        _ => unreachable!(),
    }
}

// The element that two entries share, if their other elements differ.
fn shared(a: &Entry, b: &Entry) -> u8
    requires first { a.now.x < a.now.y }
    requires second { b.now.x < b.now.y }
    ensures { (x u y : ℕ) → IsChain a.now b.now x u y → result ≡ u }
{
    if a.x == b.x || a.x == b.y { a.x } else { a.y }
}

//! An entry of a report between the player's two edges.

ghost use Rattle.std.specs.Prelude.{◌≡◌, false, IfNone, IfSome};
ghost use Rattle.hex_board.specs.Elements.{are_joined};
ghost use Rattle.conn_store.specs.declared.entries.Entry.{Entry};
ghost use Rattle.hex_plan.specs.Resting.{IsEdgeEntry};
ghost use Rattle.win_cert.specs.Cuts.{HasEdgeEntryAt};

use conn_store::Kind;
use hsearch::Report;
use win_cert::edge_numbers;

/// The number of an entry between the edges of the player, who is not joined: a semi one, if there
/// is one. `None` exactly if there is none of either kind.
pub(crate) fn edge_entry(report: &Report) -> Option<u32>
    requires { are_joined report.now.elements ≡ false }
    ensures some { IfSome result (HasEdgeEntryAt report.now) }
    ensures none { IfNone result ((a : Entry) → ¬ (IsEdgeEntry report.now a)) }
{
    let store = report.store();
    let semi = edge_numbers(store, Kind::Semi);
    if 0 < semi.count {
        return Some(semi.at[0]);
    }
    let full = edge_numbers(store, Kind::Full);
    if 0 < full.count {
        return Some(full.at[0]);
    }
    None
}

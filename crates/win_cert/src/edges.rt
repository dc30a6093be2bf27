//! The entries of a store between the player's two edges.

ghost use Rattle.std.specs.Prelude.{◌≡◌, ◌≤◌, false};
ghost use Rattle.hex_board.specs.Elements.{are_joined};
ghost use Rattle.conn_store.specs.declared.entries.TheConstants.{MOST_SEMI};
ghost use Rattle.win_cert.specs.Cuts.{AreEdgeNumbers};

use conn_store::{Held, Kind, Store};

/// The numbers of the store's entries of a kind between the edges of the player, who is not joined.
pub fn edge_numbers(store: &Store, kind: Kind) -> Held
    requires { are_joined store.now.elements ≡ false }
    ensures few { result.count ≤ MOST_SEMI }
    ensures numbers { AreEdgeNumbers store.now kind result }
{
    // Each entry has the lesser of its elements first.
    store.keeps();
    let elements = store.elements();
    store.held(elements.edge(false), elements.edge(true), kind)
}

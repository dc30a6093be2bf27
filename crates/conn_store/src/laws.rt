//! Laws of what a player is sure of, for those who rest on the truth of entries.

ghost use Rattle.std.specs.Prelude.{ℕ, ◌<◌, ◌^◌};
ghost use Rattle.hex_cells.specs.Colours.{other_of};
ghost use Rattle.hex_cells.specs.declared.board_size.TheConstants.{MOST_CELLS};
ghost use Rattle.hex_board.specs.Elements.{PlayerBoard};
ghost use Rattle.hex_board.specs.Positions.{Position};
ghost use Rattle.hex_board.specs.Wins.{Wins};
ghost use Rattle.conn_store.specs.Entries.{Connects};
ghost use Rattle.conn_store.specs.Laws.{ConnectsInRest, AreOfBoard, IsSubset, IsSureOfEdges};
ghost use Rattle.conn_store.specs.Stores.{AreTrue, IsSound, StoreData};
ghost use Rattle.conn_store.specs.declared.entries.Kind.{Kind};

/// The law of sound stores: on a board, entries of which each is valid and follows by the four
/// rules from earlier ones are true. It does nothing.
pub fn sound_entries_are_true()
    ensures { (d : StoreData) → AreOfBoard d.elements → IsSound d → AreTrue d }
{}

/// The laws of truth. Who is sure if the opponent places first is sure if he does himself.
/// More cells in the carrier keep truth, and so do more stones. With a stone of his on a cell of
/// the carrier the player is sure inside the rest of it. It does nothing.
pub fn truth_goes_on()
    ensures semi { (e : PlayerBoard) (x y s c : ℕ)
        → Connects Kind.Full e x y s c → Connects Kind.Semi e x y s c }
    ensures cells { (kind : Kind) (e : PlayerBoard) (x y s c d : ℕ)
        → IsSubset c d → Connects kind e x y s c → Connects kind e x y s d }
    ensures stones { (kind : Kind) (e : PlayerBoard) (x y s t c : ℕ)
        → IsSubset s t → Connects kind e x y s c → Connects kind e x y t c }
    ensures rest { (e : PlayerBoard) (x y s c : ℕ) → c < 2 ^ MOST_CELLS
        → Connects Kind.Full e x y s c → ConnectsInRest e x y s c }
{}

/// The law of the edges. On a board with the player's stones or more, a player who is sure of
/// linking his edges wins. He does with the opponent to move if he is sure though the opponent
/// places first, and with himself to move if he is sure when he places first. It does nothing.
pub fn connected_edges_win()
    ensures full { (e : PlayerBoard) (p : Position) (c : ℕ)
        → IsSureOfEdges Kind.Full e p c → Wins e.player p (other_of e.player) }
    ensures semi { (e : PlayerBoard) (p : Position) (c : ℕ)
        → IsSureOfEdges Kind.Semi e p c → Wins e.player p e.player }
{}

//! What a certificate claims.

ghost use Rattle.std.specs.Prelude.{◌≡◌, if◌then◌else◌};
ghost use Rattle.hex_cells.specs.Colours.{is_same};

use conn_store::Kind;
use hex_cells::Colour;

/// What is claimed for a winner: that he wins by moving first, or even with the other to move.
pub fn claim_for(winner: Colour, mover: Colour) -> Kind
    ensures { result ≡ (if is_same winner mover then Kind.Semi else Kind.Full) }
{
    if winner == mover {
        Kind::Semi
    } else {
        Kind::Full
    }
}

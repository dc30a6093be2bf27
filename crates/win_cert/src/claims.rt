//! What a certificate claims.

ghost use Rattle.std.specs.Prelude.{ℕ, IfNone, IfSome};
ghost use Rattle.win_cert.specs.Laws.{ClaimsMove};

use super::{Cert, Line};
use hex_cells::Cell;

/// The cell of the claimed line, if that is a `move`. If the certificate is accepted, its player
/// wins by a stone there ([`claimed_moves_win`](crate::claimed_moves_win)).
pub fn claimed_move(cert: &Cert) -> Option<Cell>
    ensures some { IfSome result (ClaimsMove cert.now) }
    ensures none { IfNone result ((k : ℕ) → ¬ (ClaimsMove cert.now k)) }
{
    match cert.lines.as_slice().get(cert.entry as usize) {
        Some(Line::Move(cell, _)) => Some(*cell),
        _ => None,
    }
}

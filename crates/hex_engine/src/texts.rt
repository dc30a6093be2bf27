//! The text of a move.

ghost use Rattle.std.specs.Prelude.{◌≡◌, ◌*◌, ◌<◌, ◌≤◌, length, IfOk};
ghost use Rattle.hex_cells.specs.Vertices.{vertex_of};

use hex_cells::{Cell, Size, VERTEX_LEN, write_vertex};
use htp_line::HtpText;
use std::alloc::{AllocError, Global};

/// The vertex of a cell of the board.
pub fn vertex_text(alloc: Global, cell: Cell, size: Size) -> Result<HtpText, AllocError>
    requires { cell < size * size }
    ensures text { IfOk result (λ text. text ≡ vertex_of size cell) }
    ensures length { IfOk result (λ text. length text ≤ 3) }
{
    let mut vertex = [0; VERTEX_LEN];
    let length = write_vertex(cell, size, &mut vertex);
    Ok(HtpText::of(vertex[..length].to_vec(alloc)?))
}

//! The text of a turn's report.

ghost use Rattle.std.specs.Prelude.{◌≡◌, ◌*◌, ◌<◌, ◌++◌, IfOk, OnOk, option_map};
ghost use Rattle.std.specs.List.{flat_map};
ghost use Rattle.hex_cells.specs.Vertices.{vertex_of};
ghost use Rattle.tree_words.specs.Roots.{rows_of};
ghost use Rattle.hex_plan.specs.Turns.{IsDecided};
ghost use Rattle.hex_plan.specs.TurnTexts.{AreOn, report_of, report_on, report_line};
ghost use Rattle.hex_plan.specs.TurnTexts.{report_lines};

use super::turns::Turn;
use hex_cells::{Cell, Size, VERTEX_LEN, push_number, write_vertex};
use std::alloc::{AllocError, Global};
use tree_words::{Closed, Row, report};

/// Writes the vertex of a cell of the board at the end of the text.
pub(crate) fn push_vertex(text: &mut Vec<u8>, cell: Cell, size: Size) -> Result<(), AllocError>
    requires { cell < size * size }
    ensures { OnOk result (text.new.items ≡ text.old.items ++ vertex_of size cell) }
{
    let mut vertex = [0; VERTEX_LEN];
    let length = write_vertex(cell, size, &mut vertex);
    text.extend_from_slice(&vertex[..length])
}

/// A line feed, and a row's vertex, visits and wins.
fn push_row(alloc: Global, text: &mut Vec<u8>, row: &Row, size: Size) -> Result<(), AllocError>
    requires { row.now.cell < size * size }
    ensures { OnOk result (text.new.items ≡ text.old.items ++ report_line size row.now) }
{
    text.push(b'\n')?;
    push_vertex(text, row.cell, size)?;
    text.push(b' ')?;
    push_number(alloc, text, u64::from(row.visits))?;
    text.push(b' ')?;
    push_number(alloc, text, u64::from(row.wins))
}

/// The line of each row.
fn push_rows(alloc: Global, text: &mut Vec<u8>, rows: &[Row], size: Size) -> Result<(), AllocError>
    requires { AreOn size rows.now }
    ensures { OnOk result (text.new.items ≡ text.old.items ++ report_lines size rows.now) }
{
    for row in rows {
        push_row(alloc, text, row, size)?;
    }
    Ok(())
}

/// The text of a turn's report: none if it has no tree. It is `playouts` and their number, and then
/// a line for each child of the root, in rising order of cells: its vertex, visits and wins.
pub(crate) fn report_text(alloc: Global, turn: &Turn) -> Result<Option<Vec<u8>>, AllocError>
    ensures { IfOk result (λ report. option_map (λ text. text.items) report ≡ report_of turn.now) }
{
    match turn.closed() {
        None => Ok(None),
        Some(closed) => Ok(Some(tree_text(alloc, closed, turn.board().size())?)),
    }
}

/// The number of a tree's playouts, and a line for each child of its root.
fn tree_text(alloc: Global, closed: &Closed, size: Size) -> Result<Vec<u8>, AllocError>
    requires { closed.now.shape.board.size ≡ size }
    ensures { IfOk result (λ text. text.items ≡ report_on size closed.now) }
{
    // The cells of the root's children lie on the board.
    closed.keeps();
    let Ok(rows) = report(alloc, closed) else {
        return Err(AllocError);
    };
    let mut text = b"playouts ".to_vec(alloc)?;
    let playouts = closed.shape().knobs().playouts;
    push_number(alloc, &mut text, u64::from(playouts))?;
    push_rows(alloc, &mut text, &rows, size)?;
    Ok(text)
}

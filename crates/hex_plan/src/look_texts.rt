//! The text of what a look-ahead found.

ghost use Rattle.std.specs.Prelude.{◌≡◌, ◌++◌, IfOk, OnOk};
ghost use Rattle.std.specs.List.{flat_map};
ghost use Rattle.hex_plan.specs.TurnTexts.{line_text, look_line, look_of, move_text};
ghost use Rattle.hex_plan.specs.TurnTexts.{outcome_text};

use super::report_texts::push_vertex;
use hex_cells::{Cell, Size, push_number};
use look_ahead::{LookRow, Looked, Outcome};
use std::alloc::{AllocError, Global};

/// How many nodes it has, and a line for each cell.
pub(crate) fn look_text(alloc: Global, looked: &Looked, size: Size) -> Result<Vec<u8>, AllocError>
    ensures { IfOk result (λ text. text.items ≡ look_of size looked.now) }
{
    let mut text = b"nodes ".to_vec(alloc)?;
    push_number(alloc, &mut text, u64::from(looked.nodes()))?;
    push_look_rows(alloc, &mut text, looked.rows(), size)?;
    Ok(text)
}

// The line of each row.
fn push_look_rows(
    alloc: Global,
    text: &mut Vec<u8>,
    rows: &[LookRow],
    size: Size,
) -> Result<(), AllocError>
    ensures { OnOk result (text.new.items ≡ text.old.items ++ flat_map (look_line size) rows.now) }
{
    'rows: for row in rows {
        push_look_row(alloc, text, row, size)?;
    }
    Ok(())
}

// A line feed, and the vertex, nodes, value, outcome and line of a row, if its cell is one of the
// board.
fn push_look_row(
    alloc: Global,
    text: &mut Vec<u8>,
    row: &LookRow,
    size: Size,
) -> Result<(), AllocError>
    ensures { OnOk result (text.new.items ≡ text.old.items ++ look_line size row.now) }
{
    if u32::from(row.cell.number()) < size.cells() {
        text.push(b'\n')?;
        push_vertex(text, row.cell, size)?;
        text.push(b' ')?;
        push_number(alloc, text, u64::from(row.nodes))?;
        text.push(b' ')?;
        push_number(alloc, text, u64::from(row.value))?;
        push_outcome(text, row.known)?;
        push_moves(text, &row.line, size)?;
    }
    Ok(())
}

// Who wins, if that is known.
fn push_outcome(text: &mut Vec<u8>, known: Option<Outcome>) -> Result<(), AllocError>
    ensures { OnOk result (text.new.items ≡ text.old.items ++ outcome_text known) }
{
    match known {
        None => Ok(()),
        Some(Outcome::Won) => text.extend_from_slice(b" won"),
        Some(Outcome::Lost) => text.extend_from_slice(b" lost"),
    }
}

// `line` and the moves of a row's line, if it has any.
fn push_moves(text: &mut Vec<u8>, moves: &[Cell], size: Size) -> Result<(), AllocError>
    ensures { OnOk result (text.new.items ≡ text.old.items ++ line_text size moves.now) }
{
    if moves.is_empty() {
        return Ok(());
    }
    text.extend_from_slice(b" line")?;
    push_each_move(text, moves, size)
}

// Each of these moves.
fn push_each_move(text: &mut Vec<u8>, moves: &[Cell], size: Size) -> Result<(), AllocError>
    ensures { OnOk result (text.new.items ≡ text.old.items ++ flat_map (move_text size) moves.now) }
{
    'moves: for cell in moves {
        push_move(text, *cell, size)?;
    }
    Ok(())
}

// The vertex of a move after a space, if its cell is one of the board.
fn push_move(text: &mut Vec<u8>, cell: Cell, size: Size) -> Result<(), AllocError>
    ensures { OnOk result (text.new.items ≡ text.old.items ++ move_text size cell) }
{
    if u32::from(cell.number()) < size.cells() {
        text.push(b' ')?;
        push_vertex(text, cell, size)?;
    }
    Ok(())
}

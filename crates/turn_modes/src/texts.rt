//! The texts of modes sim and bench.

ghost use Rattle.std.specs.Prelude.{◌≡◌, ◌*◌, ◌<◌, ◌++◌, IfOk, OnOk, IsSome};
ghost use Rattle.hex_cells.specs.Vertices.{vertex_of};
ghost use Rattle.tree_words.specs.Roots.{rows_of};
ghost use Rattle.turn_modes.specs.ModeTexts.{best_line, number_line};
ghost use Rattle.turn_modes.specs.Rows.{visits_of};
ghost use Rattle.turn_modes.specs.Telling.{TellsBench, TellsSim};

use super::records::count_records;
use hex_cells::{Cell, Size, VERTEX_LEN, push_number, write_vertex};
use hex_plan::{Turn, turn_texts};
use std::alloc::{AllocError, Global};
use tree_words::{Closed, Knobs, Row, report};

// Writes a word and the vertex of a cell of the board.
fn push_vertex(text: &mut Vec<u8>, word: &[u8], cell: Cell, size: Size) -> Result<(), AllocError>
    requires { cell < size * size }
    ensures { OnOk result (text.new.items ≡ text.old.items ++ word.now ++ vertex_of size cell) }
{
    text.extend_from_slice(word)?;
    let mut vertex = [0; VERTEX_LEN];
    let length = write_vertex(cell, size, &mut vertex);
    text.extend_from_slice(&vertex[..length])
}

// Writes a word, a number and a line feed.
fn push_line(
    alloc: Global,
    text: &mut Vec<u8>,
    word: &[u8],
    number: usize,
) -> Result<(), AllocError>
    ensures { OnOk result (text.new.items ≡ text.old.items ++ number_line word.now number) }
{
    text.extend_from_slice(word)?;
    push_number(alloc, text, number as u64)?;
    text.push(b'\n')?;
    Ok(())
}

// The visits of the row with this cell, 0 if there is none.
fn visits_of(rows: &[Row], cell: Cell) -> u32
    ensures { result ≡ visits_of rows.now cell }
{
    for row in rows {
        if row.cell.number() == cell.number() {
            return row.visits;
        }
    }
    0
}

/// The text of mode sim for a turn with a tree: its cell, and the report of its tree.
pub fn sim_text(alloc: Global, turn: &Turn) -> Result<Vec<u8>, AllocError>
    requires { IsSome turn.now.closed }
    ensures { IfOk result (λ text. TellsSim turn.now text.items) }
{
    let texts = turn_texts(alloc, turn)?;
    let Some(report) = texts.report() else {
        unreachable!();
    };
    let mut text = Vec::new(alloc);
    push_vertex(&mut text, b"best ", turn.cell(), turn.board().size())?;
    text.push(b'\n')?;
    text.extend_from_slice(report)?;
    text.push(b'\n')?;
    Ok(text)
}

/// The text of mode bench for a turn on a board with so many stones placed: of its tree, and, with
/// one worker, of its cell; without a tree, of the win and its cell.
pub fn bench_text(
    alloc: Global,
    knobs: &Knobs,
    stones: u32,
    turn: &Turn,
) -> Result<Vec<u8>, AllocError>
    ensures { IfOk result (λ text. TellsBench knobs.now stones turn.now text.items) }
{
    let size = turn.board().size();
    let mut text = Vec::new(alloc);
    push_line(alloc, &mut text, b"size ", size.get() as usize)?;
    push_line(alloc, &mut text, b"stones ", stones as usize)?;
    let Some(closed) = turn.closed() else {
        push_vertex(&mut text, b"win ", turn.cell(), size)?;
        text.push(b'\n')?;
        return Ok(text);
    };
    push_line(alloc, &mut text, b"playouts ", knobs.playouts as usize)?;
    push_line(alloc, &mut text, b"records ", count_records(closed))?;
    if knobs.workers == 1 {
        push_best_line(alloc, &mut text, closed, turn.cell(), size)?;
    }
    Ok(text)
}

// Writes `best`, the vertex of a cell of the board, and the visits of its node below the root.
fn push_best_line(
    alloc: Global,
    text: &mut Vec<u8>,
    closed: &Closed,
    cell: Cell,
    size: Size,
) -> Result<(), AllocError>
    requires { cell < size * size }
    ensures { OnOk result (text.new.items ≡ text.old.items ++ best_line size cell
        (visits_of (rows_of closed.now.shape closed.now.words) cell)) }
{
    let Ok(rows) = report(alloc, closed) else {
        return Err(AllocError);
    };
    push_vertex(text, b"best ", cell, size)?;
    push_line(alloc, text, b" ", visits_of(&rows, cell) as usize)
}

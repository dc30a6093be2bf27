//! The text of a plan: a win's cell, or the allowed cells and the threats of a search.

ghost use Rattle.std.specs.Prelude.{◌≡◌, ◌*◌, ◌<◌, ◌++◌, ◌∷◌, [], IfOk, OnOk, codes};
ghost use Rattle.std.specs.Prelude.{if◌then◌else◌};
ghost use Rattle.std.specs.List.{filter, flat_map};
ghost use Rattle.hex_cells.specs.Sets.{has};
ghost use Rattle.hex_cells.specs.Vertices.{vertex_of};
ghost use Rattle.hex_plan.specs.TurnTexts.{mustplay_of, spaced_vertex, threat_line};
ghost use Rattle.hex_plan.specs.TurnTexts.{spaced_vertices};
ghost use Rattle.hex_plan.specs.declared.types.Plan.{Plan};

use super::report_texts::push_vertex;
use super::threats::Threat;
use hex_cells::{Cell, CellSet, Size};
use std::alloc::{AllocError, Global};

/// The text of a win by a cell of the board.
pub(crate) fn win_text(alloc: Global, cell: Cell, size: Size) -> Result<Vec<u8>, AllocError>
    requires { cell < size * size }
    ensures { IfOk result (λ text. text.items ≡ codes "win " ++ vertex_of size cell) }
{
    let mut text = b"win ".to_vec(alloc)?;
    push_vertex(&mut text, cell, size)?;
    Ok(text)
}

/// The text of a search: whether the board is lost, the allowed cells, and a line for each threat.
pub(crate) fn search_text(
    alloc: Global,
    threats: &[Threat],
    allowed: CellSet,
    lost: bool,
    size: Size,
) -> Result<Vec<u8>, AllocError>
    ensures { IfOk result
        (λ text. text.items ≡ mustplay_of size (Plan.Search threats.now allowed lost)) }
{
    let mut text = b"lost ".to_vec(alloc)?;
    push_answer(&mut text, lost)?;
    text.extend_from_slice(b"\nallowed")?;
    push_cells(&mut text, allowed, size)?;
    push_threats(&mut text, threats, size)?;
    Ok(text)
}

// `yes` or `no`.
fn push_answer(text: &mut Vec<u8>, answer: bool) -> Result<(), AllocError>
    ensures { OnOk result (text.new.items
        ≡ text.old.items ++ (if answer then codes "yes" else codes "no")) }
{
    if answer {
        text.extend_from_slice(b"yes")
    } else {
        text.extend_from_slice(b"no")
    }
}

// A line for each threat, with the vertices of its carrier.
fn push_threats(text: &mut Vec<u8>, threats: &[Threat], size: Size) -> Result<(), AllocError>
    ensures { OnOk result
        (text.new.items ≡ text.old.items ++ flat_map (threat_line size) threats.now) }
{
    'threats: for threat in threats {
        push_threat(text, threat, size)?;
    }
    Ok(())
}

// A line feed, `threat`, and the vertices of the threat's carrier.
fn push_threat(text: &mut Vec<u8>, threat: &Threat, size: Size) -> Result<(), AllocError>
    ensures { OnOk result (text.new.items ≡ text.old.items ++ threat_line size threat.now) }
{
    text.extend_from_slice(b"\nthreat")?;
    push_cells(text, threat.carrier, size)
}

// The vertices of the set's cells on the board, in rising order of cells, a space before each.
fn push_cells(text: &mut Vec<u8>, set: CellSet, size: Size) -> Result<(), AllocError>
    ensures { OnOk result (text.new.items ≡ text.old.items ++ spaced_vertices size set) }
{
    'cells: for k in 0..size.cells() {
        push_member(text, Cell::numbered(k), set, size)?;
    }
    Ok(())
}

// The vertex of a cell of the board after a space, if the cell is in the set.
fn push_member(text: &mut Vec<u8>, cell: Cell, set: CellSet, size: Size) -> Result<(), AllocError>
    requires { cell < size * size }
    ensures { OnOk result (text.new.items
        ≡ text.old.items ++ flat_map (spaced_vertex size) (filter (has set) (cell ∷ []))) }
{
    if set.has(cell) {
        text.push(b' ')?;
        push_vertex(text, cell, size)?;
    }
    Ok(())
}

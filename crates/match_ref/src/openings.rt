//! The openings of a match, and how they are listed.

ghost use Rattle.std.specs.Prelude.{◌≡◌, ◌↔◌, ◌≤◌, ℕ, List, [], IfOk, Some, length, map};
ghost use Rattle.std.specs.Prelude.{option_map};
ghost use Rattle.std.specs.List.{slice_split};
ghost use Rattle.match_ref.specs.Openings.{AreOpenings, AreVertices, is_comma};

use super::refusals::Memory;
use super::settings::MOST_OPENINGS;
use hex_cells::{Cell, Size, read_vertex};
use std::alloc::{AllocError, Global};
use std::marker::Model;

/// The openings of a match, in order. Each is a cell on which a game has a stone of Black's before
/// its sides play.
#[derive(Drop)]
pub struct Openings {
    cells: Vec<Cell>,
}

impl Model for Openings {
    ghost use Rattle.std.specs.Prelude.{List, ℕ};

    ghost Value = { List ℕ };

    ghost view = { λ s. s.cells.items };
}

impl Openings {
    /// No openings. It takes no memory.
    pub fn none(alloc: Global) -> Openings
        ensures { result ≡ [] }
    {
        Openings::of(Vec::new(alloc))
    }

    /// The openings at these cells. It takes no memory.
    pub fn of(cells: Vec<Cell>) -> Openings
        ensures { result ≡ cells.items }
    {
        Openings { cells }
    }

    /// Lends the cells.
    pub fn as_slice(&self) -> &[Cell]
        ensures { result.now ≡ self.now }
    {
        &self.cells
    }
}

/// The openings that the text lists, or no openings without a text. There are none, also no empty
/// list, if what stands between two commas is no vertex of the board, or if it lists too many.
pub fn read_openings(
    alloc: Global,
    text: Option<&str>,
    size: Size,
) -> Result<Option<Openings>, Memory>
    ensures { IfOk result (λ r. (cells : List ℕ)
        → (r ≡ Some cells) ↔ AreOpenings size (option_map (λ t. t.now) text.entry) cells) }
{
    match text {
        None => Ok(Some(Openings::none(alloc))),
        Some(list) => cells_of(alloc, &names_of(alloc, list.as_bytes())?, size),
    }
}

// What stands between commas.
fn names_of(alloc: Global, list: &[u8]) -> Result<Vec<&[u8]>, AllocError>
    ensures { IfOk result
        (λ names. map (λ s. s.now) names.items ≡ slice_split is_comma list.now) }
{
    list.split(|byte| *byte == b',').collect(alloc)
}

// The openings with these names, in order; none if one is no vertex of the board, or if there are
// too many.
fn cells_of(alloc: Global, names: &[&[u8]], size: Size) -> Result<Option<Openings>, Memory>
    ensures { IfOk result (λ r. (cells : List ℕ) → (r ≡ Some cells)
        ↔ (AreVertices size (map (λ s. s.now) names.now) cells × (length cells ≤ MOST_OPENINGS))) }
{
    if names.len() > MOST_OPENINGS {
        return Ok(None);
    }
    let mut cells = Vec::new(alloc);
    for name in names {
        let Some(cell) = read_vertex(*name, size) else {
            return Ok(None);
        };
        cells.push(cell)?;
    }
    Ok(Some(Openings::of(cells)))
}

//! What is added to a text: words, numbers, vertices, and lines of them.

ghost use Rattle.std.specs.Prelude.{◌≡◌, ◌*◌, ◌<◌, ◌++◌, [], ◌∷◌, map, OnOk};
ghost use Rattle.std.specs.Fmt.{decimal};
ghost use Rattle.std.specs.List.{filter, join_with_byte};
ghost use Rattle.hex_cells.specs.Sets.{has};
ghost use Rattle.hex_cells.specs.Vertices.{vertex_of};
ghost use Rattle.win_cert.specs.Texts.{end_word, ended, space, vertices_of};
ghost use Rattle.win_cert.specs.Words.{after_spaces};
ghost use Rattle.win_cert.specs.Writable.{IsEndOn};

use super::End;
use hex_cells::{Cell, CellSet, Size, VERTEX_LEN, push_number, write_vertex};
use std::alloc::{AllocError, Global};

// A word after a space.
fn push_word(text: &mut Vec<u8>, word: &[u8]) -> Result<(), AllocError>
    ensures { OnOk result (text.new.items ≡ text.old.items ++ space ∷ word.now) }
{
    text.push(b' ')?;
    text.extend_from_slice(word)
}

/// A number after a space.
pub(crate) fn push_count(alloc: Global, text: &mut Vec<u8>, number: u32) -> Result<(), AllocError>
    ensures { OnOk result (text.new.items ≡ text.old.items ++ space ∷ decimal number) }
{
    text.push(b' ')?;
    push_number(alloc, text, u64::from(number))
}

/// A line of a word and numbers, without its line feed.
pub(crate) fn push_numbers(
    alloc: Global,
    text: &mut Vec<u8>,
    word: &[u8],
    numbers: &[u32],
) -> Result<(), AllocError>
    ensures { OnOk result (text.new.items
        ≡ text.old.items ++ join_with_byte space (word.now ∷ map decimal numbers.now)) }
{
    text.extend_from_slice(word)?;
    for number in numbers {
        push_count(alloc, text, *number)?;
    }
    Ok(())
}

/// A line of a word and a number.
pub(crate) fn push_number_line(
    alloc: Global,
    text: &mut Vec<u8>,
    word: &[u8],
    number: u32,
) -> Result<(), AllocError>
    ensures { OnOk result
        (text.new.items ≡ text.old.items ++ ended (word.now ∷ decimal number ∷ [])) }
{
    text.extend_from_slice(word)?;
    push_count(alloc, text, number)?;
    text.push(b'\n')?;
    Ok(())
}

/// A line of two words.
pub(crate) fn push_name_line(text: &mut Vec<u8>, word: &[u8], name: &[u8]) -> Result<(), AllocError>
    ensures { OnOk result (text.new.items ≡ text.old.items ++ ended (word.now ∷ name.now ∷ [])) }
{
    text.extend_from_slice(word)?;
    push_word(text, name)?;
    text.push(b'\n')?;
    Ok(())
}

/// A line of a word and the vertices of the set's cells.
pub(crate) fn push_stones_line(
    text: &mut Vec<u8>,
    word: &[u8],
    set: CellSet,
    size: Size,
) -> Result<(), AllocError>
    ensures { OnOk result
        (text.new.items ≡ text.old.items ++ ended (word.now ∷ vertices_of size set)) }
{
    push_cells(text, word, set, size)?;
    text.push(b'\n')?;
    Ok(())
}

/// The vertex of a cell of the board, after a space.
pub(crate) fn push_vertex(text: &mut Vec<u8>, cell: Cell, size: Size) -> Result<(), AllocError>
    requires { cell < size * size }
    ensures { OnOk result (text.new.items ≡ text.old.items ++ space ∷ vertex_of size cell) }
{
    let mut vertex = [0; VERTEX_LEN];
    let length = write_vertex(cell, size, &mut vertex);
    push_word(text, &vertex[..length])
}

/// The word for an end, after a space.
pub(crate) fn push_end(text: &mut Vec<u8>, end: End, size: Size) -> Result<(), AllocError>
    requires { IsEndOn size end }
    ensures { OnOk result (text.new.items ≡ text.old.items ++ space ∷ end_word size end) }
{
    match end {
        End::At(cell) => push_vertex(text, cell, size),
        End::First => push_word(text, b"edge1"),
        End::Second => push_word(text, b"edge2"),
    }
}

/// A line of a word and the vertices of the set's cells on the board, in rising order of cells,
/// without its line feed.
pub(crate) fn push_cells(
    text: &mut Vec<u8>,
    word: &[u8],
    set: CellSet,
    size: Size,
) -> Result<(), AllocError>
    ensures { OnOk result (text.new.items
        ≡ text.old.items ++ join_with_byte space (word.now ∷ vertices_of size set)) }
{
    text.extend_from_slice(word)?;
    for k in 0..size.cells() {
        push_member(text, Cell::numbered(k), set, size)?;
    }
    Ok(())
}

// The vertex of a cell of the board after a space, if the cell is in the set.
fn push_member(text: &mut Vec<u8>, cell: Cell, set: CellSet, size: Size) -> Result<(), AllocError>
    requires { cell < size * size }
    ensures { OnOk result (text.new.items
        ≡ text.old.items ++ after_spaces (map (vertex_of size) (filter (has set) (cell ∷ [])))) }
{
    if set.has(cell) {
        push_vertex(text, cell, size)?;
    }
    Ok(())
}

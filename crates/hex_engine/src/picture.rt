//! The board as text.

ghost use Rattle.std.specs.Prelude.{◌≡◌, ◌+◌, ◌*◌, ◌<◌, ◌++◌, ◌∷◌, replicate, IfOk, OnOk};
ghost use Rattle.hex_engine.specs.Picture.{mark, header, in_two_places, marks, row_line, picture};

use hex_board::Board;
use hex_cells::{Cell, Colour, DECIMAL_LEN, write_decimal};
use std::alloc::{AllocError, Global};

/// The text of `showboard`: the header and the rows, a line feed before each.
#[tactic(auto, unfolding(crate::specs::Picture::picture))]
pub fn board_text(alloc: Global, board: &Board) -> Result<Vec<u8>, AllocError>
    ensures { IfOk result (λ text. text.items ≡ picture board.now) }
{
    let mut text = Vec::with_capacity(alloc, MOST_BYTES)?;
    push_header(&mut text, board)?;
    for row in 0..board.size().get() {
        push_line(&mut text, board, row)?;
    }
    Ok(text)
}

/// The bytes of a board of size 11: a header of 25 and eleven lines of up to 36.
const MOST_BYTES: usize = 421;

/// A line feed, two spaces, and for each column a space and its letter.
#[tactic(auto, unfolding(crate::specs::Picture::header))]
fn push_header(text: &mut Vec<u8>, board: &Board) -> Result<(), AllocError>
    ensures { OnOk result (text.new.items ≡ text.old.items ++ 10 ∷ header board.now.size) }
{
    text.extend_from_slice(b"\n  ")?;
    for column in 0..board.size().get() {
        text.extend_from_slice(&[b' ', b'a' + column as u8])?;
    }
    Ok(())
}

/// A line feed, a space for each row above, the row's number and its marks.
#[tactic(auto, unfolding(crate::specs::Picture::row_line))]
fn push_line(text: &mut Vec<u8>, board: &Board, row: u32) -> Result<(), AllocError>
    requires { row < board.now.size }
    ensures { OnOk result (text.new.items ≡ text.old.items ++ 10 ∷ row_line board.now row) }
{
    board.keeps();
    text.push(b'\n')?;
    push_spaces(text, row)?;
    push_in_two_places(text, row + 1)?;
    push_marks(text, board, row)
}

fn push_spaces(text: &mut Vec<u8>, count: u32) -> Result<(), AllocError>
    ensures { OnOk result (text.new.items ≡ text.old.items ++ replicate count 32) }
{
    text.resize(text.len() + count as usize, b' ')
}

/// A number below 100, right in two places.
fn push_in_two_places(text: &mut Vec<u8>, number: u32) -> Result<(), AllocError>
    requires { number < 100 }
    ensures { OnOk result (text.new.items ≡ text.old.items ++ in_two_places number) }
{
    let mut digits = [0; DECIMAL_LEN];
    let length = write_decimal(number, &mut digits);
    push_spaces(text, (DECIMAL_LEN - length) as u32)?;
    text.extend_from_slice(&digits[..length])
}

/// The marks of a row, each after a space.
#[tactic(auto, unfolding(crate::specs::Picture::marks))]
fn push_marks(text: &mut Vec<u8>, board: &Board, row: u32) -> Result<(), AllocError>
    requires { row < board.now.size }
    ensures { OnOk result (text.new.items ≡ text.old.items ++ marks board.now row) }
{
    let size = board.size();
    for column in 0..size.get() {
        text.extend_from_slice(&[b' ', mark_at(board, Cell::at(size, column, row))])?;
    }
    Ok(())
}

/// `B`, `W` or a point.
fn mark_at(board: &Board, cell: Cell) -> u8
    requires { cell < board.now.size * board.now.size }
    ensures { result ≡ mark board.now cell }
{
    match board.at(cell) {
        Some(Colour::Black) => b'B',
        Some(Colour::White) => b'W',
        None => b'.',
    }
}

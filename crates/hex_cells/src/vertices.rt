//! Vertices: the names of cells in text, as `c2`.

ghost use Rattle.std.specs.Prelude.{◌≡◌, ◌≢◌, ℕ, ◌+◌, ◌*◌, ◌<◌, ◌≤◌, drop, take, IfNone};
ghost use Rattle.std.specs.Prelude.{IfSome, MatchOption};
ghost use Rattle.std.specs.Char.{to_ascii_lowercase};
ghost use Rattle.std.specs.Fmt.{decimal};
ghost use Rattle.hex_cells.specs.Vertices.{IsVertex, NamesNoPlace, NamesPlace, vertex_cell};
ghost use Rattle.hex_cells.specs.Vertices.{vertex_of};

use super::decimals::{DECIMAL_LEN, write_decimal};
use super::{Cell, Size};

/// The longest vertex has a letter and two digits.
pub const VERTEX_LEN: usize = 1 + DECIMAL_LEN;

// The column that a letter names in either case, from 0.
fn column_of(letter: u8) -> Option<u32>
    ensures { MatchOption result ((c : ℕ) → c < 26 → to_ascii_lowercase letter ≢ 97 + c)
        (λ c. to_ascii_lowercase letter ≡ 97 + c) }
{
    let lower = letter.to_ascii_lowercase();
    if b'a' <= lower && lower <= b'z' {
        Some(u32::from(lower - b'a'))
    } else {
        None
    }
}

// The value of a decimal digit that is at least `least`.
fn digit_of(byte: u8, least: u8) -> Option<u32>
    requires { least < 10 }
    ensures { MatchOption result ((d : ℕ) → least ≤ d → d < 10 → byte ≢ 48 + d)
        (λ d. (least ≤ d) × (d < 10) × (byte ≡ 48 + d)) }
{
    if b'0' + least <= byte && byte <= b'9' {
        Some(u32::from(byte - b'0'))
    } else {
        None
    }
}

// The number from 1 to 99 with these digits, of which the first is not 0.
fn number_of(digits: &[u8]) -> Option<u32>
    ensures { MatchOption result ((m : ℕ) → 1 ≤ m → m ≤ 99 → digits.now ≢ decimal m)
        (λ m. (1 ≤ m) × (m ≤ 99) × (digits.now ≡ decimal m)) }
{
    if digits.len() == 0 || 2 < digits.len() {
        return None;
    }
    let first = digit_of(digits[0], 1)?;
    if digits.len() == 1 {
        return Some(first);
    }
    let second = digit_of(digits[1], 0)?;
    Some(10 * first + second)
}

/// Writes the lower-case vertex of a cell of the board at the start of `out`, and answers its
/// length, 2 or 3. The rest of `out` stays.
pub fn write_vertex(cell: Cell, size: Size, out: &mut [u8; VERTEX_LEN]) -> usize
    requires { cell < size * size }
    ensures text { take result out.new ≡ vertex_of size cell }
    ensures length { (2 ≤ result) × (result ≤ 3) }
    ensures rest { drop result out.new ≡ drop result out.old }
{
    out[0] = b'a' + cell.column(size) as u8;
    1 + write_decimal(cell.row(size) + 1, &mut out[1..])
}

// The column and the row, from 0, that a text names on a board of any size.
fn place_of(text: &[u8]) -> Option<(u32, u32)>
    ensures { MatchOption result (NamesNoPlace text.now)
        (λ p. (p.1 < 99) × NamesPlace text.now p.0 p.1) }
{
    if text.len() == 0 {
        return None;
    }
    let column = column_of(text[0])?;
    let number = number_of(&text[1..])?;
    Some((column, number - 1))
}

/// The cell of the board whose vertex the text is: one column letter in either case, and the row's
/// number without leading zero. `None` exactly if the text is no vertex of the board.
pub fn read_vertex(text: &[u8], size: Size) -> Option<Cell>
    ensures value { result ≡ vertex_cell size text.now }
    ensures cell { IfSome result (IsVertex size text.now) }
    ensures none { IfNone result ((k : ℕ) → ¬ (IsVertex size text.now k)) }
{
    let n = size.get();
    let (column, row) = place_of(text)?;
    if column < n && row < n {
        Some(Cell::at(size, column, row))
    } else {
        None
    }
}

/// A law, with nothing to run: the vertex of each cell of a board is read back as that cell.
pub fn vertex_is_read_back()
    ensures { (n k : ℕ) → n ≤ Size.MAX → k < n * n → vertex_cell n (vertex_of n k) ≡ Some k }
{}

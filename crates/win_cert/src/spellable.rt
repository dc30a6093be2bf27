//! Whether a certificate can be written.

ghost use Rattle.std.specs.Prelude.{◌↔◌, ◌≤◌, IsTrue, length};
ghost use Rattle.win_cert.specs.Writable.{AreNumbers, HasSpelling, IsEndOn, IsLineOf, IsVersion};
ghost use Rattle.win_cert.specs.Writable.{IsWritable, most_lines};
ghost use Rattle.win_cert.specs.declared.lines.TheConstants.{MOST_CASES};

use super::{
    Cert, End, FIRST_VERSION, LATEST_VERSION, LEAST_CASES, LEAST_MANY, Line, MOST_CASES,
    MOST_NUMBER, SECOND_VERSION, THIRD_VERSION, most_lines,
};
use hex_cells::{CellSet, Size};

/// Whether the certificate can be written ([`write`](crate::write)): whether it has one of the
/// versions, its lines are of that version, on its board and not too many, and no number is too
/// great.
pub fn is_writable(cert: &Cert) -> bool
    ensures { IsTrue result ↔ IsWritable cert.now }
{
    has_spelling(cert) && are_few(cert.version, cert.lines.as_slice())
}

// Whether each part of the certificate can be spelled.
fn has_spelling(cert: &Cert) -> bool
    ensures { IsTrue result ↔ HasSpelling cert.now }
{
    let size = cert.board.size();
    let lines = cert.lines.as_slice();
    is_version(cert.version)
        && cert.entry <= MOST_NUMBER
        && lines
            .iter()
            .all(|line| is_line_of(cert.version, line, size))
}

// Whether these are no more lines than there may be in that version.
fn are_few(version: u32, lines: &[Line]) -> bool
    ensures { IsTrue result ↔ (length lines.now ≤ most_lines version) }
{
    lines.len() <= most_lines(version)
}

// Whether there is this version.
fn is_version(version: u32) -> bool
    ensures { IsTrue result ↔ IsVersion version }
{
    version == FIRST_VERSION
        || version == SECOND_VERSION
        || version == THIRD_VERSION
        || version == LATEST_VERSION
}

// Whether the line is one of that version, its cells lie on the board, and its numbers are not too
// many and not too great.
fn is_line_of(version: u32, line: &Line, size: Size) -> bool
    ensures { IsTrue result ↔ IsLineOf version size line.now }
{
    let has_scopes = SECOND_VERSION <= version;
    match line {
        Line::Adj(x, y) => is_end_on(*x, size) && is_end_on(*y, size),
        Line::And(i, j) | Line::Key(i, j) | Line::Or2(i, j) => are_numbers(&[*i, *j]),
        Line::Or3(i, j, k) => are_numbers(&[*i, *j, *k]),
        Line::OrMany(numbers) => {
            THIRD_VERSION <= version && are_cases(numbers.as_slice(), LEAST_MANY)
        }
        Line::Put(cells) => has_scopes && cells.inside(CellSet::all(size)),
        Line::Done => has_scopes,
        Line::Move(cell, i) => has_scopes && cell.number() < size.cells() && are_numbers(&[*i]),
        Line::Cases(numbers) => has_scopes && are_cases(numbers.as_slice(), LEAST_CASES),
        Line::Lift(i) => LATEST_VERSION <= version && are_numbers(&[*i]),
    }
}

// Whether these are `least` numbers or more, not too many, and none is too great.
fn are_cases(numbers: &[u32], least: usize) -> bool
    ensures { IsTrue result ↔ (least ≤ length numbers.now) × (length numbers.now ≤ MOST_CASES)
        × AreNumbers numbers.now }
{
    least <= numbers.len() && numbers.len() <= MOST_CASES && are_numbers(numbers)
}

// Whether none of the numbers is too great.
fn are_numbers(numbers: &[u32]) -> bool
    ensures { IsTrue result ↔ AreNumbers numbers.now }
{
    numbers.iter().all(|number| *number <= MOST_NUMBER)
}

// Whether the end is an edge or a cell of the board.
fn is_end_on(end: End, size: Size) -> bool
    ensures { IsTrue result ↔ IsEndOn size end }
{
    match end {
        End::At(cell) => cell.number() < size.cells(),
        End::First | End::Second => true,
    }
}

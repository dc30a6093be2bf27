//! The version that lines need.

ghost use Rattle.std.specs.Prelude.{◌≡◌};
ghost use Rattle.std.specs.List.{list_any};
ghost use Rattle.win_cert.specs.Versions.{is_lift, is_or_many, version_for};
ghost use Rattle.win_cert.specs.Writable.{most_lines};

use super::{LATEST_VERSION, Line, MOST_LATEST_LINES, MOST_LINES, SECOND_VERSION, THIRD_VERSION};

/// The most derivation lines of a certificate of the version.
pub fn most_lines(version: u32) -> usize
    ensures { result ≡ most_lines version }
{
    if LATEST_VERSION <= version {
        MOST_LATEST_LINES
    } else {
        MOST_LINES
    }
}

/// The least version from 2 on of certificates in which these lines can stand.
pub fn version_for(lines: &[Line]) -> u32
    ensures { result ≡ version_for lines.now }
{
    if have_lift(lines) {
        LATEST_VERSION
    } else if have_or_many(lines) {
        THIRD_VERSION
    } else {
        SECOND_VERSION
    }
}

// Whether one of the lines is a `lift`.
fn have_lift(lines: &[Line]) -> bool
    ensures { result ≡ list_any is_lift lines.now }
{
    lines.iter().any(is_lift)
}

// Whether one of the lines is an `or` of four or more entries.
fn have_or_many(lines: &[Line]) -> bool
    ensures { result ≡ list_any is_or_many lines.now }
{
    lines.iter().any(is_or_many)
}

// Whether the line is a `lift`.
fn is_lift(line: &Line) -> bool
    ensures { result ≡ is_lift line.now }
{
    matches!(line, Line::Lift(_))
}

// Whether the line is an `or` of four or more entries.
fn is_or_many(line: &Line) -> bool
    ensures { result ≡ is_or_many line.now }
{
    matches!(line, Line::OrMany(_))
}

//! Words that name something: a number, a vertex, an end.

ghost use Rattle.std.specs.Prelude.{◌≡◌, ◌≤◌, length, MatchOption};
ghost use Rattle.std.specs.Str.Parse.{AllDigits, digits_value};
ghost use Rattle.win_cert.specs.Named.{cell_named, end_named, number_named};

use super::{End, MOST_NUMBER};
use hex_cells::{Cell, Size, VERTEX_LEN, read_vertex, write_vertex};

// The most digits of a number that a certificate names.
const MOST_DIGITS: usize = 6;

// The value of at most six digits; `None` if the word has another byte.
fn value_of(word: &[u8]) -> Option<u32>
    requires { length word.now ≤ MOST_DIGITS }
    ensures { MatchOption result (¬ (AllDigits 10 word.now))
        (λ i. AllDigits 10 word.now × (i ≡ digits_value 10 word.now)) }
{
    let mut value = 0u32;
    for &b in word {
        if !b.is_ascii_digit() {
            return None;
        }
        value = value * 10 + u32::from(b - b'0');
    }
    Some(value)
}

/// The number that a word is, without leading zero; `None` exactly if it is none, or one above
/// [`MOST_NUMBER`].
pub(crate) fn read_number(word: &[u8]) -> Option<u32>
    ensures { result ≡ number_named word.now }
{
    if word.len() == 0 {
        return None;
    }
    if MOST_DIGITS < word.len() {
        return None;
    }
    if word[0] == b'0' {
        if word.len() == 1 {
            return Some(0);
        }
        return None;
    }
    value_of(word)
}

/// The cell of the board whose vertex the word is, in lower case; `None` exactly if it is none.
pub(crate) fn read_cell(word: &[u8], size: Size) -> Option<Cell>
    ensures { result ≡ cell_named size word.now }
{
    let cell = read_vertex(word, size)?;
    // A vertex is read in either case, so what was read is compared.
    let mut vertex = [0; VERTEX_LEN];
    let length = write_vertex(cell, size, &mut vertex);
    if word == &vertex[..length] {
        Some(cell)
    } else {
        None
    }
}

/// The end of a connection that the word names; `None` exactly if it names none.
pub(crate) fn read_end(word: &[u8], size: Size) -> Option<End>
    ensures { result ≡ end_named size word.now }
{
    if word == b"edge1".as_slice() {
        Some(End::First)
    } else if word == b"edge2".as_slice() {
        Some(End::Second)
    } else {
        Some(End::At(read_cell(word, size)?))
    }
}

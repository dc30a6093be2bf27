//! How arguments are spelled.

ghost use Rattle.std.specs.Prelude.{◌≡◌, option_map};
ghost use Rattle.std.specs.Str.{str_eq_ignore_ascii_case};
ghost use Rattle.hex_engine.specs.LoadReplies.{file_named};
ghost use Rattle.hex_engine.specs.MoveReplies.{lone_colour};
ghost use Rattle.hex_engine.specs.Forms.{colour_of, is_first_digit_of, is_vertex};
ghost use Rattle.hex_engine.specs.Forms.{move_word_of, sizes_of, IsSaidOf};

use hex_cells::{Colour, Size, read_vertex};
use hex_game::Move;
use htp_line::{HtpText, read_number};

/// What a move's word says.
#[derive(Clone, Copy)]
pub enum MoveWord {
    /// It has the form of no move.
    Formless,
    /// It has the form of a vertex that lies off the board.
    OffBoard,
    Says(Move),
}

/// Whether the word is this text, each letter in either case.
#[tactic(auto, using(crate::proofs::Spelling::same_text))]
fn is_spelled(word: &[u8], text: &[u8]) -> bool
    ensures { result ≡ str_eq_ignore_ascii_case word.now text.now }
{
    word.eq_ignore_ascii_case(text)
}

/// The colour of `b`, `black`, `w` or `white`, in either case.
pub fn read_colour(word: &[u8]) -> Option<Colour>
    ensures { result ≡ colour_of word.now }
{
    if is_spelled(word, b"b") || is_spelled(word, b"black") {
        Some(Colour::Black)
    } else if is_spelled(word, b"w") || is_spelled(word, b"white") {
        Some(Colour::White)
    } else {
        None
    }
}

/// What a move's word says on a board of that size.
pub fn read_move(word: &[u8], size: Size) -> MoveWord
    ensures value { result ≡ move_word_of size word.now }
    ensures on_board { IsSaidOf size result }
{
    if is_spelled(word, b"swap-pieces") {
        return MoveWord::Says(Move::Swap);
    }
    if !has_vertex_form(word) {
        return MoveWord::Formless;
    }
    match read_vertex(word, size) {
        Some(cell) => MoveWord::Says(Move::Stone(cell)),
        None => MoveWord::OffBoard,
    }
}

/// Whether the word is a letter and one or two digits of which the first is not 0.
fn has_vertex_form(word: &[u8]) -> bool
    ensures { result ≡ is_vertex word.now }
{
    match word {
        [letter, d] => letter.is_ascii_alphabetic() && is_first_digit(*d),
        [letter, d, e] => letter.is_ascii_alphabetic() && is_first_digit(*d) && e.is_ascii_digit(),
        _ => false,
    }
}

fn is_first_digit(byte: u8) -> bool
    ensures { result ≡ is_first_digit_of byte }
{
    byte.is_ascii_digit() && byte != b'0'
}

/// The columns and the rows that one number or two ask for.
pub fn read_sizes(args: &[HtpText]) -> Option<(u32, u32)>
    ensures { result ≡ sizes_of args.now }
{
    match args {
        [both] => {
            let size = read_number(both.as_slice())?;
            Some((size, size))
        }
        [columns, rows] => Some((
            read_number(columns.as_slice())?,
            read_number(rows.as_slice())?,
        )),
        _ => None,
    }
}

/// The colour, if it is the only argument.
pub fn lone_colour(args: &[HtpText]) -> Option<Colour>
    ensures { result ≡ lone_colour args.now }
{
    match args {
        [word] => read_colour(word.as_slice()),
        _ => None,
    }
}

/// The name of a file, if it is the only argument and valid UTF-8.
#[tactic(auto, using(crate::proofs::Names::name_is, crate::proofs::Names::name_is_none))]
pub fn file_name(args: &[HtpText]) -> Option<&str>
    ensures { option_map (λ name. name.now) result ≡ file_named args.now }
{
    match args {
        [word] => str::from_utf8(word.as_slice()).ok(),
        _ => None,
    }
}

//! The keyword that a line after the head begins with.

ghost use Rattle.std.specs.Prelude.{◌≡◌};
ghost use Rattle.win_cert.specs.Named.{is_in_version, keyword_named};

use super::{LATEST_VERSION, SECOND_VERSION};

/// The first word of a line.
#[derive(Clone, Copy)]
pub(crate) enum Keyword {
    Adj,
    And,
    Key,
    Or,
    Put,
    Done,
    Move,
    Cases,
    Lift,
    Full,
    Semi,
}

/// The keyword that a word is.
#[tactic(auto, unfolding(crate::specs::Named::keyword_named))]
pub(crate) fn keyword_of(word: &[u8]) -> Option<Keyword>
    ensures { result ≡ keyword_named word.now }
{
    if word == b"adj".as_slice() {
        Some(Keyword::Adj)
    } else if word == b"and".as_slice() {
        Some(Keyword::And)
    } else if word == b"key".as_slice() {
        Some(Keyword::Key)
    } else if word == b"or".as_slice() {
        Some(Keyword::Or)
    } else if word == b"put".as_slice() {
        Some(Keyword::Put)
    } else if word == b"done".as_slice() {
        Some(Keyword::Done)
    } else if word == b"move".as_slice() {
        Some(Keyword::Move)
    } else if word == b"cases".as_slice() {
        Some(Keyword::Cases)
    } else if word == b"lift".as_slice() {
        Some(Keyword::Lift)
    } else if word == b"full".as_slice() {
        Some(Keyword::Full)
    } else if word == b"semi".as_slice() {
        Some(Keyword::Semi)
    } else {
        None
    }
}

/// Whether lines with that keyword stand in certificates of the version.
pub(crate) fn is_in_version(version: u32, keyword: Keyword) -> bool
    ensures { result ≡ is_in_version version keyword }
{
    match keyword {
        Keyword::Put => SECOND_VERSION <= version,
        Keyword::Done => SECOND_VERSION <= version,
        Keyword::Move => SECOND_VERSION <= version,
        Keyword::Cases => SECOND_VERSION <= version,
        Keyword::Lift => LATEST_VERSION <= version,
        _ => true,
    }
}

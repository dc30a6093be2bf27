//! The words of a line.

ghost use Rattle.std.specs.Prelude.{◌≡◌, ◌≢◌, [], ◌∷◌, Some, None, IfOk, MatchOption};
ghost use Rattle.std.specs.Option.{option_map};
ghost use Rattle.std.specs.List.{position, slice_split};
ghost use Rattle.win_cert.specs.Named.{after_word, set_named, first_cell, first_end, first_number};
ghost use Rattle.win_cert.specs.Named.{numbers_named};
ghost use Rattle.win_cert.specs.Words.{is_space_byte};

use super::End;
use super::values::{read_cell, read_end, read_number};
use hex_cells::{Cell, CellSet, Size};
use std::alloc::{AllocError, Global};
use std::marker::Model;

/// The words of a line that are left to be read: what stands between its spaces. A space at an end
/// of the line, or two of them side by side, make a word without bytes, which is never good.
#[derive(Drop)]
pub(crate) struct Words<'a> {
    rest: &'a [u8],
    more: bool,
}

impl<'a> Model for Words<'a> {
    ghost use Rattle.std.specs.Prelude.{ℕ, List};
    ghost use Rattle.win_cert.specs.Words.{words_in};

    ghost Value = { List (List ℕ) };

    ghost view = { λ w. words_in w.more w.rest.now };
}

fn first_space(text: &[u8]) -> Option<usize>
    ensures { result ≡ position is_space_byte text.now }
{
    text.iter().position(|&b| b == b' ')
}

impl<'a> Words<'a> {
    /// The words of this line, which has no line feed.
    pub(crate) fn of(line: &'a [u8]) -> Words<'a>
        ensures { result ≡ slice_split is_space_byte line.now }
    {
        Words {
            rest: line,
            more: true,
        }
    }

    /// Takes the next word; `None` exactly if no word is left.
    pub(crate) fn next(&mut self) -> Option<&'a [u8]>
        ensures { MatchOption result ((self.old ≡ []) × (self.new ≡ []))
            (λ word. self.old ≡ word.now ∷ self.new) }
    {
        if !self.more {
            return None;
        }
        let rest = self.rest;
        match first_space(rest) {
            None => {
                self.more = false;
                Some(rest)
            }
            Some(end) => {
                self.rest = &rest[end + 1..];
                Some(&rest[..end])
            }
        }
    }

    /// Takes the next word as a number; `None` exactly if there is none.
    pub(crate) fn number(&mut self) -> Option<u32>
        ensures { MatchOption result (first_number self.old ≡ None)
            (λ i. first_number self.old ≡ Some (i, self.new)) }
    {
        read_number(self.next()?)
    }

    /// Takes the next word as a vertex; `None` exactly if there is none.
    pub(crate) fn cell(&mut self, size: Size) -> Option<Cell>
        ensures { MatchOption result (first_cell size self.old ≡ None)
            (λ k. first_cell size self.old ≡ Some (k, self.new)) }
    {
        read_cell(self.next()?, size)
    }

    /// Takes the next word as an end; `None` exactly if there is none.
    pub(crate) fn end(&mut self, size: Size) -> Option<End>
        ensures { MatchOption result (first_end size self.old ≡ None)
            (λ end. first_end size self.old ≡ Some (end, self.new)) }
    {
        read_end(self.next()?, size)
    }

    /// Takes the next word if it is this one.
    pub(crate) fn word(&mut self, name: &[u8]) -> Option<()>
        ensures { MatchOption result (after_word name.now self.old ≡ None)
            (λ _. after_word name.now self.old ≡ Some self.new) }
    {
        if self.next()? == name { Some(()) } else { None }
    }

    /// Takes all words as numbers; `None` exactly if one of them is none.
    pub(crate) fn numbers(&mut self, alloc: Global) -> Result<Option<Vec<u32>>, AllocError>
        ensures { IfOk result
            (λ numbers. option_map (λ v. v.items) numbers ≡ numbers_named self.old) }
    {
        let mut numbers = Vec::new(alloc);
        'words: loop {
            let Some(word) = self.next() else {
                return Ok(Some(numbers));
            };
            let Some(number) = read_number(word) else {
                return Ok(None);
            };
            numbers.push(number)?;
        }
    }

    /// Takes all words as vertices in rising order; `None` exactly if they are not.
    pub(crate) fn cells(&mut self, size: Size) -> Option<CellSet>
        ensures { result ≡ set_named size 0 0 self.old }
    {
        let mut set = CellSet::none();
        let mut least = 0;
        'words: loop {
            let Some(word) = self.next() else {
                return Some(set);
            };
            let cell = read_cell(word, size)?;
            if cell.number() < least {
                return None;
            }
            set = set.with(cell);
            least = cell.number() + 1;
        }
    }

    /// `Some` exactly if no word is left.
    pub(crate) fn nothing(&self) -> Option<()>
        ensures { MatchOption result (self.now ≢ []) (λ _. self.now ≡ []) }
    {
        if self.more { None } else { Some(()) }
    }
}

//! The head of a text: the five lines that tell version, size, player and stones.

ghost use Rattle.std.specs.Prelude.{◌≡◌, ◌+◌, ◌<◌, IfSome, OnOk};
ghost use Rattle.hex_board.specs.Positions.{Apart, Within};
ghost use Rattle.win_cert.specs.Lines.{head_in, lines_of, number_after, player_in, stones_in};
ghost use Rattle.win_cert.specs.Lines.{with_rest};
ghost use Rattle.win_cert.specs.OneLine.{IsLineTaken};

use super::reader::Reader;
use super::refusals::CertError;
use super::words::Words;
use super::{FIRST_VERSION, LATEST_VERSION};
use hex_board::Board;
use hex_cells::{CellSet, Colour, Size};

/// What the head of a text tells.
#[derive(Clone, Copy)]
pub(crate) struct Head {
    pub(crate) version: u32,
    pub(crate) board: Board,
    pub(crate) player: Colour,
}

// A line of a name and a number from `least` to `most`.
fn number_of(words: &mut Words<'_>, name: &[u8], least: u32, most: u32) -> Option<u32>
    ensures { result ≡ number_after name.now least most words.old }
{
    words.word(name)?;
    let number = words.number()?;
    if least <= number && number <= most {
        words.nothing()?;
        Some(number)
    } else {
        None
    }
}

// The line of the player.
fn player_of(words: &mut Words<'_>) -> Option<Colour>
    ensures { result ≡ player_in words.old }
{
    words.word(b"player")?;
    let name = words.next()?;
    if name == b"black".as_slice() {
        words.nothing()?;
        Some(Colour::Black)
    } else if name == b"white".as_slice() {
        words.nothing()?;
        Some(Colour::White)
    } else {
        None
    }
}

// A line of stones, none of them on a cell of `taken`.
fn stones_of(words: &mut Words<'_>, name: &[u8], size: Size, taken: CellSet) -> Option<CellSet>
    ensures value { result ≡ stones_in name.now size taken words.old }
    ensures on_board { IfSome result (Within size) }
    ensures apart { IfSome result (λ s. Apart s taken) }
{
    words.word(name)?;
    let stones = words.cells(size)?;
    if stones.meet(taken).bits() == 0 {
        Some(stones)
    } else {
        None
    }
}

impl Reader<'_> {
    // Takes the next line as a line of a name and a number; `None` exactly if it is none.
    fn number(&mut self, name: &[u8], least: u32, most: u32) -> Option<u32>
        requires { self.old.line < 5 }
        ensures count { self.new.line ≡ self.old.line + 1 }
        ensures value { IsLineTaken (number_after name.now least most) self.old.rest.now result
            self.new.rest.now }
    {
        let mut words = self.next()?;
        number_of(&mut words, name, least, most)
    }

    // Takes the next line as that of the player; `None` exactly if it is not.
    fn player(&mut self) -> Option<Colour>
        requires { self.old.line < 5 }
        ensures count { self.new.line ≡ self.old.line + 1 }
        ensures value { IsLineTaken player_in self.old.rest.now result self.new.rest.now }
    {
        let mut words = self.next()?;
        player_of(&mut words)
    }

    // Takes the next line as a line of stones; `None` exactly if it is none.
    fn stones(&mut self, name: &[u8], size: Size, taken: CellSet) -> Option<CellSet>
        requires { self.old.line < 5 }
        ensures count { self.new.line ≡ self.old.line + 1 }
        ensures value { IsLineTaken (stones_in name.now size taken) self.old.rest.now result
            self.new.rest.now }
        ensures on_board { IfSome result (Within size) }
        ensures apart { IfSome result (λ s. Apart s taken) }
    {
        let mut words = self.next()?;
        stones_of(&mut words, name, size, taken)
    }

    /// Reads the head of a text.
    pub(crate) fn head(&mut self) -> Result<Head, CertError>
        requires { self.old.line ≡ 0 }
        ensures value { with_rest result (lines_of self.new.rest.now)
            ≡ head_in (lines_of self.old.rest.now) }
        ensures count { OnOk result (self.new.line ≡ 5) }
    {
        let version = self
            .number(b"hexcert", FIRST_VERSION, LATEST_VERSION)
            .ok_or(self.bad())?;
        let n = self.number(b"size", 1, Size::MAX).ok_or(self.bad())?;
        let size = Size::of(n).ok_or(self.bad())?;
        let player = self.player().ok_or(self.bad())?;
        let black = self
            .stones(b"black", size, CellSet::none())
            .ok_or(self.bad())?;
        let white = self.stones(b"white", size, black).ok_or(self.bad())?;
        Ok(Head {
            version,
            board: Board::of(size, black, white),
            player,
        })
    }
}

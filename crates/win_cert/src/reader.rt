//! The lines of a text, one after the other.

ghost use Rattle.std.specs.Prelude.{◌≡◌, ◌+◌, ◌<◌};
ghost use Rattle.std.specs.List.{position};
ghost use Rattle.win_cert.specs.Lines.{is_nothing, lines_of};
ghost use Rattle.win_cert.specs.OneLine.{IsFirstLine};
ghost use Rattle.win_cert.specs.Words.{is_line_feed};

use super::refusals::CertError;
use super::words::Words;

// More lines than a text may have.
const MANY_LINES: u32 = 2_000_000;

/// What of a text is left to be read, and how many lines were begun. The lines are counted here
/// alone.
#[derive(Drop)]
pub(crate) struct Reader<'a> {
    pub(crate) rest: &'a [u8],
    pub(crate) line: u32,
}

fn first_line_feed(text: &[u8]) -> Option<usize>
    ensures { result ≡ position is_line_feed text.now }
{
    text.iter().position(|&b| b == b'\n')
}

impl<'a> Reader<'a> {
    /// A reader before the first line.
    pub(crate) fn of(text: &'a [u8]) -> Reader<'a>
        ensures rest { result.rest.now ≡ text.now }
        ensures line { result.line ≡ 0 }
    {
        Reader {
            rest: text,
            line: 0,
        }
    }

    /// Takes the next line: its words. `None` exactly if no line feed is left.
    pub(crate) fn next(&mut self) -> Option<Words<'a>>
        requires { self.old.line < MANY_LINES }
        ensures count { self.new.line ≡ self.old.line + 1 }
        ensures line { IsFirstLine self.old.rest.now result self.new.rest.now }
    {
        self.line += 1;
        let rest = self.rest;
        match first_line_feed(rest) {
            None => None,
            Some(end) => {
                self.rest = &rest[end + 1..];
                Some(Words::of(&rest[..end]))
            }
        }
    }

    /// Whether the whole text was read.
    pub(crate) fn is_done(&self) -> bool
        ensures { result ≡ is_nothing (lines_of self.now.rest.now) }
    {
        self.rest.is_empty()
    }

    /// That the line that was begun last is not as it should be.
    pub(crate) fn bad(&self) -> CertError
        ensures { result ≡ CertError.NotCert self.now.line }
    {
        CertError::NotCert { line: self.line }
    }
}

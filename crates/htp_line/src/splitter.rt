//! A stream in pieces, cut into raw lines.

ghost use Rattle.std.specs.Prelude.{◌≡◌, ◌+◌, ◌≤◌, ◌<◌, min, length, IfOk, Some, [], true, false};
ghost use Rattle.std.specs.Prelude.{List, ℕ, take, IfSome, option_map};
ghost use Rattle.std.specs.List.{position, position_or_len};
ghost use Rattle.htp_line.specs.Lines.{is_feed, whole, lines};
ghost use Rattle.htp_line.specs.Splitting.{after_piece, after_end, so_far, grown};
ghost use Rattle.htp_line.specs.Splitting.{StandsAfter, Advances, Ends};

use super::want::Memory;
use std::alloc::Global;
use std::marker::Model;

/// The most bytes of a raw line that is kept; a longer one is answered `line too long`.
pub const LINE_LIMIT: usize = 4096;

/// What a push did: how many bytes it used, and whether a line ended with the last of them.
#[derive(Clone, Copy, Debug)]
pub struct Fed {
    pub used: usize,
    pub ended: bool,
}

/// Cuts a stream, which comes in pieces of any length, into raw lines.
///
/// It keeps the line in hand as far as it has at most [`LINE_LIMIT`] bytes. A line that ended
/// stands in it until the next push or finish, and [`Splitter::line`] lends it.
#[derive(Drop)]
pub struct Splitter {
    buffer: Vec<u8>,
    is_long: bool,
    ended: bool,
}

impl Model for Splitter {
    ghost use Rattle.std.specs.Prelude.{◌≤◌, vec_len, vec_capacity, None, Some, if◌then◌else◌};
    ghost use Rattle.htp_line.specs.Splitting.{SplitterData};
    ghost use Rattle.htp_line.specs.declared.splitter.TheConstants.{LINE_LIMIT};

    ghost Value = { SplitterData };

    ghost view = { λ s. record {
      line = if s.is_long then None
          else Some s.buffer.items;
      ended = s.ended;
    } };

    ghost invariant = { λ s. (LINE_LIMIT ≤ vec_capacity s.buffer)
        × (vec_len s.buffer ≤ LINE_LIMIT) };
}

fn first_feed(piece: &[u8]) -> Option<usize>
    ensures { result ≡ position is_feed piece.now }
{
    piece.iter().position(|&b| b == b'\n')
}

impl Splitter {
    /// A splitter before its stream. It takes its buffer of [`LINE_LIMIT`] bytes, and no call takes
    /// memory after that.
    pub fn make(alloc: Global) -> Result<Splitter, Memory>
        ensures { IfOk result (λ s. s ≡ record { line = Some []; ended = false }) }
    {
        let buffer = Vec::with_capacity(alloc, LINE_LIMIT)?;
        Ok(Splitter {
            buffer,
            is_long: false,
            ended: false,
        })
    }

    /// Takes bytes up to and with the first line feed of the piece, or the whole piece.
    pub fn push(&mut self, piece: &[u8]) -> Fed
        ensures used { result.used ≡ min (position_or_len is_feed piece.now + 1)
            (length piece.now) }
        ensures line { self.new ≡ after_piece self.old piece.now }
        ensures ended { result.ended ≡ self.new.ended }
        // However the stream is cut into pieces, the lines are those of the whole text.
        ensures stream { (seen : List ℕ) → StandsAfter self.old seen
            → Advances self.new seen (take result.used piece.now) }
    {
        self.begin();
        match first_feed(piece) {
            None => {
                self.extend(piece);
                Fed {
                    used: piece.len(),
                    ended: false,
                }
            }
            Some(end) => {
                self.extend(&piece[..end]);
                self.close();
                Fed {
                    used: end + 1,
                    ended: true,
                }
            }
        }
    }

    /// Ends the last line, as a line feed would, if bytes stand after the last line feed. It
    /// says whether one did.
    pub fn finish(&mut self) -> bool
        ensures line { self.new ≡ after_end self.old }
        ensures ended { result ≡ self.new.ended }
        ensures stream { (seen : List ℕ) → StandsAfter self.old seen
            → Ends self.new.ended self.new.line (whole seen) (lines seen) }
    {
        self.begin();
        self.ended = self.is_long || !self.buffer.is_empty();
        self.ended
    }

    /// Lends the raw line that ended; none if it has more than [`LINE_LIMIT`] bytes. The line feed
    /// is not counted.
    pub fn line(&self) -> Option<&[u8]>
        requires ended { self.now.ended ≡ true }
        ensures line { option_map (λ raw. raw.now) result ≡ self.now.line }
        ensures short { IfSome result (λ raw. length raw.now ≤ LINE_LIMIT) }
    {
        if self.is_long {
            None
        } else {
            Some(&self.buffer)
        }
    }

    fn begin(&mut self)
        ensures { self.new ≡ record { line = so_far self.old; ended = false } }
    {
        if self.ended {
            self.buffer.clear();
            self.is_long = false;
            self.ended = false;
        }
    }

    fn extend(&mut self, front: &[u8])
        ensures { self.new
            ≡ record { line = grown self.old.line front.now; ended = self.old.ended } }
    {
        if self.is_long {
            return;
        }
        if front.len() <= LINE_LIMIT - self.buffer.len() {
            self.buffer.extend_from_slice(front).unwrap();
        } else {
            self.is_long = true;
        }
    }

    fn close(&mut self)
        ensures { self.new ≡ record self.old { ended = true } }
    {
        self.ended = true;
    }
}

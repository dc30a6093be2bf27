//! The words of a text, read in their place.

ghost use Rattle.std.specs.Prelude.{◌≡◌, ◌+◌, ◌<◌, ◌≤◌, ◌%◌, ◌^◌, length, slice_index, take, drop};
ghost use Rattle.std.specs.Int.{w64, to_le_bytes};
ghost use Rattle.trace_audit.specs.WordLists.{words_from};

use super::texts::WORD_BYTES;
use std::marker::Model;

/// The words that stand in bytes, and words of 0 where these end. An audit reads a text where it
/// stands, since a copy would take as much memory again.
#[derive(Drop)]
pub(crate) struct Words<'a> {
    bytes: &'a [u8],
    len: usize,
}

impl<'a> Model for Words<'a> {
    ghost use Rattle.std.specs.Prelude.{◌≡◌, ℕ, ◌%◌, ◌^◌, ◌<◌, List, length};
    ghost use Rattle.trace_audit.specs.WordLists.{words_from};
    ghost use Rattle.trace_audit.specs.declared.texts.TheConstants.{WORD_BYTES};

    ghost Value = { List ℕ };

    ghost view = { λ w. words_from w.len w.bytes.now };

    ghost invariant = { λ w. (length w.bytes.now % WORD_BYTES ≡ 0) × (w.len < 2 ^ 32) };
}

/// The word that stands at this byte.
pub(crate) fn word_at(bytes: &[u8], at: usize) -> u64
    requires { at + WORD_BYTES ≤ length bytes.now }
    ensures bytes { to_le_bytes w64 result ≡ take WORD_BYTES (drop at bytes.now) }
    ensures range { result < 2 ^ 64 }
{
    u64::from_le_bytes([
        bytes[at],
        bytes[at + 1],
        bytes[at + 2],
        bytes[at + 3],
        bytes[at + 4],
        bytes[at + 5],
        bytes[at + 6],
        bytes[at + 7],
    ])
}

impl<'a> Words<'a> {
    /// So many words: those in the bytes, and then 0.
    pub(crate) fn of(bytes: &'a [u8], len: usize) -> Words<'a>
        requires whole { length bytes.now % WORD_BYTES ≡ 0 }
        requires few { len < 2 ^ 32 }
        ensures { result ≡ words_from len bytes.now }
    {
        Words { bytes, len }
    }

    /// How many words there are.
    pub(crate) fn len(&self) -> usize
        ensures { result ≡ length self.now }
    {
        self.len
    }

    /// The word of this number.
    #[inline(always)]
    pub(crate) fn at(&self, at: usize) -> u64
        requires { at < length self.now }
        ensures { result ≡ slice_index self.now at }
    {
        let bytes = self.bytes;
        let from = WORD_BYTES * at;
        if bytes.len() <= from {
            return 0;
        }
        word_at(bytes, from)
    }
}

//! The text of a closed tree, given to a link through a buffer.

ghost use Rattle.std.specs.Prelude.{◌≡◌, ◌*◌, ◌≤◌, OnOk, OnErr, length, vec_capacity};
ghost use Rattle.hex_io.specs.Causes.{HasCause};
ghost use Rattle.hex_io.specs.Grew.{Gave, GaveProperPart};
ghost use Rattle.trace_audit.specs.Traces.{bytes_of, colour_number, fields_of, high_word, low_word};
ghost use Rattle.trace_audit.specs.Traces.{trace_text, written_count};

use super::places::{
    ALLOWED_FIELD, BLACK_FIELD, COUNT_FIELD, EXPAND_FIELD, FIELDS, PLAYER_FIELD, PLAYOUTS_FIELD,
    SEED_FIELD, SIZE_FIELD, WEIGHT_FIELD, WHITE_FIELD, WORDS_FIELD, WORKERS_FIELD,
};
use hex_cells::{CellSet, Colour};
use hex_io::{Link, LinkFault, give};
use tree_words::Closed;
use tree_words::layout::{HIGH_EMPTIES_SHIFT, NEXT_AT};

/// How many bytes the buffer of an archive holds: those of a page of memory.
pub const BUFFER_BYTES: usize = 4_096;

/// A word has eight bytes.
pub(crate) const WORD_BYTES: usize = 8;

/// So many words fill the buffer.
const BUFFER_WORDS: usize = BUFFER_BYTES / WORD_BYTES;

/// Gives the text of the tree. At a fault a prefix of it was given that is not all of it.
pub fn give_text<W: Link>(
    link: &mut W,
    buffer: &mut Vec<u8>,
    closed: &Closed,
) -> Result<(), LinkFault>
    requires { BUFFER_BYTES ≤ vec_capacity buffer.old }
    ensures room { BUFFER_BYTES ≤ vec_capacity buffer.new }
    ensures all { OnOk result (Gave (W.told link.old) (W.told link.new) (trace_text closed.now)) }
    ensures proper { OnErr result
        (GaveProperPart (W.told link.old) (W.told link.new) (trace_text closed.now)) }
    ensures cause { HasCause (W.write_faults link.old) (W.write_faults link.new) result }
    ensures reads { W.read_faults link.new ≡ W.read_faults link.old }
{
    let words = closed.words();
    let count = written_count(words);
    give(link, b"HEXTREE1")?;
    give_words(link, buffer, &fields(closed, count))?;
    give_words(link, buffer, &words[..count])
}

/// How many of the words are written: all below NEXT.
fn written_count(words: &[u64]) -> usize
    requires { 1 ≤ length words.now }
    ensures value { result ≡ written_count words.now }
    ensures range { result ≤ length words.now }
{
    words[NEXT_AT].min(words.len() as u64) as usize
}

/// The fields of a trace of so many words.
fn fields(closed: &Closed, count: usize) -> [u64; FIELDS]
    ensures { result ≡ fields_of closed.now.shape count }
{
    let shape = closed.shape();
    let board = shape.board();
    let black = board.stones(Colour::Black);
    let white = board.stones(Colour::White);
    let allowed = shape.allowed();
    let knobs = shape.knobs();
    let mut fields = [0; FIELDS];
    fields[SIZE_FIELD] = u64::from(board.size().get());
    fields[BLACK_FIELD] = low_word(black);
    fields[BLACK_FIELD + 1] = high_word(black);
    fields[WHITE_FIELD] = low_word(white);
    fields[WHITE_FIELD + 1] = high_word(white);
    fields[PLAYER_FIELD] = colour_number(shape.colour());
    fields[ALLOWED_FIELD] = low_word(allowed);
    fields[ALLOWED_FIELD + 1] = high_word(allowed);
    fields[WORKERS_FIELD] = u64::from(knobs.workers);
    fields[PLAYOUTS_FIELD] = u64::from(knobs.playouts);
    fields[SEED_FIELD] = knobs.seed;
    fields[WORDS_FIELD] = u64::from(knobs.words);
    fields[EXPAND_FIELD] = u64::from(knobs.expand);
    fields[WEIGHT_FIELD] = u64::from(knobs.weight);
    fields[COUNT_FIELD] = count as u64;
    fields
}

/// A player as a word.
fn colour_number(colour: Colour) -> u64
    ensures { result ≡ colour_number colour }
{
    match colour {
        Colour::Black => 0,
        Colour::White => 1,
    }
}

/// The cells 0 to 63, as bits.
fn low_word(set: CellSet) -> u64
    ensures { result ≡ low_word set }
{
    (set.bits() % (1 << HIGH_EMPTIES_SHIFT)) as u64
}

/// The cells from 64 on, as bits.
fn high_word(set: CellSet) -> u64
    ensures { result ≡ high_word set }
{
    (set.bits() >> HIGH_EMPTIES_SHIFT) as u64
}

/// Gives the bytes of these words, as many at a time as the buffer holds. At a fault a prefix of
/// them was given that is not all of them.
fn give_words<W: Link>(link: &mut W, buffer: &mut Vec<u8>, words: &[u64]) -> Result<(), LinkFault>
    requires { BUFFER_BYTES ≤ vec_capacity buffer.old }
    ensures room { BUFFER_BYTES ≤ vec_capacity buffer.new }
    ensures all { OnOk result (Gave (W.told link.old) (W.told link.new) (bytes_of words.now)) }
    ensures proper { OnErr result
        (GaveProperPart (W.told link.old) (W.told link.new) (bytes_of words.now)) }
    ensures cause { HasCause (W.write_faults link.old) (W.write_faults link.new) result }
    ensures reads { W.read_faults link.new ≡ W.read_faults link.old }
{
    let mut at = 0;
    'pieces: while at < words.len() {
        let end = words.len().min(at + BUFFER_WORDS);
        fill(buffer, &words[at..end]);
        give(link, buffer)?;
        at = end;
    }
    Ok(())
}

/// Puts the bytes of these words into the buffer, which has room for them.
fn fill(buffer: &mut Vec<u8>, words: &[u64])
    requires { WORD_BYTES * length words.now ≤ vec_capacity buffer.old }
    ensures items { buffer.new.items ≡ bytes_of words.now }
    ensures room { vec_capacity buffer.old ≤ vec_capacity buffer.new }
{
    buffer.clear();
    for word in words {
        buffer.extend_from_slice(&word.to_le_bytes()).unwrap();
    }
}

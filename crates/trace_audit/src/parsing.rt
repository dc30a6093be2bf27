//! A text, read from bytes.

ghost use Rattle.std.specs.Prelude.{◌≡◌, ℕ, ◌+◌, ◌*◌, ◌<◌, ◌≤◌, ◌^◌, MatchOption};
ghost use Rattle.std.specs.Prelude.{length, slice_index, take, drop};
ghost use Rattle.std.specs.Int.{w64, to_le_bytes};
ghost use Rattle.trace_audit.specs.Texts.{AreFields, IsHeader, IsText, LacksFields, MayFollow};
ghost use Rattle.trace_audit.specs.Texts.{BeginsWithNoTree, StandAt};
ghost use Rattle.tree_words.specs.Areas.{with_area};
ghost use Rattle.tree_words.specs.Words.{area_at, end_of};
ghost use Rattle.trace_audit.specs.Told.{AreWords};

use super::fields::shape_of;
use super::places::{COUNT_FIELD, FIELDS};
use super::texts::WORD_BYTES;
use super::word_list::{Words, word_at};
use tree_words::layout::NEXT_AT;
use tree_words::{LEAST_WORDS, Shape};

/// The name of a text and its fields have so many bytes.
const HEADER_BYTES: usize = WORD_BYTES + WORD_BYTES * FIELDS;

/// What is read from a text: the shape that it tells, and how many bytes it has. Also the same
/// shape with an area that ends behind the written words, and the words up to there, so that no
/// memory is taken for words of which the text has none.
#[derive(Drop)]
pub(crate) struct Text<'a> {
    pub(crate) shape: Shape,
    pub(crate) cut: Shape,
    pub(crate) words: Words<'a>,
    pub(crate) bytes: usize,
}

// Reads so many words that stand from this byte on.
fn read_words(bytes: &[u8], at: usize, words: &mut [u64], count: usize)
    requires bytes { at + WORD_BYTES * count ≤ length bytes.now }
    requires room { count ≤ length words.old }
    ensures long { length words.new ≡ length words.old }
    ensures read { StandAt bytes.now at (take count words.new) }
    ensures range { AreWords words.old → AreWords words.new }
    ensures rest { (i : ℕ) → count ≤ i → slice_index words.new i ≡ slice_index words.old i }
{
    'words: for i in 0..count {
        words[i] = word_at(bytes, at + WORD_BYTES * i);
    }
}

// The fields of a text that begins so.
fn fields_in(bytes: &[u8]) -> Option<[u64; FIELDS]>
    ensures { MatchOption result (LacksFields bytes.now) (AreFields bytes.now) }
{
    if bytes.len() < HEADER_BYTES {
        return None;
    }
    if !bytes.starts_with(b"HEXTREE1") {
        return None;
    }
    let mut fields = [0; FIELDS];
    read_words(bytes, WORD_BYTES, &mut fields, FIELDS);
    Some(fields)
}

// How many words a text has whose shape and last field these are: from all before the block
// area to all of the tree, and no more than the bytes behind the fields have.
fn count_in(shape: &Shape, field: u64, bytes: usize) -> Option<usize>
    ensures { MatchOption result (¬ (MayFollow shape.now field bytes))
        (λ count. (count ≡ field) × MayFollow shape.now count bytes) }
{
    if field < u64::from(shape.area()) || u64::from(shape.total()) < field {
        return None;
    }
    let count = field as usize;
    if bytes < WORD_BYTES * count {
        return None;
    }
    Some(count)
}

// What the name and the fields of a text tell: its shape, and how many words follow.
#[derive(Clone, Copy, Debug)]
struct Header {
    shape: Shape,
    count: usize,
}

// What name and fields of the text tell that the bytes begin with; `None` if they begin with none.
fn read_header(bytes: &[u8]) -> Option<Header>
    ensures { MatchOption result (BeginsWithNoTree bytes.now)
        (λ header. IsHeader bytes.now header.shape header.count) }
{
    let Some(fields) = fields_in(bytes) else {
        return None;
    };
    let Some(shape) = shape_of(&fields) else {
        return None;
    };
    shape.keeps();
    let Some(count) = count_in(&shape, fields[COUNT_FIELD], bytes.len() - HEADER_BYTES) else {
        return None;
    };
    Some(Header { shape, count })
}

// The shape with an area that ends behind so many words of the tree, or is the least one.
fn cut_at(shape: &Shape, count: usize) -> Shape
    requires least { area_at shape.now ≤ count }
    requires most { count ≤ end_of shape.now }
    ensures area { result ≡ with_area shape.now result.knobs.words }
    ensures less { end_of result ≤ end_of shape.now }
    ensures enough { count ≤ end_of result }
{
    shape.keeps();
    let written = count - shape.area() as usize;
    shape.narrowed((written as u32).max(LEAST_WORDS))
}

/// The text that the bytes begin with; `None` if they begin with none.
pub(crate) fn read_text<'a>(bytes: &'a [u8]) -> Option<Text<'a>>
    ensures { MatchOption result (BeginsWithNoTree bytes.now) (IsText bytes.now) }
{
    let Some(header) = read_header(bytes) else {
        return None;
    };
    header.shape.keeps();
    let cut = cut_at(&header.shape, header.count);
    let end = HEADER_BYTES + WORD_BYTES * header.count;
    let words = Words::of(&bytes[HEADER_BYTES..end], cut.total() as usize);
    if words.at(NEXT_AT).min(u64::from(header.shape.total())) != header.count as u64 {
        return None;
    }
    Some(Text {
        shape: header.shape,
        cut,
        words,
        bytes: end,
    })
}

//! A law of the layout: each place and unit with its number, as `layout` draws them.
//!
//! Definitions name these constants, so a wrong number would make a wrong definition. So here the
//! numbers stand bare on purpose: of a name the law would hold whatever its number.

ghost use Rattle.std.specs.Prelude.{◌≡◌, ◌^◌};

use crate::layout::{
    COUNT_WORD, FRONT_WORDS, HEADER_WORDS, HIGH_EMPTIES_SHIFT, HIGH_EMPTIES_WORD, LINK_WORD,
    LOW_EMPTIES_WORD, MOST_BLOCK_WORDS, MOST_NODES, NEXT_AT, NODE_WORDS, PLACE_UNIT, RECORD_UNIT,
    RECORDS_AT, SEEN_WORD, TALLY_WORD, TICKET_AT, VISIT, VISITS_SHIFT,
};

/// A law, with nothing to run: where the parts of a tree, of a node and of a block stand, and what
/// a move, a tally, a seen word and a record are made of.
pub fn words_stand_where_they_are_drawn()
    ensures front { (NEXT_AT ≡ 0) × (TICKET_AT ≡ 1) × (RECORDS_AT ≡ 2) × (FRONT_WORDS ≡ 6) }
    ensures node { (LINK_WORD ≡ 1) × (TALLY_WORD ≡ 2) × (SEEN_WORD ≡ 3) × (NODE_WORDS ≡ 4) }
    ensures block { (LOW_EMPTIES_WORD ≡ 1) × (HIGH_EMPTIES_WORD ≡ 2) × (COUNT_WORD ≡ 3)
        × (HEADER_WORDS ≡ 4) }
    ensures units { (PLACE_UNIT ≡ 256) × (VISIT ≡ 2 ^ 32) × (VISITS_SHIFT ≡ 32)
        × (RECORD_UNIT ≡ 2) × (HIGH_EMPTIES_SHIFT ≡ 64) }
    ensures most { (MOST_NODES ≡ 121) × (MOST_BLOCK_WORDS ≡ 488) }
{}

//! The parts of words, read.

ghost use Rattle.std.specs.Prelude.{◌≡◌, ◌+◌, ◌-◌, ◌/◌, ◌%◌, ◌^◌, ◌<◌, ◌≤◌, length};
ghost use Rattle.std.specs.Prelude.{slice_index};
ghost use Rattle.tree_words.specs.Words.{block_in, cell_in, link_in, node_in, place_in, visits_in};
ghost use Rattle.tree_words.specs.Words.{wins_in};

use super::layout::{
    COUNT_WORD, HEADER_WORDS, HIGH_EMPTIES_SHIFT, HIGH_EMPTIES_WORD, LINK_WORD, LOW_EMPTIES_WORD,
    NODE_WORDS, PLACE_UNIT, SEEN_WORD, TALLY_WORD, VISIT, VISITS_SHIFT,
};
use super::types::{Block, NodeFields};
use hex_cells::{CellSet, MOST_CELLS};

/// The number of the cell that a move word has.
pub fn cell_of(move_word: u64) -> u32
    ensures { result ≡ cell_in move_word }
{
    (move_word % PLACE_UNIT) as u32
}

/// The visits that a tally or a seen word has.
pub fn visits_of(word: u64) -> u32
    ensures { result ≡ visits_in word }
{
    (word >> VISITS_SHIFT) as u32
}

/// The wins that a tally or a seen word has.
pub fn wins_of(word: u64) -> u32
    ensures { result ≡ wins_in word }
{
    (word % VISIT) as u32
}

/// The fields of the node whose first word is `at`. Its words lie within the words, and its place
/// and its link are below 2^32.
pub fn node(words: &[u64], at: u32) -> NodeFields
    requires within { at + NODE_WORDS ≤ length words.now }
    requires place { place_in (slice_index words.now at) < 2 ^ 32 }
    requires link { link_in words.now at < 2 ^ 32 }
    ensures { result ≡ node_in words.now at }
{
    let at = at as usize;
    let tally = words[at + TALLY_WORD];
    let seen = words[at + SEEN_WORD];
    NodeFields {
        cell: cell_of(words[at]),
        place: (words[at] / PLACE_UNIT) as u32,
        link: words[at + LINK_WORD] as u32,
        visits: visits_of(tally),
        wins: wins_of(tally),
        seen: visits_of(seen),
        seen_wins: wins_of(seen),
    }
}

/// The fields of the header of the block whose first word is `at`. The header lies within the
/// words, its parent and its count are below 2^32, and no empty cell is past those of the largest
/// board.
pub fn block(words: &[u64], at: u32) -> Block
    requires within { at + HEADER_WORDS ≤ length words.now }
    requires parent { slice_index words.now at < 2 ^ 32 }
    requires cells { let high = slice_index words.now (at + HIGH_EMPTIES_WORD) in
        high < 2 ^ (MOST_CELLS - HIGH_EMPTIES_SHIFT) }
    requires count { slice_index words.now (at + COUNT_WORD) < 2 ^ 32 }
    ensures { result ≡ block_in words.now at }
{
    let at = at as usize;
    Block {
        parent: words[at] as u32,
        empties: CellSet::of_bits(
            (u128::from(words[at + HIGH_EMPTIES_WORD]) << HIGH_EMPTIES_SHIFT)
                + u128::from(words[at + LOW_EMPTIES_WORD]),
        ),
        count: words[at + COUNT_WORD] as u32,
    }
}

//! A leaf's block, if it asks for one.

ghost use Rattle.std.specs.Prelude.{◌≡◌, ◌+◌, ◌<◌, ◌≤◌, length};
ghost use Rattle.tree_words.specs.Blocks.{block_size};
ghost use Rattle.tree_words.specs.declared.layout.TheConstants.{MOST_BLOCK_WORDS};
ghost use Rattle.tree_words.specs.Paths.{NodeState};
ghost use Rattle.tree_words.specs.Sequence.{asks, gets_block};
ghost use Rattle.tree_words.specs.Words.{end_of, next_in, tally_in};
ghost use Rattle.play_out.specs.Fills.{empties_of};
ghost use Rattle.seq_search.specs.Writing.{Grows, LinksBelow};

use hex_board::Board;
use tree_words::layout::{
    HEADER_WORDS, LINK_WORD, MOST_BLOCK_WORDS, MOST_NODES, NEXT_AT, NODE_WORDS, TALLY_WORD,
};
use tree_words::{Shape, visits_of, write_block};

// How many empty cells the board has.
fn empty_count(board: &Board) -> usize
    ensures value { result ≡ length (empties_of board.now) }
    ensures range { result ≤ MOST_NODES }
{
    // The size bounds the board's cells.
    board.keeps();
    board.empties().count() as usize
}

// Whether the leaf, whose board this is, asks for a block: it has as many visits as the expand
// number says, there is an empty cell, and NEXT is at most the area's end.
fn asks_for_block(words: &[u64], shape: &Shape, leaf: usize, board: &Board) -> bool
    requires long { length words.now ≡ end_of shape.now }
    requires leaf { leaf + NODE_WORDS ≤ length words.now }
    ensures { (p : NodeState) → p.board ≡ board.now
        → result ≡ asks shape.now (next_in words.now) (tally_in words.now leaf) p }
{
    if visits_of(words[leaf + TALLY_WORD]) < shape.knobs().expand {
        return false;
    }
    if empty_count(board) == 0 {
        return false;
    }
    words[NEXT_AT] as usize <= words.len()
}

// Writes the block below the leaf, whose board this is, from the word `start` on, and names it by
// the leaf's link.
fn link_block(words: &mut [u64], start: usize, leaf: usize, board: &Board)
    requires within { start + block_size (length (empties_of board.now)) ≤ length words.old }
    requires leaf { leaf + NODE_WORDS ≤ length words.old }
    ensures { (p : NodeState) → p.board ≡ board.now → LinksBelow start leaf p words.old words.new }
{
    let empties = board.empties();
    write_block(words, start, leaf, empties, empties, board.size());
    words[leaf + LINK_WORD] = start as u64;
}

/// Gives the leaf, whose board this is, its block if it asks for one and the block fits inside
/// the area, and answers whether it did. NEXT grows also if it doesn't fit.
pub(crate) fn expand(words: &mut [u64], shape: &Shape, leaf: usize, board: &Board) -> bool
    requires long { length words.old ≡ end_of shape.now }
    requires leaf { leaf + NODE_WORDS ≤ length words.old }
    requires next { (1 ≤ next_in words.old)
        × (next_in words.old ≤ end_of shape.now + MOST_BLOCK_WORDS) }
    ensures told { (p : NodeState) → p.board ≡ board.now
        → result ≡ gets_block shape.now (next_in words.old) (tally_in words.old leaf) p }
    ensures words { (p : NodeState) → p.board ≡ board.now
        → Grows shape.now leaf p words.old words.new }
{
    if !asks_for_block(words, shape, leaf, board) {
        return false;
    }
    let start = words[NEXT_AT] as usize;
    let past = start + HEADER_WORDS + NODE_WORDS * empty_count(board);
    words[NEXT_AT] = past as u64;
    if words.len() < past {
        return false;
    }
    link_block(words, start, leaf, board);
    true
}

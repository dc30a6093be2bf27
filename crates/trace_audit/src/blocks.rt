//! A block of the words, compared with the one that its parent's board tells.

ghost use Rattle.std.specs.Prelude.{◌≡◌, ◌+◌, ◌<◌, ◌≤◌, ◌↔◌, IsTrue, length};
ghost use Rattle.tree_words.specs.Words.{end_of};
ghost use Rattle.tree_words.specs.Writing.{listed};
ghost use Rattle.tree_words.specs.declared.layout.TheConstants.{MOST_BLOCK_WORDS};
ghost use Rattle.trace_audit.specs.Scans.{IsBlockEnd, ShowsWords};
ghost use Rattle.trace_audit.specs.Tables.{block_at};

use super::word_list::Words;
use hex_board::Board;
use hex_cells::CellSet;
use tree_words::layout::{HEADER_WORDS, MOST_BLOCK_WORDS, NEXT_AT, NODE_WORDS};
use tree_words::{Shape, write_block};

// Whether the words from `at` on are a block's: its header words and its moves.
fn same_block(words: &Words, at: usize, block: &[u64; MOST_BLOCK_WORDS], size: usize) -> bool
    requires within { at + size ≤ length words.now }
    requires few { size ≤ MOST_BLOCK_WORDS }
    ensures { IsTrue result ↔ ShowsWords words.now at block.now size }
{
    // Bounds the places of words.
    let _len = words.len();
    'words: for i in 0..size {
        if (i < HEADER_WORDS || i % NODE_WORDS == 0) && words.at(at + i) != block[i] {
            return false;
        }
    }
    true
}

// The cells of a block below a node with this board.
fn cells_below(shape: &Shape, parent: usize, board: &Board) -> CellSet
    requires { board.now.size ≡ shape.now.board.size }
    ensures { listed board.now.size result
        ≡ (block_at shape.now board.now parent 0).cells }
{
    if parent == shape.root() as usize {
        shape.allowed()
    } else {
        board.empties()
    }
}

/// The word after the block at `at` below a node with this board, if it stands there; `None` if it
/// does not.
pub(crate) fn block_end(
    words: &Words,
    shape: &Shape,
    at: usize,
    parent: usize,
    board: &Board,
) -> Option<usize>
    requires long { length words.now ≡ end_of shape.now }
    requires at { at < length words.now }
    requires size { board.now.size ≡ shape.now.board.size }
    ensures { IsBlockEnd shape.now words.now at
        (block_at shape.now board.now parent at) result }
{
    shape.keeps();
    let empties = board.empties();
    let cells = cells_below(shape, parent, board);
    let mut block = [0; MOST_BLOCK_WORDS];
    let count = write_block(&mut block, 0, parent, empties, cells, board.size());
    let size = HEADER_WORDS + NODE_WORDS * count;
    let end = at + size;
    if words.len() < end {
        return None;
    }
    if words.at(NEXT_AT) < end as u64 {
        return None;
    }
    if same_block(words, at, &block, size) {
        Some(end)
    } else {
        None
    }
}

//! The writes of a new block: its header and its moves.

ghost use Rattle.std.specs.Prelude.{◌≡◌, ◌+◌, ◌*◌, ◌<◌, ◌≤◌, length};
ghost use Rattle.tree_words.specs.Blocks.{size, block_size};
ghost use Rattle.tree_words.specs.Writing.{WritesBlock, WritesMoves, listed};

use super::layout::{
    COUNT_WORD, HEADER_WORDS, HIGH_EMPTIES_SHIFT, HIGH_EMPTIES_WORD, LOW_EMPTIES_WORD, NODE_WORDS,
    PLACE_UNIT,
};
use hex_cells::{Cell, CellSet, Size};

/// Writes the moves of a block that begins at `start` and has these cells of the board, in rising
/// order, and answers how many they are. No other word changes.
pub fn write_moves(words: &mut [u64], start: usize, cells: CellSet, size: Size) -> usize
    requires within { start + block_size (length (listed size cells)) ≤ length words.old }
    ensures moves { WritesMoves (record {
      start = start;
      parent = 0;
      empties = 0;
      cells = listed size cells;
    }) words.old words.new }
    ensures count { result ≡ length (listed size cells) }
{
    let mut place = 0;
    for k in 0..size.cells() {
        if cells.has(Cell::numbered(k)) {
            words[start + HEADER_WORDS + NODE_WORDS * place] = PLACE_UNIT * place as u64
                + u64::from(k);
            place += 1;
        }
    }
    place
}

/// Writes the header and the moves of the block that begins at `start`, below the node at `parent`
/// whose board has these empty cells: its nodes have the given cells of the board in rising order.
/// Answers how many they are. No other word changes: if the words of the block were 0, its links,
/// tallies and seen words are 0.
pub fn write_block(
    words: &mut [u64],
    start: usize,
    parent: usize,
    empties: CellSet,
    cells: CellSet,
    size: Size,
) -> usize
    requires { start + block_size (length (listed size cells)) ≤ length words.old }
    ensures words { WritesBlock (record {
      start = start;
      parent = parent;
      empties = empties;
      cells = listed size cells;
    }) words.old words.new }
    ensures count { result ≡ length (listed size cells) }
{
    let count = write_moves(words, start, cells, size);
    let bits = empties.bits();
    words[start] = parent as u64;
    words[start + LOW_EMPTIES_WORD] = (bits % (1 << HIGH_EMPTIES_SHIFT)) as u64;
    words[start + HIGH_EMPTIES_WORD] = (bits >> HIGH_EMPTIES_SHIFT) as u64;
    words[start + COUNT_WORD] = count as u64;
    count
}

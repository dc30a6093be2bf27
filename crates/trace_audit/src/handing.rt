//! The sums handed up: what the playouts below a node add to the sums of its block.
//!
//! A playout adds to the sums of its leaf's block alone. When all blocks behind a block have handed
//! up theirs, its own sums have all playouts below its parent, and go to the parent and its block.
//! So each block is read twice, however many playouts go through it. A stone of a full board is one
//! player's or the other's: what the parent's block sees is what this one does not.

ghost use Rattle.std.specs.Prelude.{◌≡◌, ◌+◌, ◌-◌, ◌<◌, ◌≤◌, ◌^◌, length, slice_index};
ghost use Rattle.tree_words.specs.Blocks.{block_size};
ghost use Rattle.tree_words.specs.Words.{end_of, nodes_in};
ghost use Rattle.trace_audit.specs.Gains.{AreCells, AreUnseen, GainsBlock, HasGiftRoom, IsNodeOf};
ghost use Rattle.trace_audit.specs.Gains.{Sees, rest_gift, turned_word};
ghost use Rattle.trace_audit.specs.Playouts.{HandsAll, HandsUp, HasOwnSums, MayHandUp};

use super::gains::gain;
use super::sites::Table;
use super::word_list::Words;
use hex_cells::MOST_CELLS;
use tree_words::layout::{
    COUNT_WORD, HEADER_WORDS, NODE_WORDS, PLACE_UNIT, SEEN_WORD, TALLY_WORD, VISIT,
};
use tree_words::{Shape, cell_of, visits_of};

/// There are so many cells.
const CELLS: usize = MOST_CELLS as usize;

// The same visits, with the wins of the other player.
fn turned(word: u64) -> u64
    ensures { result ≡ turned_word word }
{
    let visits = u64::from(visits_of(word));
    VISIT * visits + visits.saturating_sub(word % VISIT)
}

// For each cell of the block the playouts that see it, with the wins of the other player; 0 for
// each other cell.
fn unseen(words: &Words, sums: &[u64], block: usize) -> [u64; CELLS]
    requires within { block + block_size (nodes_in words.now block) ≤ length words.now }
    requires long { length sums.now ≡ length words.now }
    requires cells { AreCells words.now block }
    ensures { AreUnseen words.now sums.now block (nodes_in words.now block) result }
{
    let mut unseen = [0; CELLS];
    let count = words.at(block + COUNT_WORD) as usize;
    'nodes: for place in 0..count {
        let at = block + HEADER_WORDS + NODE_WORDS * place;
        unseen[cell_of(words.at(at)) as usize] = turned(sums[at + SEEN_WORD]);
    }
    unseen
}

// Adds to the seen word of each node of the block the amount without what is not seen at its cell.
fn see_rest(words: &Words, sums: &mut [u64], block: usize, amount: u64, unseen: &[u64; CELLS])
    requires within { block + block_size (nodes_in words.now block) ≤ length words.now }
    requires long { length sums.old ≡ length words.now }
    requires cells { AreCells words.now block }
    requires small { HasGiftRoom words.now sums.old block amount unseen.now }
    ensures { Sees words.now block (nodes_in words.now block) (rest_gift amount unseen.now)
        sums.old sums.new }
{
    let count = words.at(block + COUNT_WORD) as usize;
    'nodes: for place in 0..count {
        let at = block + HEADER_WORDS + NODE_WORDS * place;
        sums[at + SEEN_WORD] += amount - unseen[cell_of(words.at(at)) as usize];
    }
}

// Adds the amount to the sums of the block and of its node.
fn gain_block(
    words: &Words,
    sums: &mut [u64],
    block: usize,
    node: usize,
    amount: u64,
    unseen: &[u64; CELLS],
)
    requires within { block + block_size (nodes_in words.now block) ≤ length words.now }
    requires long { length sums.old ≡ length words.now }
    requires cells { AreCells words.now block }
    requires node { IsNodeOf words.now block node }
    requires small { HasGiftRoom words.now sums.old block amount unseen.now }
    requires tally { slice_index sums.old (node + TALLY_WORD) + amount < 2 ^ 64 }
    requires total { slice_index sums.old block + amount < 2 ^ 64 }
    ensures { GainsBlock words.now block node amount (rest_gift amount unseen.now)
        sums.old sums.new }
{
    gain(sums, block, amount);
    gain(sums, node + TALLY_WORD, amount);
    see_rest(words, sums, block, amount, unseen);
}

// Hands up the sums of the block at `at`, to which all blocks behind it have handed up theirs.
fn hand_up(words: &Words, shape: &Shape, sums: &mut [u64], at: usize)
    requires long { length words.now ≡ end_of shape.now }
    requires sums { MayHandUp shape.now words.now sums.old at }
    ensures { HandsUp shape.now words.now sums.old sums.new at }
{
    shape.keeps();
    let amount = turned(sums[at]);
    let parent = words.at(at) as usize;
    if parent == shape.root() as usize {
        gain(sums, parent + TALLY_WORD, amount);
    } else {
        let unseen = unseen(words, sums, at);
        let place = (words.at(parent) / PLACE_UNIT) as usize;
        let block = parent - HEADER_WORDS - NODE_WORDS * place;
        gain_block(words, sums, block, parent, amount, &unseen);
    }
}

/// Hands up the sums of all blocks, the last one first.
pub(crate) fn hand_all(words: &Words, shape: &Shape, table: &Table, sums: &mut [u64])
    requires long { length words.now ≡ end_of shape.now }
    requires sums { HasOwnSums shape.now words.now table.now sums.old shape.now.knobs.playouts }
    ensures { HandsAll shape.now words.now table.now sums.old sums.new }
{
    shape.keeps();
    let area = shape.area() as usize;
    let mut at = words.len();
    'words: while area < at {
        at -= 1;
        if table.index.entry(at) != 0 {
            hand_up(words, shape, sums, at);
        }
    }
}

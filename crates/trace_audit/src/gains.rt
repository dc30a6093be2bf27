//! What a playout adds to the sums of its leaf's block.

ghost use Rattle.std.specs.Prelude.{◌≡◌, ◌+◌, ◌<◌, ◌≤◌, ◌^◌, if◌then◌else◌, length, set};
ghost use Rattle.std.specs.Prelude.{slice_index};
ghost use Rattle.hex_board.specs.Positions.{stones_of};
ghost use Rattle.hex_cells.specs.Colours.{is_same};
ghost use Rattle.hex_cells.specs.Sets.{has};
ghost use Rattle.tree_words.specs.Blocks.{block_size};
ghost use Rattle.tree_words.specs.Sequence.{amount_of};
ghost use Rattle.tree_words.specs.Words.{nodes_in};
ghost use Rattle.trace_audit.specs.Gains.{AreCells, GainsBlock, GainsLeaf, CanGain, IsNodeOf, Sees};
ghost use Rattle.trace_audit.specs.Gains.{stone_gift};

use super::word_list::Words;
use hex_cells::{Cell, CellSet, Colour};
use play_out::Ending;
use tree_words::cell_of;
use tree_words::layout::{COUNT_WORD, HEADER_WORDS, NODE_WORDS, SEEN_WORD, TALLY_WORD, VISIT};

// One visit, and one win if the player is the winner.
fn amount(player: Colour, winner: Colour) -> u64
    ensures value { result ≡ amount_of (is_same winner player) }
    ensures range { result ≤ VISIT + 1 }
{
    if player == winner { VISIT + 1 } else { VISIT }
}

/// Adds to a word of the sums.
pub(crate) fn gain(sums: &mut [u64], at: usize, amount: u64)
    requires within { at < length sums.old }
    requires small { slice_index sums.old at + amount < 2 ^ 64 }
    ensures { sums.new ≡ set sums.old at (slice_index sums.old at + amount) }
{
    sums[at] += amount;
}

// Adds to the sum of the seen word of each node of the block whose cell is in the set.
fn see(words: &Words, sums: &mut [u64], block: usize, stones: CellSet, amount: u64)
    requires within { block + block_size (nodes_in words.now block) ≤ length words.now }
    requires long { length sums.old ≡ length words.now }
    requires cells { AreCells words.now block }
    requires small { CanGain words.now sums.old block amount }
    ensures { Sees words.now block (nodes_in words.now block) (stone_gift stones amount)
        sums.old sums.new }
{
    let count = words.at(block + COUNT_WORD) as usize;
    'nodes: for place in 0..count {
        let at = block + HEADER_WORDS + NODE_WORDS * place;
        if stones.has(Cell::numbered(cell_of(words.at(at)))) {
            sums[at + SEEN_WORD] += amount;
        }
    }
}

/// Adds the ending of a playout to the sums of its leaf, whose stone this player placed, and of the
/// leaf's block.
pub(crate) fn gain_leaf(
    words: &Words,
    sums: &mut [u64],
    block: usize,
    leaf: usize,
    player: Colour,
    ending: &Ending,
)
    requires within { block + block_size (nodes_in words.now block) ≤ length words.now }
    requires long { length sums.old ≡ length words.now }
    requires cells { AreCells words.now block }
    requires node { IsNodeOf words.now block leaf }
    requires small { CanGain words.now sums.old block (VISIT + 1) }
    requires tally { slice_index sums.old (leaf + TALLY_WORD) + (VISIT + 1) < 2 ^ 64 }
    requires total { slice_index sums.old block + (VISIT + 1) < 2 ^ 64 }
    requires leaves { slice_index sums.old leaf + 1 < 2 ^ 64 }
    ensures { GainsLeaf words.now block leaf (amount_of (is_same ending.now.winner player))
        (stones_of ending.now.full player) sums.old sums.new }
{
    let amount = amount(player, ending.winner);
    gain(sums, leaf, 1);
    gain(sums, block, amount);
    gain(sums, leaf + TALLY_WORD, amount);
    see(words, sums, block, ending.full.stones(player), amount);
}

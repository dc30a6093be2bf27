//! What a walk adds: its playout's result to the counts and to the records.

ghost use Rattle.std.specs.Prelude.{◌≡◌, ℕ, ◌+◌, ◌*◌, ◌^◌, ◌≤◌, ◌<◌, length, set, slice_index};
ghost use Rattle.std.specs.Prelude.{List, if◌then◌else◌};
ghost use Rattle.hex_cells.specs.Sets.{has as has_cell};
ghost use Rattle.hex_cells.specs.declared.colours.Colour.TheVariants.{White};
ghost use Rattle.hex_cells.specs.Colours.{is_same};
ghost use Rattle.tree_words.specs.Blocks.{LinkedBlock, one_if, block_size};
ghost use Rattle.tree_words.specs.Words.{cell_in, nodes_in, node_at};
ghost use Rattle.tree_words.specs.Sequence.{amount_of};
ghost use Rattle.seq_search.specs.Steps.{Holds, Records};
ghost use Rattle.seq_search.specs.Descending.{Descended};
ghost use Rattle.seq_search.specs.Adding.{AddsWalk, CountsWalk, HasWalked, IfWalked, Sighted};

use super::descending::Descent;
use hex_cells::{Cell, CellSet, Colour, MOST_CELLS};
use play_out::Ending;
use tree_words::layout::{
    COUNT_WORD, HEADER_WORDS, LINK_WORD, NODE_WORDS, RECORD_UNIT, RECORDS_AT, SEEN_WORD,
    TALLY_WORD, VISIT,
};
use tree_words::{Shape, cell_of};

// One visit, and one win if the player is the winner.
fn amount(player: Colour, winner: Colour) -> u64
    ensures { result ≡ amount_of (is_same winner player) }
{
    if player == winner { VISIT + 1 } else { VISIT }
}

// Adds to the tally of the node.
fn gain(words: &mut [u64], node: usize, amount: u64)
    requires within { node + NODE_WORDS ≤ length words.old }
    requires small { slice_index words.old (node + TALLY_WORD) + amount < 2 ^ 64 }
    ensures { words.new
        ≡ set words.old (node + TALLY_WORD) (slice_index words.old (node + TALLY_WORD) + amount) }
{
    words[node + TALLY_WORD] += amount;
}

// What a node with this cell gains: the second if the cell is in the set, and else the first.
#[inline(always)]
fn gain_at(gains: &[u64; 2], cell: Cell, set: CellSet) -> u64
    ensures { result
        ≡ (if has_cell set cell then slice_index gains.now 1 else slice_index gains.now 0) }
{
    gains[usize::from(set.has(cell))]
}

// Adds to the seen word of each node of the block whose cell is in the set.
fn see(words: &mut [u64], block: usize, stones: CellSet, amount: u64)
    requires within { block + block_size (nodes_in words.old block) ≤ length words.old }
    requires cells { (k : ℕ) → k < nodes_in words.old block
        → cell_in (slice_index words.old (node_at block k)) < MOST_CELLS }
    requires small { (k : ℕ) → k < nodes_in words.old block
        → slice_index words.old (node_at block k + SEEN_WORD) + amount < 2 ^ 64 }
    ensures { Sighted block (nodes_in words.old block) stones amount words.old words.new }
{
    // Which cells are in the set can't be guessed, so a table stands for the branch, and 0 is added
    // if nothing is gained.
    let gains = [0, amount];
    let count = words[block + COUNT_WORD] as usize;
    'nodes: for place in 0..count {
        let at = block + HEADER_WORDS + NODE_WORDS * place;
        words[at + SEEN_WORD] += gain_at(&gains, Cell::numbered(cell_of(words[at])), stones);
    }
}

// Adds the ending to the counts: each node of the walk's way has one visit more, and one win more
// if its mover won; and each node of the blocks that it went through is seen if its cell
// holds a stone of its mover.
fn count(words: &mut [u64], shape: &Shape, walk: &Descent, ending: &Ending)
    requires walked { HasWalked shape.now words.old walk.now }
    ensures { CountsWalk shape.now walk.now ending.now words.old words.new }
{
    shape.keeps();
    let mut node = shape.root() as usize;
    let mut player = shape.colour();
    'down: for i in 0..walk.count {
        gain(words, node, amount(player.other(), ending.winner));
        let block = words[node + LINK_WORD] as usize;
        let stones = ending.full.stones(player);
        see(words, block, stones, amount(player, ending.winner));
        node = walk.steps[i];
        player = player.other();
    }
    gain(words, node, amount(player.other(), ending.winner));
}

// How a record tells who won: 0 for Black, 1 for White.
fn mark(winner: Colour) -> u64
    ensures value { result ≡ one_if (is_same winner White) }
    ensures range { result ≤ 1 }
{
    match winner {
        Colour::Black => 0,
        Colour::White => 1,
    }
}

/// Adds the ending of playout `k` to the counts of the walk's nodes, and writes its record.
pub(crate) fn add(words: &mut [u64], shape: &Shape, walk: &Descent, k: u32, ending: &Ending)
    requires number { k < shape.now.knobs.playouts }
    requires walked { (bs : List LinkedBlock) × Holds shape.now bs words.old k
        × Descended shape.now bs words.old walk.now }
    ensures holds { IfWalked shape.now words.old k walk.now
        (λ bs. Holds shape.now bs words.new (k + 1)) }
    ensures added { IfWalked shape.now words.old k walk.now
        (λ bs. AddsWalk shape.now bs ending.now words.old words.new) }
    ensures record { let white = one_if (is_same ending.now.winner White) in
        Records shape.now k (RECORD_UNIT * walk.now.node + white) words.old words.new }
{
    count(words, shape, walk, ending);
    words[RECORDS_AT + k as usize] = RECORD_UNIT * walk.node as u64 + mark(ending.winner);
}

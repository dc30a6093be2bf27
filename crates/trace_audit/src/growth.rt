//! The growth of a tree whose blocks are linked and whose records are right.

ghost use Rattle.std.specs.Prelude.{◌≡◌, ◌+◌, ◌≤◌, MatchBool, length, true};
ghost use Rattle.hex_board.specs.Positions.{is_empty_at, placed};
ghost use Rattle.tree_words.specs.Blocks.{block_size};
ghost use Rattle.tree_words.specs.Growth.{root_end};
ghost use Rattle.tree_words.specs.Words.{end_of, nodes_in};
ghost use Rattle.trace_audit.specs.Playouts.{HasAllSums, TellsGrown};
ghost use Rattle.trace_audit.specs.Points.{AreFrugal, AreUpTo, AreVisited, EachSite, HasCells};
ghost use Rattle.trace_audit.specs.Points.{IsFirst, IsFull, IsNextBounded, IsOpen, IsSomeAbove};
ghost use Rattle.trace_audit.specs.Points.{IsSomeUnvisited, IsSomeWasteful, LiesWithin, TellsEach};

use super::sites::{Site, Table};
use super::word_list::Words;
use hex_cells::Cell;
use tree_words::layout::{
    COUNT_WORD, HEADER_WORDS, LINK_WORD, MOST_BLOCK_WORDS, NEXT_AT, NODE_WORDS, TALLY_WORD,
};
use tree_words::{Shape, cell_of, visits_of};

// Whether a node of the block has no visits.
fn has_unvisited(words: &Words, block: usize) -> bool
    requires { block + block_size (nodes_in words.now block) ≤ length words.now }
    ensures { MatchBool result (IsSomeUnvisited words.now block)
        (AreVisited words.now block) }
{
    // Bounds the places of words.
    let _len = words.len();
    let count = words.at(block + COUNT_WORD) as usize;
    'nodes: for place in 0..count {
        let x = block + HEADER_WORDS + NODE_WORDS * place;
        if visits_of(words.at(x + TALLY_WORD)) == 0 {
            return true;
        }
    }
    false
}

// Whether a node of the block has more visits than so many.
fn has_more(words: &Words, block: usize, most: u32) -> bool
    requires { block + block_size (nodes_in words.now block) ≤ length words.now }
    ensures { MatchBool result (IsSomeAbove words.now block most)
        (AreUpTo words.now block most) }
{
    // Bounds the places of words.
    let _len = words.len();
    let count = words.at(block + COUNT_WORD) as usize;
    'nodes: for place in 0..count {
        let x = block + HEADER_WORDS + NODE_WORDS * place;
        if most < visits_of(words.at(x + TALLY_WORD)) {
            return true;
        }
    }
    false
}

// Whether the board after a stone on the cell has an empty cell.
fn is_open(site: &Site, cell: Cell) -> bool
    requires { is_empty_at site.now.board cell ≡ true }
    ensures { let board = placed site.now.board site.now.player cell in
        MatchBool result (IsOpen board) (IsFull board) }
{
    let after = site.after(cell);
    after.board.empties().least().is_some()
}

// Whether each node of the block with an empty cell on its board is the leaf of at most so many
// records.
fn has_few_leaves(words: &Words, sums: &[u64], site: &Site, most: u64) -> bool
    requires within { LiesWithin words.now site.now }
    requires long { length sums.now ≡ length words.now }
    requires cells { HasCells words.now site.now }
    ensures { MatchBool result (AreFrugal words.now sums.now most site.now)
        (IsSomeWasteful words.now sums.now most site.now) }
{
    let count = words.at(site.start + COUNT_WORD) as usize;
    'nodes: for place in 0..count {
        let x = site.start + HEADER_WORDS + NODE_WORDS * place;
        if most < sums[x] && is_open(site, Cell::numbered(cell_of(words.at(x)))) {
            return false;
        }
    }
    true
}

// Whether NEXT is at most the end of the root's block, so many times the other blocks' words, and
// one largest block for each worker.
fn is_next_bounded(words: &Words, shape: &Shape, others: usize) -> bool
    requires long { length words.now ≡ end_of shape.now }
    requires root { root_end shape.now words.now ≤ end_of shape.now }
    requires few { others ≤ end_of shape.now }
    ensures { MatchBool result (IsNextBounded shape.now words.now others)
        (¬ (IsNextBounded shape.now words.now others)) }
{
    shape.keeps();
    let root = shape.root() as usize;
    let block = words.at(root + LINK_WORD) as usize;
    let root_end = block + HEADER_WORDS + NODE_WORDS * words.at(block + COUNT_WORD) as usize;
    let workers = shape.knobs().workers as usize;
    words.at(NEXT_AT) <= (root_end + workers * others + MOST_BLOCK_WORDS * workers) as u64
}

// Whether in each block that has a node without visits no node has more than so many.
fn each_first(words: &Words, table: &Table, most: u32) -> bool
    requires { EachSite table.now (LiesWithin words.now) }
    ensures { TellsEach table.now result (λ p. IsFirst words.now most p.start) }
{
    'sites: for i in 0..table.sites.len() {
        let site = table.sites[i];
        if has_unvisited(words, site.start) && has_more(words, site.start, most) {
            return false;
        }
    }
    true
}

// Whether each node with an empty cell on its board is the leaf of at most so many records.
fn each_frugal(words: &Words, sums: &[u64], table: &Table, most: u64) -> bool
    requires within { EachSite table.now (LiesWithin words.now) }
    requires cells { EachSite table.now (HasCells words.now) }
    requires long { length sums.now ≡ length words.now }
    ensures { TellsEach table.now result (AreFrugal words.now sums.now most) }
{
    'sites: for i in 0..table.sites.len() {
        let site = table.sites[i];
        if !has_few_leaves(words, sums, &site, most) {
            return false;
        }
    }
    true
}

/// Whether the tree has grown as the knobs say.
pub(crate) fn is_grown(words: &Words, shape: &Shape, table: &Table, sums: &[u64]) -> bool
    requires long { length words.now ≡ end_of shape.now }
    requires sums { HasAllSums shape.now words.now table.now sums.now }
    ensures { TellsGrown shape.now words.now table.now sums.now result }
{
    shape.keeps();
    let knobs = shape.knobs();
    if !each_first(words, table, knobs.workers) {
        return false;
    }
    let most = u64::from(knobs.workers) * u64::from(knobs.expand);
    if words.at(NEXT_AT) <= words.len() as u64 && !each_frugal(words, sums, table, most) {
        return false;
    }
    is_next_bounded(words, shape, table.others)
}

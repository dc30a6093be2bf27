//! The counts of a tree whose blocks are linked and whose records are right.

ghost use Rattle.std.specs.Prelude.{◌≡◌, ◌+◌, ◌≤◌, MatchBool, length};
ghost use Rattle.tree_words.specs.Blocks.{block_size};
ghost use Rattle.tree_words.specs.Words.{end_of, nodes_in};
ghost use Rattle.trace_audit.specs.Playouts.{HasSumsOf, TellsExact};
ghost use Rattle.trace_audit.specs.Points.{AreAllSame, AreSame, EachSite, HasSums, IsSomeOther};
ghost use Rattle.trace_audit.specs.Points.{LiesWithin, TellsEach};

use super::sites::Table;
use super::word_list::Words;
use tree_words::Shape;
use tree_words::layout::{COUNT_WORD, HEADER_WORDS, NODE_WORDS, SEEN_WORD, TALLY_WORD};

// Whether the tally and the seen word of the node at `x` are the sums.
fn has_same(words: &Words, sums: &[u64], x: usize) -> bool
    requires words { x + NODE_WORDS ≤ length words.now }
    requires sums { x + NODE_WORDS ≤ length sums.now }
    ensures { MatchBool result (AreSame words.now sums.now x) (¬ (AreSame words.now sums.now x)) }
{
    words.at(x + TALLY_WORD) == sums[x + TALLY_WORD]
        && words.at(x + SEEN_WORD) == sums[x + SEEN_WORD]
}

// Whether the counts of the nodes of the block are the sums.
fn has_sums(words: &Words, sums: &[u64], block: usize) -> bool
    requires within { block + block_size (nodes_in words.now block) ≤ length words.now }
    requires long { length sums.now ≡ length words.now }
    ensures { MatchBool result (AreAllSame words.now sums.now block)
        (IsSomeOther words.now sums.now block) }
{
    let count = words.at(block + COUNT_WORD) as usize;
    'nodes: for place in 0..count {
        if !has_same(words, sums, block + HEADER_WORDS + NODE_WORDS * place) {
            return false;
        }
    }
    true
}

// Whether the counts of the nodes of all blocks are the sums.
fn each_same(words: &Words, sums: &[u64], table: &Table) -> bool
    requires within { EachSite table.now (LiesWithin words.now) }
    requires long { length sums.now ≡ length words.now }
    ensures { TellsEach table.now result (HasSums words.now sums.now) }
{
    'sites: for i in 0..table.sites.len() {
        let site = table.sites[i];
        if !has_sums(words, sums, site.start) {
            return false;
        }
    }
    true
}

/// Whether the counts of all nodes are the sums.
pub(crate) fn is_exact(words: &Words, shape: &Shape, table: &Table, sums: &[u64]) -> bool
    requires long { length words.now ≡ end_of shape.now }
    requires sums { HasSumsOf shape.now words.now table.now sums.now shape.now.knobs.playouts }
    ensures { TellsExact shape.now words.now table.now sums.now result }
{
    shape.keeps();
    let root = shape.root() as usize;
    if words.at(root + TALLY_WORD) != sums[root + TALLY_WORD] {
        return false;
    }
    each_same(words, sums, table)
}

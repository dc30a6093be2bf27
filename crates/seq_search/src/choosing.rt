//! The child that a walk goes to.

ghost use Rattle.std.specs.Prelude.{◌≡◌, ◌+◌, ◌<◌, ◌≤◌, IfSome, None, length};
ghost use Rattle.uct_table.specs.Choice.{choice_of, score_in};
ghost use Rattle.tree_words.specs.Blocks.{block_size};
ghost use Rattle.tree_words.specs.Sequence.{child_of, children_in};
ghost use Rattle.tree_words.specs.Walks.{AtMost};
ghost use Rattle.seq_search.specs.Choosing.{CanBeScored};
ghost use Rattle.tree_words.specs.Words.{count_in, nodes_in};

use tree_words::layout::{COUNT_WORD, HEADER_WORDS, NODE_WORDS, SEEN_WORD, TALLY_WORD};
use tree_words::{visits_of, wins_of};
use uct_table::{MOST_BAR, MOST_COUNT, MOST_WEIGHT, Parent};

// The score of a child with this tally and this seen word, if it is above `most`. The bar is no
// more than that, and settles nearly every child; at the first one it is 0, and settles nothing.
#[inline(always)]
fn score_above(parent: &Parent, bar: u64, most: u64, tally: u64, seen: u64) -> Option<u64>
    requires bar { (bar ≤ most) × (bar ≤ MOST_BAR) }
    requires visited { 1 ≤ (count_in tally).visits }
    requires counts { AtMost MOST_COUNT (count_in tally) × AtMost MOST_COUNT (count_in seen) }
    ensures above { IfSome result (λ score. (most < score)
        × (score ≡ score_in parent.now.visits parent.now.weight
        (child_of (count_in tally, count_in seen)))) }
    ensures not_above { result ≡ None → score_in parent.now.visits parent.now.weight
        (child_of (count_in tally, count_in seen)) ≤ most }
{
    let (visits, wins) = (visits_of(tally), wins_of(tally));
    let (seen, seen_wins) = (visits_of(seen), wins_of(seen));
    if parent.is_low(bar, visits, wins, seen, seen_wins) {
        return None;
    }
    let score = parent.score(visits, wins, seen, seen_wins);
    if most < score { Some(score) } else { None }
}

/// The place of the node of a block that Choice takes: the first without visits, or else the first
/// of the greatest score. `block` is the block's first word, and `visits` are the parent's, at most
/// [`MOST_COUNT`] like all counts of the block.
pub(crate) fn choose(words: &[u64], block: usize, visits: u32, weight: u32) -> usize
    requires within { block + block_size (nodes_in words.now block) ≤ length words.now }
    requires parent { visits ≤ MOST_COUNT }
    requires counts { CanBeScored words.now (block + HEADER_WORDS) (nodes_in words.now block) }
    requires weight { weight ≤ MOST_WEIGHT }
    ensures { let count = nodes_in words.now block in
        result ≡ choice_of visits weight (children_in words.now (block + HEADER_WORDS) count) }
{
    let parent = Parent::of(visits, weight);
    let first = block + HEADER_WORDS;
    let past = first + NODE_WORDS * words[block + COUNT_WORD] as usize;
    let mut best = first;
    let mut most = 0;
    let mut bar = 0;
    // It counts words: from a place a node's first word would be computed at each child.
    let mut at = first;
    'children: while at < past {
        let tally = words[at + TALLY_WORD];
        let own = visits_of(tally);
        if own == 0 {
            return (at - first) / NODE_WORDS;
        }
        let above = score_above(&parent, bar, most, tally, words[at + SEEN_WORD]);
        if let Some(score) = above {
            most = score;
            bar = score.min(MOST_BAR);
            best = at;
        }
        at += NODE_WORDS;
    }
    (best - first) / NODE_WORDS
}

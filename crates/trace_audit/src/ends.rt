//! The ends of a tree: NEXT and TICKET.

ghost use Rattle.std.specs.Prelude.{◌≡◌, MatchBool, length};
ghost use Rattle.tree_words.specs.Closing.{KeepsEnds};
ghost use Rattle.tree_words.specs.Words.{end_of};

use super::word_list::Words;
use tree_words::layout::{MOST_BLOCK_WORDS, NEXT_AT, TICKET_AT};
use tree_words::{MOST_WORKERS, Shape};

/// Whether NEXT and TICKET are in their ranges.
pub(crate) fn keeps_ends(words: &Words, shape: &Shape) -> bool
    requires { length words.now ≡ end_of shape.now }
    ensures { MatchBool result (KeepsEnds shape.now words.now)
        (¬ (KeepsEnds shape.now words.now)) }
{
    let playouts = u64::from(shape.knobs().playouts);
    let ticket = words.at(TICKET_AT);
    words.at(NEXT_AT)
        <= u64::from(shape.total()) + u64::from(MOST_WORKERS) * MOST_BLOCK_WORDS as u64
        && playouts <= ticket
        && ticket <= playouts + u64::from(MOST_WORKERS)
}

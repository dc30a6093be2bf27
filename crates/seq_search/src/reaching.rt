//! The way of a walk to a leaf that has its block, if it is to have one.

ghost use Rattle.seq_search.specs.Searching.{HoldsRooted, ReachesLeaf};

use super::descending::{Descent, descend};
use super::expanding::expand;
use tree_words::Shape;

/// Walks down to a leaf. If that asks for a block it gets it first, and the walk goes on to a
/// child.
pub(crate) fn reach(words: &mut [u64], shape: &Shape, walk: &mut Descent)
    requires { HoldsRooted shape.now words.old }
    ensures { ReachesLeaf shape.now words.old words.new walk.new }
{
    shape.keeps();
    descend(words, shape, walk);
    if expand(words, shape, walk.node, &walk.board) {
        // A new block changes no count on the way, so this comes to the same node first.
        descend(words, shape, walk);
    }
}

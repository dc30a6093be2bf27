//! Trees, which hold trees, and a collection of them.

ghost use Rattle.std.specs.Prelude.{◌≡◌};
ghost use Rattle.sgf_tree.specs.Rows.{row};

use crate::lists::Nodes;
use std::marker::Model;

/// A game tree: a line of nodes, and the trees that go on from its end.
#[cycle(tree)]
#[derive(Drop)]
pub struct Tree {
    /// At least one in a text.
    pub nodes: Nodes,
    pub kids: Trees,
}

/// Trees, in the order in which they stand. A clause sees them as the list `GameTrees`.
#[cycle(tree)]
#[derive(Drop)]
pub struct Trees {
    items: Vec<Tree>,
}

impl Model for Trees {
    ghost use Rattle.sgf_tree.specs.Trees.{GameTrees, trees_code, trees_size};

    ghost Value = { GameTrees };

    ghost coded = { trees_code };

    ghost use Rattle.sgf_tree.specs.Rows.{row};

    ghost view = { λ t. row t.items.items };

    ghost size = { trees_size };

    ghost use Rattle.sgf_tree.specs.Falls.{row_falls};

    ghost size_decreases = { λ t h. row_falls t.items.items };
}

impl Trees {
    /// The trees of this vector. It takes no memory.
    pub fn of(items: Vec<Tree>) -> Trees
        ensures { result ≡ row items.items }
    {
        Trees { items }
    }

    /// Lends the trees.
    pub fn as_slice(&self) -> &[Tree]
        ensures { row result.now ≡ self.now }
    {
        &self.items
    }
}

/// A collection of game trees.
#[derive(Drop)]
pub struct Collection {
    /// At least one in a text.
    pub trees: Trees,
}

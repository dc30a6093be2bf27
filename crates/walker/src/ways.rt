//! The way of a walk: its levels, from the root down.

ghost use Rattle.std.specs.Prelude.{◌≡◌, ◌<◌, List, [], ◌∷◌, length, MatchOption, IsTrue, ◌↔◌};
ghost use Rattle.walker.specs.declared.ways.Level.{Level};

use hex_cells::CellSet;
use std::marker::Model;
use tree_words::layout::MOST_NODES;

/// A level of a walk's way: the block below a node, of whose nodes the walk went to one.
#[derive(Clone, Copy)]
pub struct Level {
    /// The first word of the block's parent node.
    pub parent: u32,
    /// The block's first word.
    pub block: u32,
    /// The cells of its nodes.
    pub cells: CellSet,
}

/// The levels of a walk's way. Contracts see them as a list, the deepest first.
#[derive(Drop)]
pub struct Way {
    levels: [Level; MOST_NODES],
    depth: usize,
}

impl Model for Way {
    ghost use Rattle.std.specs.Prelude.{List, length, ◌≡◌, ◌≤◌};
    ghost use Rattle.walker.specs.declared.ways.Level.{Level};
    ghost use Rattle.walker.specs.Ways.{levels_to};
    ghost use Rattle.tree_words.specs.declared.layout.TheConstants.{MOST_NODES};

    ghost Value = { List Level };

    ghost view = { λ w. levels_to w.levels w.depth };

    ghost invariant = { λ w. (w.depth ≤ MOST_NODES) × (length w.levels ≡ MOST_NODES) };
}

impl Way {
    /// No level: the walk stands at the root.
    pub(crate) fn none() -> Way
        ensures { result ≡ [] }
    {
        let level = Level {
            parent: 0,
            block: 0,
            cells: CellSet::none(),
        };
        Way {
            levels: [level; MOST_NODES],
            depth: 0,
        }
    }

    /// Whether there is no level.
    pub(crate) fn is_none(&self) -> bool
        ensures { IsTrue result ↔ (self.now ≡ []) }
    {
        self.depth == 0
    }

    /// Drops all levels.
    pub(crate) fn clear(&mut self)
        ensures { self.new ≡ [] }
    {
        self.depth = 0;
    }

    /// One level more.
    pub(crate) fn push(&mut self, level: Level)
        requires { length self.old < MOST_NODES }
        ensures { self.new ≡ level ∷ self.old }
    {
        self.levels[self.depth] = level;
        self.depth += 1;
    }

    /// Takes the deepest level away; `None` exactly if there is none.
    pub(crate) fn pop(&mut self) -> Option<Level>
        ensures { MatchOption result ((self.old ≡ []) × (self.new ≡ []))
            (λ level. self.old ≡ level ∷ self.new) }
    {
        if self.depth == 0 {
            return None;
        }
        self.depth -= 1;
        Some(self.levels[self.depth])
    }
}

//! The nodes of a proof-number search: the states that were entered.

use hex_cells::Cell;
use indexmap::IndexMap;

/// The most nodes: some 800 MB with their cells.
pub(crate) const MOST_NODES: usize = 4_000_000;

/// What can't be shown has this number. It is more than any other, and two of them still are a
/// number of 32 bits.
pub(crate) const NEVER: u32 = 1 << 30;

/// The proof number and the disproof number of a node: how many nodes at least are still to be
/// decided until the player to move is shown to win, and to lose.
#[derive(Clone, Copy, PartialEq, Eq)]
pub(crate) struct Effort {
    pub proof: u32,
    pub disproof: u32,
}

impl Effort {
    /// Of a node that is decided: whether the player to move wins.
    pub(crate) fn decided(by_mover: bool) -> Effort {
        let (proof, disproof) = if by_mover { (0, NEVER) } else { (NEVER, 0) };
        Effort { proof, disproof }
    }

    /// Of a state of which nothing is known but how many nodes are to be decided to show a loss.
    pub(crate) fn open(disproof: u32) -> Effort {
        Effort { proof: 1, disproof }
    }
}

/// A state that was entered, with its cells in the order in which they are tried.
#[derive(Drop)]
pub(crate) struct ScoutNode {
    pub effort: Effort,
    pub cells: Vec<Cell>,
}

/// The nodes, by the stones of their states.
pub(crate) type Nodes = IndexMap<(u128, u128), ScoutNode>;

//! The line of a cell: how the search goes on after it.

ghost use Rattle.std.specs.Prelude.{◌≡◌, IfOk, IfSome, true};
ghost use Rattle.hex_cells.specs.Sets.{has};
ghost use Rattle.look_ahead.specs.Looked.{IsPlayableLine};

use super::nodes::{Kid, LookNode, NOWHERE, State};
use super::refusals::Memory;
use super::searches::Look;
use hex_board::Board;
use hex_cells::{Cell, CellSet};
use std::alloc::Global;

// A line has at most so many moves: further down too few walks went to tell anything.
const MOST_LINE: u32 = 16;

// More than there are walks by any kid: those of all kids are less than 2^35.
const CLASS: u64 = 1 << 40;

impl Look {
    /// The moves after a stone on the cell of the root's board: each is the one that is chosen at
    /// the node before it, down to where no walk went on.
    pub(super) fn line_of(
        &self,
        alloc: Global,
        board: &Board,
        cell: Cell,
    ) -> Result<Vec<Cell>, Memory>
        ensures { IfOk result (λ line. IsPlayableLine board.now cell line.items) }
    {
        let mut line = Vec::new(alloc);
        let mut free = board.empties().without(cell);
        let mut place = self.root_node(cell);
        'moves: for _move in 0..MOST_LINE {
            let Some(kid) = self.next_move(place, free) else {
                break;
            };
            line.push(kid.cell)?;
            free = free.without(kid.cell);
            place = kid.node;
        }
        Ok(line)
    }

    // The place of the node after the cell at the root.
    fn root_node(&self, cell: Cell) -> u32 {
        match self.kid_at(0, cell) {
            Some(kid) => kid.node,
            None => NOWHERE,
        }
    }

    // The kid that is chosen at a node, if its cell is left.
    fn next_move(&self, place: u32, free: CellSet) -> Option<Kid>
        ensures { IfSome result (λ kid. has free kid.cell ≡ true) }
    {
        let kid = self.chosen_kid(place)?;
        if free.has(kid.cell) { Some(kid) } else { None }
    }

    // The kid of a node that weighs most, and of several such ones that with the greatest prior;
    // `None` if no walk went on by any.
    fn chosen_kid(&self, place: u32) -> Option<Kid> {
        let node = self.nodes.get(place as usize)?;
        let mut most = (0u64, 0u32);
        let mut best = None;
        for number in node.first..node.first.saturating_add(node.count) {
            if let Some(kid) = self.kids.get(number as usize)
                && let Some(below) = self.nodes.get(kid.node as usize)
            {
                let weight = weight_of(below);
                if most.0 < weight || most.0 == weight && most.1 < kid.prior {
                    most = (weight, kid.prior);
                    best = Some(*kid);
                }
            }
        }
        best
    }
}

// How much the move before a node weighs: by its walks, behind all others if it is taken for lost,
// and before all others if it is taken for won.
fn weight_of(node: &LookNode) -> u64 {
    let walks = node.visits.min(CLASS - 1);
    match node.state {
        State::Won => walks,
        State::Open => CLASS + walks,
        State::Lost => CLASS * 2 + walks,
    }
}

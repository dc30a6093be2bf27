//! A circuit: the conductance between a player's edges, and the current through each cell.

ghost use Rattle.std.specs.Prelude.{◌≤◌};

use super::meshes::Mesh;
use super::wires::{Joint, conductance};
use hex_cells::{Cell, MOST_CELLS};
use std::alloc::{AllocError, Global};

/// The most that a cell's part of the current is told to be: four times the current, in 2^20th
/// parts. A cell's flow counts what comes and what goes, and so is up to twice the current.
pub const MOST_PART: u64 = 1 << 22;

// A part is in so many parts of the current.
const PARTS: u64 = 1 << 20;

/// A player's circuit on a board.
#[derive(Drop)]
pub struct Circuit {
    mesh: Mesh,
    // The flow of each cell.
    flows: [u64; MOST_CELLS as usize],
}

impl Circuit {
    /// A circuit without wires.
    pub fn make(alloc: Global) -> Result<Circuit, AllocError> {
        let mesh = Mesh::make(alloc)?;
        Ok(Circuit {
            mesh,
            flows: [0; MOST_CELLS as usize],
        })
    }

    /// The conductance between the edges, and at least 1.
    pub fn total(&self) -> u32
        ensures { 1 ≤ result }
    {
        self.mesh.total()
    }

    /// The flow of a cell, of which the current between the edges is 2^20.
    pub fn part(&self, cell: Cell) -> u64
        ensures { result ≤ MOST_PART }
    {
        let flow = self.flows[cell.number() as usize];
        (flow.saturating_mul(PARTS) / u64::from(self.total())).min(MOST_PART)
    }

    /// Takes all wires away.
    pub fn clear(&mut self) {
        self.mesh.clear();
    }

    /// Puts a wire between two elements, of which 0 and 1 are the edges, for a full connection, or
    /// leaves the better one that is there.
    pub fn put_wire(&mut self, x: u8, y: u8, joint: Joint) {
        let (x, y) = if x < y { (x, y) } else { (y, x) };
        if let Some(row) = self.mesh.wires(y as usize)
            && let Some(wire) = row.get_mut(x as usize)
        {
            *wire = (*wire).max(conductance(joint));
        }
    }

    /// Makes it the circuit of the wires that were put, between as many elements: of each the empty
    /// cell that it is, or `None` of a group.
    pub fn solve(&mut self, cells: &[Option<Cell>]) {
        self.mesh.solve(cells.len());
        self.flows = [0; MOST_CELLS as usize];
        for (x, cell) in cells.iter().enumerate() {
            if let Some(cell) = cell {
                self.flows[cell.number() as usize] = self.mesh.flow(x);
            }
        }
    }
}

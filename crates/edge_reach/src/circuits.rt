//! The circuit of a report: the current through each empty cell from one edge of the player's to
//! the other.

use super::elements::Elements;
use super::found::Found;
use circuit::Mesh;
use hex_cells::MOST_CELLS;

/// The whole current between the edges.
pub const FLOW: u64 = 1 << 20;

// The conductances between two empty cells, between a cell and a group, and between two groups: a
// cell resists 20 times as much as a group. The sums of 122 of them are less than 2^31.
const CELLS: u32 = 524_288;

const CELL_AND_GROUP: u32 = 998_644;

const GROUPS: u32 = 10_485_760;

/// The current through each empty cell of a report; 0 of other cells.
pub(crate) fn currents_of(
    elements: &Elements,
    found: &Found,
    mesh: &mut Mesh,
) -> [u64; MOST_CELLS as usize] {
    put_wires(elements, found, mesh);
    mesh.solve(usize::from(elements.count()));
    let total = mesh.total();
    let mut currents = [0u64; MOST_CELLS as usize];
    for x in 0..elements.count() {
        if let Some(cell) = elements.alone(x).least() {
            // A flow counts what comes and what goes.
            let current = mesh.flow(usize::from(x)).saturating_mul(FLOW / 2) / u64::from(total);
            currents[cell.number() as usize] = current;
        }
    }
    currents
}

// Puts a wire for each pair of elements with a full entry.
fn put_wires(elements: &Elements, found: &Found, mesh: &mut Mesh) {
    for y in 0..elements.count() {
        if let Some(row) = mesh.wires(usize::from(y)) {
            for (x, wire) in (0..y).zip(row.iter_mut()) {
                *wire = conductance(elements, found, x, y);
            }
        }
    }
}

// The conductance of the wire between two elements, 0 if there is none.
#[inline(always)]
fn conductance(elements: &Elements, found: &Found, x: u8, y: u8) -> u32 {
    if !found.has_full(x, y) {
        return 0;
    }
    match (elements.alone(x).is_empty(), elements.alone(y).is_empty()) {
        (false, false) => CELLS,
        (true, true) => GROUPS,
        _ => CELL_AND_GROUP,
    }
}

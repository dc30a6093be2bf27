//! The circuit of a player's links.

use super::bits::Bits;
use super::entries::State;
use super::links::{FIRST, Links, SECOND};
use circuit::{Circuit, Joint};
use hex_board::MOST_ELEMENTS;
use hex_cells::Cell;

// The elements of a circuit: the edges, and behind them the others in rising order.
#[derive(Drop)]
struct Nodes {
    // Of each element its place in the circuit.
    places: [u8; 256],
    // Of each place the empty cell that it is.
    cells: [Option<Cell>; MOST_ELEMENTS],
    count: usize,
}

impl Links {
    /// Makes it the circuit of these links: a wire for each pair with a full entry.
    pub fn draw(&self, circuit: &mut Circuit) {
        let nodes = self.nodes();
        circuit.clear();
        for entry in self.entries.iter() {
            let pair = entry.pair;
            if pair.is_full && entry.state != State::GivenUp {
                let joint = Joint {
                    is_near: entry.size == 0,
                    first_is_group: self.alone(pair.x).is_empty(),
                    second_is_group: self.alone(pair.y).is_empty(),
                };
                let (x, y) = (nodes.places[pair.x as usize], nodes.places[pair.y as usize]);
                circuit.put_wire(x, y, joint);
            }
        }
        circuit.solve(nodes.cells.get(..nodes.count).unwrap_or(&[]));
    }

    // The elements that there are.
    fn nodes(&self) -> Nodes {
        let mut nodes = Nodes {
            places: [0; 256],
            cells: [None; MOST_ELEMENTS],
            count: 2,
        };
        nodes.places[SECOND as usize] = 1;
        let edges = Bits::single(FIRST).union(Bits::single(SECOND));
        let mut rest = self.elements.active.minus(edges);
        for place in 2..MOST_ELEMENTS {
            let Some(element) = rest.take() else {
                break;
            };
            nodes.places[element as usize] = place as u8;
            nodes.cells[place] = self.alone(element).cells().least();
            nodes.count = place + 1;
        }
        nodes
    }
}

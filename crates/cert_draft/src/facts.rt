//! What a line gives, in whatever scope: its entry, and the stones that its derivation uses. The
//! entry stands wherever the player has these.

use super::layouts::{How, Row, Rows};
use edge_reach::{End, Rule, cells_of};
use hex_board::flood;
use hex_cells::{Cell, CellSet, Colour, MOST_CELLS, edge};
use hex_scout::State;
use indexmap::IndexMap;
use std::alloc::{AllocError, Global};

// An entry: its ends, and the bits of its carrier and of the stones that it uses beside the root's.
#[derive(Clone, Copy, PartialEq, Eq, Hash)]
struct Fact {
    is_semi: bool,
    ends: [End; 2],
    carrier: u128,
    uses: u128,
}

// What the lines so far give: the place of the first that gives a fact, and for each line the
// number of its own.
#[derive(Drop)]
struct Facts {
    root: State,
    player: Colour,
    first: IndexMap<Fact, usize>,
    given: Vec<usize>,
}

/// Lets each line take, of those that give the same, the first.
pub(crate) fn share(
    alloc: Global,
    root: &State,
    player: Colour,
    rows: &mut Rows,
) -> Result<(), AllocError> {
    let mut facts = Facts {
        root: *root,
        player,
        first: IndexMap::new(alloc),
        given: Vec::new(alloc),
    };
    for row in rows.list.iter_mut() {
        let fact = facts.fact(row);
        facts.take_first(&mut row.takes);
        facts.give(fact)?;
    }
    rows.claim = facts.first_of(rows.claim);
    Ok(())
}

impl Facts {
    // What a line gives.
    fn fact(&self, row: &Row) -> Fact {
        let is_semi = matches!(row.how, How::By(Rule::Key) | How::Stone(_));
        let (mut carrier, mut uses) = (0, 0);
        let mut ends = [End::First, End::Second];
        let mut before = ends;
        for place in row.takes.iter() {
            if let Some((fact, _first)) = self.given_at(*place) {
                (carrier, uses) = (carrier | fact.carrier, uses | fact.uses);
                (before, ends) = (ends, fact.ends);
            }
        }
        match row.how {
            How::Adj(x, y) => {
                ends = [x, y];
                uses = self.beside(row.stones, x, y).bits();
            }
            How::By(Rule::And) => ends = joined(before, ends).0,
            How::By(Rule::Key) => {
                let (others, middle) = joined(before, ends);
                carrier |= cell_at(middle).bits();
                ends = others;
            }
            How::Stone(cell) => {
                let cell = CellSet::none().with(cell).bits();
                (carrier, uses) = (carrier | cell, uses & !cell);
            }
            _ => {}
        }
        Fact {
            is_semi,
            ends,
            carrier,
            uses,
        }
    }

    // The fact that the line at a place gives, and the place of the first that does.
    fn given_at(&self, place: usize) -> Option<(&Fact, &usize)> {
        self.first.get_index(*self.given.get(place)?)
    }

    // The place of the first line that gives the same as that at a place.
    fn first_of(&self, place: usize) -> usize {
        self.given_at(place).map_or(place, |given| *given.1)
    }

    fn take_first(&self, takes: &mut [usize]) {
        for place in takes.iter_mut() {
            *place = self.first_of(*place);
        }
    }

    // Takes in what the next line gives.
    fn give(&mut self, fact: Fact) -> Result<(), AllocError> {
        let known = self.first.get_index_of(&fact);
        if known.is_none() {
            self.first.insert(fact, self.given.len())?;
        }
        self.given
            .push(known.unwrap_or(self.first.len().saturating_sub(1)))?;
        Ok(())
    }

    // The stones that are used where two elements lie side by side: of a group all, of an edge
    // those of a path to the other one.
    fn beside(&self, stones: CellSet, x: End, y: End) -> CellSet {
        let size = self.root.board.size();
        let first = edge(self.player, false, size);
        let second = edge(self.player, true, size);
        let path = |edge: CellSet, cell: CellSet| {
            if edge.meets(cell) {
                CellSet::none()
            } else {
                self.path(stones, edge, cell.around(size))
            }
        };
        let used = match (x, y) {
            (End::First, End::Second) => self.path(stones, first, second),
            (cell, End::First) => path(first, cell_at(cell)),
            (cell, End::Second) => path(second, cell_at(cell)),
            (x, y) => flood(cell_at(x).union(cell_at(y)), stones, size),
        };
        used.minus(self.root.board.stones(self.player))
    }

    // Stones that lead from an edge to a cell of the goal, none of them needless but of the root's.
    fn path(&self, stones: CellSet, edge: CellSet, goal: CellSet) -> CellSet {
        let size = self.root.board.size();
        let mut path = flood(edge, stones, size);
        for cell in cells_of(path.minus(self.root.board.stones(self.player))) {
            if flood(edge, path.without(cell), size).meets(goal) {
                path = path.without(cell);
            }
        }
        path
    }
}

// The ends at which two chained entries don't meet, and that at which they do.
fn joined(a: [End; 2], b: [End; 2]) -> ([End; 2], End) {
    let [p, q] = a;
    let [r, s] = b;
    let (x, middle) = if p == r || p == s { (q, p) } else { (p, q) };
    let y = if r == middle { s } else { r };
    ([x.min(y), x.max(y)], middle)
}

// The least cell of an element, as a set; none of an edge.
fn cell_at(end: End) -> CellSet {
    match end {
        End::At(number) if number < MOST_CELLS => CellSet::none().with(Cell::numbered(number)),
        _ => CellSet::none(),
    }
}

//! What is kept of a search for the next one: the nodes below the board that came of it.

ghost use Rattle.std.specs.Prelude.{◌≡◌, ◌≤◌, OnOk, length};

use super::batches::number_of;
use super::nodes::{Kid, LookNode, NOWHERE, State};
use super::refusals::Memory;
use super::searches::{Look, Root};
use hex_board::Board;
use hex_cells::{Cell, CellSet, Colour};

/// The root of the last search.
#[derive(Clone, Copy)]
pub(super) struct Last {
    pub board: Board,
    pub colour: Colour,
}

impl Last {
    // The move by which a root follows this one, and the other player's after it, if there was one.
    fn moves_to(&self, root: &Root<'_>) -> Option<(Cell, Option<Cell>)> {
        if self.board.size() != root.board.size() {
            return None;
        }
        let own = self.added(root.board, self.colour)?;
        let others = self.added(root.board, self.colour.other())?;
        let is_back = root.colour == self.colour;
        match (own.count(), others.count()) {
            (1, 0) if !is_back => Some((own.least()?, None)),
            (1, 1) if is_back => Some((own.least()?, Some(others.least()?))),
            _ => None,
        }
    }

    // The player's stones that came, if none went.
    fn added(&self, board: &Board, colour: Colour) -> Option<CellSet> {
        let (before, now) = (self.board.stones(colour), board.stones(colour));
        if before.minus(now).is_empty() {
            Some(now.minus(before))
        } else {
            None
        }
    }
}

impl Look {
    /// Leaves what the last search found below this root, on these cells, behind a place for the
    /// root itself: nothing, if the root doesn't follow the last one by one or two moves, or if
    /// that is more than the budget.
    pub(super) fn begin(
        &mut self,
        root: &Root<'_>,
        must: CellSet,
        budget: u32,
    ) -> Result<(), Memory>
        requires budget { 1 ≤ budget }
        ensures root { OnOk result (1 ≤ length self.new.nodes.items) }
        ensures few { OnOk result (length self.new.nodes.items ≤ budget) }
    {
        let place = self.place_of(root);
        self.last = None;
        match place {
            Some(place) => self.keep_below(place, must)?,
            None => self.nodes.clear(),
        }
        if self.nodes.is_empty() || budget as usize <= self.nodes.len() {
            self.nodes.clear();
            self.kids.clear();
            self.tops.clear();
            self.pool.clear();
            let nothing = LookNode::decided(root.board, State::Lost, NOWHERE);
            self.nodes.push(nothing)?;
        }
        Ok(())
    }

    // The place of the node whose board a root has, if it follows the last one by one or two moves.
    fn place_of(&self, root: &Root<'_>) -> Option<u32> {
        let (first, second) = self.last?.moves_to(root)?;
        let place = self.node_after(0, first)?;
        match second {
            Some(cell) => self.node_after(place, cell),
            None => Some(place),
        }
    }

    // The place of the node after the cell at another one.
    fn node_after(&self, place: u32, cell: Cell) -> Option<u32> {
        let kid = self.kid_at(place, cell)?;
        if (kid.node as usize) < self.nodes.len() {
            Some(kid.node)
        } else {
            None
        }
    }

    // Keeps what is below the kids of a node on these cells.
    fn keep_below(&mut self, place: u32, must: CellSet) -> Result<(), Memory> {
        self.find_tops(place, must)?;
        self.places.clear();
        self.places.resize(self.nodes.len(), NOWHERE)?;
        self.move_up(place);
        for kid in self.kids.iter_mut() {
            kid.node = renamed(&self.places, kid.node);
        }
        for kid in self.tops.iter_mut() {
            kid.node = renamed(&self.places, kid.node);
        }
        self.pool.rename(&self.places);
        Ok(())
    }

    // Finds the kids of a node on these cells that have nodes.
    fn find_tops(&mut self, place: u32, must: CellSet) -> Result<(), Memory> {
        self.tops.clear();
        let Some(node) = self.nodes.get(place as usize) else {
            return Ok(());
        };
        for number in node.first..node.first.saturating_add(node.count) {
            if let Some(kid) = self.kids.get(number as usize)
                && must.has(kid.cell)
                && (kid.node as usize) < self.nodes.len()
            {
                self.tops.push(*kid)?;
            }
        }
        Ok(())
    }

    // Moves the nodes that are kept up behind the root, each with its kids, and says where each is
    // from now on. A node stands behind the one above it, and its kids behind that one's: so none
    // is written over that is still to be moved.
    fn move_up(&mut self, place: u32) {
        let mut next = 1usize;
        let mut end = 0usize;
        for number in 1..self.nodes.len() {
            let Some(mut node) = self.nodes.get(number).copied() else {
                break;
            };
            let Some(above) = self.place_above(number, node.above, place) else {
                continue;
            };
            node.above = above;
            end = self.move_kids(&mut node, end);
            self.put(number, next, node);
            next = next.saturating_add(1);
        }
        self.nodes.truncate(next);
        self.kids.truncate(end);
    }

    // Where the node above one with this number is from now on, if the latter is kept: the root, if
    // the node above is at this place.
    fn place_above(&self, number: usize, above: u32, place: u32) -> Option<u32> {
        if above == place {
            let is_top = self.tops.iter().any(|kid| kid.node as usize == number);
            return if is_top { Some(0) } else { None };
        }
        match renamed(&self.places, above) {
            NOWHERE => None,
            now => Some(now),
        }
    }

    // Moves a node's kids to this place, and says where the next ones go.
    fn move_kids(&mut self, node: &mut LookNode, to: usize) -> usize {
        let from = node.first as usize;
        let count = node.count as usize;
        node.first = number_of(to);
        for step in 0..count {
            let kid = self.kids.get(from.saturating_add(step)).copied();
            if let Some(kid) = kid
                && let Some(there) = self.kids.get_mut(to.saturating_add(step))
            {
                *there = kid;
            }
        }
        to.saturating_add(count)
    }

    // Puts the node with this number at its place.
    fn put(&mut self, number: usize, to: usize, node: LookNode) {
        if let Some(there) = self.nodes.get_mut(to) {
            *there = node;
        }
        if let Some(place) = self.places.get_mut(number) {
            *place = number_of(to);
        }
    }

    /// Gives the kids of the root the nodes that were kept, and the root the walks that went there.
    pub(super) fn attach(&mut self)
        ensures { length self.new.nodes.items ≡ length self.old.nodes.items }
    {
        'tops: for number in 0..self.tops.len() {
            if let Some(top) = self.tops.get(number).copied() {
                self.attach_one(&top);
            }
        }
    }

    // Gives the root's kid on the cell its node.
    fn attach_one(&mut self, top: &Kid)
        ensures { length self.new.nodes.items ≡ length self.old.nodes.items }
    {
        let Some(number) = self.number_at(0, top.cell) else {
            return;
        };
        let Some(below) = self.nodes.get(top.node as usize).copied() else {
            return;
        };
        if let Some(kid) = self.kids.get_mut(number as usize) {
            kid.node = top.node;
        }
        if let Some(root) = self.nodes.first_mut() {
            root.take_all(&below);
        }
    }
}

// Where a node is from now on.
fn renamed(places: &[u32], place: u32) -> u32 {
    places.get(place as usize).copied().unwrap_or(NOWHERE)
}

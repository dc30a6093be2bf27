//! What a walk goes on by.

use super::nodes::{AWAITED, Kid, State};
use super::searches::Look;
use super::values::{fresh_value, root_of, score_of};
use hex_cells::Cell;

impl Look {
    /// What is known at a place.
    pub(super) fn state_at(&self, place: u32) -> State {
        match self.nodes.get(place as usize) {
            Some(node) => node.state,
            None => State::Lost,
        }
    }

    /// The number of a node's kid on the cell.
    pub(super) fn number_at(&self, place: u32, cell: Cell) -> Option<u32> {
        let node = self.nodes.get(place as usize)?;
        for number in node.first..node.first.saturating_add(node.count) {
            if let Some(kid) = self.kids.get(number as usize)
                && kid.cell == cell
            {
                return Some(number);
            }
        }
        None
    }

    /// A node's kid on the cell.
    pub(super) fn kid_at(&self, place: u32, cell: Cell) -> Option<&Kid> {
        let number = self.number_at(place, cell)?;
        self.kids.get(number as usize)
    }

    /// The kid of a node with the best score, among those that the other player isn't known to win
    /// and that aren't being judged.
    pub(super) fn best(&self, place: u32) -> Option<(u32, Kid)> {
        let node = self.nodes.get(place as usize)?;
        let (mean, root) = (node.mean(), root_of(node.visits.saturating_add(node.away)));
        let mut top = 0u64;
        let mut best = None;
        for number in node.first..node.first.saturating_add(node.count) {
            if let Some(kid) = self.kids.get(number as usize)
                && let Some(score) = self.score(kid, mean, root)
                && (best.is_none() || top < score)
            {
                top = score;
                best = Some((number, *kid));
            }
        }
        best
    }

    // The score of a kid below a node with this mean and this root of its visits; `None` if its
    // node is won, or being judged.
    fn score(&self, kid: &Kid, mean: u64, root: u64) -> Option<u64> {
        if kid.node == AWAITED {
            return None;
        }
        let Some(node) = self.nodes.get(kid.node as usize) else {
            return Some(score_of(fresh_value(mean), kid.prior, 0, root));
        };
        if node.state == State::Won {
            return None;
        }
        let visits = node.visits.saturating_add(node.away);
        Some(score_of(node.mean_above(), kid.prior, visits, root))
    }
}

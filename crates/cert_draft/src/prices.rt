//! What it costs to show something in a scope, beside what is to be written there already.

use super::drafts::{Draft, Need};
use super::pools::Derived;
use edge_tables::EdgeEntry;
use hex_cells::{Cell, CellSet};

/// A line costs so much.
pub(crate) const LINE: u64 = 100;

// What a stone costs that leads to a scope which is not yet wanted: so many lines, and so many
// hundredths of those that its entry is said to rest on. By trial.
const NEW_SCOPE: u64 = 60 * LINE;

const OF_ENTRY: u64 = 30 * LINE / 100;

/// A semi entry that a scope may show: by a derivation, or by a stone.
#[derive(Clone, Copy, PartialEq, Eq)]
pub(crate) enum By {
    /// The derived entry with this number.
    Derived(usize),
    /// A stone on the cell, at this price.
    Stone(Cell, u64),
}

/// A semi entry that a scope may show.
#[derive(Clone, Copy, PartialEq, Eq)]
pub(crate) struct Way {
    pub carrier: CellSet,
    pub by: By,
}

impl Way {
    /// Whether it is by a stone.
    pub(crate) fn is_stone(&self) -> bool {
        matches!(self.by, By::Stone(_, _))
    }

    /// Whether it serves a semi need.
    pub(crate) fn serves(&self, need: &Need) -> bool {
        self.carrier.inside(need.region)
    }

    /// What it costs beside the lines that are chosen.
    pub(crate) fn cost(&self, chosen: &[bool], have: &[Derived]) -> u64 {
        match self.by {
            By::Stone(_cell, price) => price,
            By::Derived(place) => have
                .get(place)
                .map_or(0, |derived| derived_cost(chosen, derived)),
        }
    }
}

/// What a derivation costs beside the lines that are chosen.
pub(crate) fn derived_cost(chosen: &[bool], derived: &Derived) -> u64 {
    let is_fresh = |place: &&usize| !chosen.get(**place).copied().unwrap_or(false);
    let fresh = derived.places.iter().filter(is_fresh).count();
    LINE.saturating_mul(fresh as u64)
}

/// What a stone costs that leads to the scope with these stones, by this full entry.
pub(crate) fn stone_price(draft: &Draft, stones: CellSet, full: &EdgeEntry) -> u64 {
    if draft.blocks.contains_key(&stones.bits()) {
        2 * LINE
    } else {
        NEW_SCOPE + u64::from(full.lines) * OF_ENTRY
    }
}

//! Values of nodes, priors of kids, and the score by which a walk goes on.

use circuit::Circuit;
use hex_cells::Cell;

/// The value of a node that is won. One that is lost has 0, and the other side's value of a node is
/// what is left of this.
pub const WON: u64 = 1 << 17;

// The priors of a node's kids add up to at most this.
const ALL: u64 = 1 << 16;

// The mover's conductance counts so many 256ths: the worth of the move. By trial.
const TEMPO: u64 = 346;

// What a kid without a node is thought to be worse than its parent. By trial.
const FRESH: u64 = WON / 20;

// Visits are taken in 2^16th parts, so that their root has 2^8th parts.
const VISIT_PARTS: u64 = 1 << 16;

/// The value of a board by the circuits of the player to move and of the other one.
pub(crate) fn value_of(own: &Circuit, other: &Circuit) -> u64 {
    let mine = u64::from(own.total()) * TEMPO / 256;
    let theirs = u64::from(other.total());
    (WON * mine / (mine + theirs).max(1)).min(WON)
}

/// A value in thousandths of a won one.
pub(crate) fn in_thousandths(value: u64) -> u32 {
    (value.min(WON) * 1000 / WON) as u32
}

/// The other side's value.
pub(crate) fn turned(value: u64) -> u64 {
    WON.saturating_sub(value)
}

/// What a cell is worth by the currents through it: the root of their product.
pub(crate) fn worth(own: &Circuit, other: &Circuit, cell: Cell) -> u64 {
    own.part(cell).saturating_mul(other.part(cell)).isqrt()
}

/// The prior of a kid with this worth, if those of all add up to `all`.
pub(crate) fn prior_of(worth: u64, all: u64) -> u32 {
    (worth.saturating_mul(ALL) / all.max(1)).min(ALL) as u32
}

/// The value of a kid without a node, below a node with this value.
pub(crate) fn fresh_value(parent: u64) -> u64 {
    parent.saturating_sub(FRESH)
}

/// The score of a kid: its value, and its prior, which counts less with each of its visits and more
/// with those of its parent, whose root this is.
pub(crate) fn score_of(value: u64, prior: u32, visits: u64, root: u64) -> u64 {
    let bonus = u64::from(prior).saturating_mul(root) / visits.saturating_add(1) / 256;
    value.saturating_add(bonus)
}

/// The root of a node's visits, in 2^8th parts.
pub(crate) fn root_of(visits: u64) -> u64 {
    visits.saturating_mul(VISIT_PARTS).isqrt()
}

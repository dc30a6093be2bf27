//! The nodes of a search, and their kids.

pub(crate) use super::pool::NOWHERE;
use super::values::{WON, turned};
use hex_board::Board;
use hex_cells::Cell;
use std::ops::Range;

/// What is known of a node, for the player to move.
#[derive(Clone, Copy, PartialEq, Eq)]
pub(crate) enum State {
    Open,
    Won,
    Lost,
}

/// A board that was judged.
#[derive(Clone, Copy, PartialEq, Eq)]
pub(crate) struct LookNode {
    /// The board, on which cells were filled.
    pub board: Board,
    pub state: State,
    /// Where its kids begin, and how many they are.
    pub first: u32,
    pub count: u32,
    /// How many walks came here, and the sum of the values that they had.
    pub visits: u64,
    pub sum: u64,
    /// Where its links were kept.
    pub slot: usize,
    /// The node above it; of the root [`NOWHERE`].
    pub above: u32,
    /// How many walks of this batch went on from here, and aren't back.
    pub away: u64,
}

/// A cell on which the player to move at a node may place.
#[derive(Clone, Copy, PartialEq, Eq)]
pub(crate) struct Kid {
    pub cell: Cell,
    pub prior: u32,
    /// The place of its node, or [`NOWHERE`], or [`AWAITED`].
    pub node: u32,
}

/// The place of a node that is being judged.
pub(crate) const AWAITED: u32 = NOWHERE - 1;

impl LookNode {
    /// A node that is won or lost.
    pub(crate) fn decided(board: &Board, state: State, above: u32) -> LookNode {
        LookNode {
            board: *board,
            state,
            first: 0,
            count: 0,
            visits: 1,
            sum: value_in(state, WON / 2),
            slot: usize::MAX,
            above,
            away: 0,
        }
    }

    /// An open node with this value, and kids at these places.
    pub(crate) fn open(
        board: &Board,
        value: u64,
        kids: Range<u32>,
        slot: usize,
        above: u32,
    ) -> LookNode {
        LookNode {
            board: *board,
            state: State::Open,
            first: kids.start,
            count: kids.end.saturating_sub(kids.start),
            visits: 1,
            sum: value,
            slot,
            above,
            away: 0,
        }
    }

    /// The mean of its values.
    pub(crate) fn mean(&self) -> u64 {
        self.sum / self.visits.max(1)
    }

    /// Its value at the end of a walk.
    pub(crate) fn value(&self) -> u64 {
        value_in(self.state, self.sum)
    }

    /// The mean of its values, or its value if it is won or lost.
    pub(crate) fn known_mean(&self) -> u64 {
        value_in(self.state, self.mean())
    }

    /// What the mean is for the player who moves there, if each walk that isn't back found a loss.
    pub(crate) fn mean_above(&self) -> u64 {
        let all = self.visits.saturating_add(self.away);
        turned(self.mean()).saturating_mul(self.visits) / all.max(1)
    }

    /// It takes the value with which a walk came back from a kid's node, which is lost or not, and
    /// answers its own. A lost kid wins it.
    pub(crate) fn take(&mut self, below: u64, is_lost: bool) -> u64 {
        if is_lost {
            self.state = State::Won;
        }
        let value = value_in(self.state, turned(below));
        self.away = self.away.saturating_sub(1);
        self.visits = self.visits.saturating_add(1);
        self.sum = self.sum.saturating_add(value);
        value
    }

    /// It takes all walks that went to a kid's node.
    pub(crate) fn take_all(&mut self, below: &LookNode) {
        if below.state == State::Lost {
            self.state = State::Won;
        }
        let value = turned(below.known_mean());
        self.visits = self.visits.saturating_add(below.visits);
        self.sum = self.sum.saturating_add(value.saturating_mul(below.visits));
    }
}

// The value in a state, if an open node has this one.
fn value_in(state: State, open: u64) -> u64 {
    match state {
        State::Open => open,
        State::Won => WON,
        State::Lost => 0,
    }
}

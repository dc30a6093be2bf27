//! Stones of the other player: what needs their cells is given up.

use super::bits::Bits;
use super::changes::Change;
use super::entries::{Pair, State};
use super::links::{FIRST, Links, NO_ELEMENT, SECOND};
use hex_board::MOST_ELEMENTS;
use std::alloc::AllocError;

impl Links {
    /// The other player's stones, of which these are all: their cells are no elements any more.
    pub(crate) fn lose(&mut self, stones: Bits, change: &mut Change) {
        let lost = stones.meet(self.elements.empties);
        change.lost = lost;
        change.end_at(lost);
        self.elements.empties = self.elements.empties.minus(lost);
        self.elements.active = self.elements.active.minus(lost);
        for of in self.elements.of.iter_mut() {
            if lost.has(*of) {
                *of = NO_ELEMENT;
            }
        }
    }

    /// Joins a pair that lost one of as many entries as it may have, and so may have turned others
    /// away: over each middle, and the full ones also by the rule of OR.
    pub(crate) fn join_anew(&mut self, pair: Pair) -> Result<(), AllocError> {
        if !self.pairs.is_due(pair) {
            return Ok(());
        }
        let edges = Bits::single(FIRST).union(Bits::single(SECOND));
        let ways = self.elements.ways[pair.x as usize].meet(self.elements.ways[pair.y as usize]);
        let mut middles = ways.minus(edges);
        for _middle in 0..MOST_ELEMENTS {
            let Some(middle) = middles.take() else {
                break;
            };
            if self.alone(middle).is_empty() == pair.is_full {
                self.join_over(pair, middle)?;
            }
        }
        if pair.is_full {
            self.unite_anew(pair)?;
        }
        Ok(())
    }

    // Joins a pair over a middle.
    fn join_over(&mut self, pair: Pair, middle: u8) -> Result<(), AllocError> {
        let between = self.alone(middle);
        let (at_x, at_y) = (self.alone(pair.x), self.alone(pair.y));
        let firsts = self.pairs.at(Pair::of(true, pair.x, middle));
        let seconds = self.pairs.at(Pair::of(true, middle, pair.y));
        for first in firsts.numbers() {
            let Some(first) = self.entries.get(*first as usize) else {
                continue;
            };
            let first = first.carrier;
            if first.meets(at_y) {
                continue;
            }
            for second in seconds.numbers() {
                if let Some(second) = self.entries.get(*second as usize)
                    && !second.carrier.meets(first)
                    && !second.carrier.meets(at_x)
                {
                    let both = first.union(second.carrier).union(between);
                    self.add(pair, both)?;
                }
            }
        }
        Ok(())
    }

    // Unites each semi entry of a pair with the others.
    fn unite_anew(&mut self, pair: Pair) -> Result<(), AllocError> {
        let held = self.pairs.at(Pair::of(false, pair.x, pair.y));
        for number in held.numbers() {
            if let Some(entry) = self.entries.get(*number as usize)
                && entry.state == State::Taken
            {
                let entry = *entry;
                self.unite(*number, &entry)?;
            }
        }
        Ok(())
    }
}

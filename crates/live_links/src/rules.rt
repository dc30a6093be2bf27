//! H-search, small carriers first: what follows from the entries that wait.

use super::adding::MOST_ENTRIES;
use super::bits::Bits;
use super::entries::{Entry, Pair, State};
use super::links::{FIRST, Links, Until};
use hex_board::MOST_ELEMENTS;
use std::alloc::AllocError;

impl Links {
    /// Combines the entries that wait, until none does or it is enough.
    pub(crate) fn run(&mut self, until: Until) -> Result<(), AllocError> {
        for _entry in 0..=MOST_ENTRIES {
            if self.is_enough(until) {
                break;
            }
            let Some((number, entry)) = self.take() else {
                break;
            };
            let (x, y) = (entry.pair.x, entry.pair.y);
            if entry.pair.is_full {
                self.join(x, y, entry.carrier)?;
                self.join(y, x, entry.carrier)?;
                self.mark(number);
                self.link(x, y);
            } else {
                self.mark(number);
                self.unite(number, &entry)?;
            }
        }
        Ok(())
    }

    // Says of an entry that it was taken.
    fn mark(&mut self, number: u16) {
        if let Some(entry) = self.entries.get_mut(number as usize) {
            entry.state = State::Taken;
        }
    }

    // Whether the search may end.
    fn is_enough(&self, until: Until) -> bool {
        match until {
            Until::Closed => false,
            Until::AnyWin => self.has_any(),
            Until::FullWin => self.has_full(),
        }
    }

    // The rules of AND: a full entry, from `end` to `middle`, with those that lead on from there.
    fn join(&mut self, end: u8, middle: u8, carrier: Bits) -> Result<(), AllocError> {
        if FIRST <= middle {
            return Ok(());
        }
        let between = self.alone(middle);
        let is_full = between.is_empty();
        let ours = carrier.union(between);
        let size = ours.count();
        let closed = carrier.union(self.alone(end));
        let mut rest = self.elements.ways[middle as usize]
            .minus(Bits::single(end))
            .minus(carrier);
        for _way in 0..MOST_ELEMENTS {
            let Some(to) = rest.take() else {
                break;
            };
            let pair = Pair::of(is_full, end, to);
            if self.pairs.is_closed(pair, size) {
                continue;
            }
            for number in self.pairs.at(Pair::of(true, middle, to)).numbers() {
                if let Some(entry) = self.entries.get(*number as usize)
                    && entry.state == State::Taken
                    && !entry.carrier.meets(closed)
                {
                    let both = ours.union(entry.carrier);
                    self.add(pair, both)?;
                }
            }
        }
        Ok(())
    }

    /// The rule of OR: a semi entry with one or two others of its pair that were taken.
    pub(crate) fn unite(&mut self, number: u16, entry: &Entry) -> Result<(), AllocError> {
        let full = Pair::of(true, entry.pair.x, entry.pair.y);
        // Whoever doesn't want this carrier wants none around it.
        let fulls = self.pairs.at(full);
        if !fulls.wants(&self.entries, entry.carrier, entry.size, full.most()) {
            return Ok(());
        }
        let held = self.pairs.at(entry.pair);
        for (place, second) in held.numbers().iter().enumerate() {
            let Some(carrier) = self.taken_beside(number, *second) else {
                continue;
            };
            let common = entry.carrier.meet(carrier);
            let both = entry.carrier.union(carrier);
            if common.is_empty() {
                self.add(full, both)?;
                continue;
            }
            for third in held.numbers().iter().take(place) {
                if let Some(carrier) = self.taken_beside(number, *third)
                    && !common.meets(carrier)
                {
                    self.add(full, both.union(carrier))?;
                }
            }
        }
        Ok(())
    }

    // The carrier of an entry that was taken and is another than this one.
    #[inline(always)]
    fn taken_beside(&self, number: u16, other: u16) -> Option<Bits> {
        if other == number {
            return None;
        }
        let entry = self.entries.get(other as usize)?;
        if entry.state == State::Taken {
            Some(entry.carrier)
        } else {
            None
        }
    }
}

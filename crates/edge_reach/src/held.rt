//! The entries of each pair of elements, of one kind.

use super::entries::{Entry, State, give_up, put_at};
use hex_cells::{CellSet, MOST_CELLS, Size};
use std::alloc::{AllocError, Global};
use std::ops::Range;

/// The most full entries of a pair.
pub const MOST_FULL: usize = 12;

/// The most semi entries of a pair.
pub const MOST_SEMI: usize = 28;

// The bits of a set's number from the 64th on.
const HIGH_BITS: u32 = MOST_CELLS - u64::BITS;

/// The carriers of each pair's entries, none inside another, and the entries' numbers.
#[derive(Drop)]
pub(crate) struct Held {
    // So many places has a pair, behind those of the pairs before it.
    most: usize,
    // How many are filled. These stand apart: of most pairs nothing else is read, and so they stay
    // in the processor's cache.
    counts: Vec<u8>,
    // The carriers' cells with numbers below 64, and those of the other cells. The latter list is
    // empty if the board has none: up to size 8 a set is one word.
    lows: Vec<u64>,
    highs: Vec<u64>,
    numbers: Vec<u32>,
}

// The cells of a set with numbers below 64.
#[inline(always)]
fn low_of(set: CellSet) -> u64 {
    (set.bits() % (1 << u64::BITS)) as u64
}

// Those of the other cells, as if their numbers were less by 64.
#[inline(always)]
fn high_of(set: CellSet) -> u64 {
    (set.bits() >> u64::BITS) as u64
}

// The set with these cells.
#[inline(always)]
fn joined(low: u64, high: u64) -> CellSet {
    let high = u128::from(high % (1 << HIGH_BITS));
    CellSet::of_bits((high << u64::BITS) + u128::from(low))
}

// The place of a pair.
#[inline(always)]
fn pair_of(x: u8, y: u8) -> usize {
    let (x, y) = (x as usize, y as usize);
    y * y.saturating_sub(1) / 2 + x
}

impl Held {
    /// No entries, and room for so many of each pair on boards of this size.
    pub(crate) fn make(alloc: Global, size: Size, most: usize) -> Result<Held, AllocError> {
        // Two groups have the edges, and each other element has a cell.
        let elements = size.cells() as usize + 2;
        let pairs = elements * (elements - 1) / 2;
        let places = pairs.saturating_mul(most);
        let high_places = if size.cells() <= u64::BITS { 0 } else { places };
        Ok(Held {
            most,
            counts: vec![in alloc; 0u8; pairs]?,
            lows: vec![in alloc; 0u64; places]?,
            highs: vec![in alloc; 0u64; high_places]?,
            numbers: vec![in alloc; 0u32; places]?,
        })
    }

    /// Takes all away.
    pub(crate) fn clear(&mut self) {
        self.counts.fill(0);
    }

    /// Whether a pair has none.
    #[inline(always)]
    pub(crate) fn is_empty(&self, x: u8, y: u8) -> bool {
        self.places(pair_of(x, y)).is_empty()
    }

    /// The numbers of a pair's entries.
    #[inline(always)]
    pub(crate) fn numbers(&self, x: u8, y: u8) -> &[u32] {
        let places = self.places(pair_of(x, y));
        self.numbers.get(places).unwrap_or(&[])
    }

    /// The number of the first entry of the same pair whose carrier lies inside this one's.
    #[inline(always)]
    pub(crate) fn first_inside(&self, entry: &Entry) -> Option<u32> {
        let places = self.places(pair_of(entry.x, entry.y));
        if places.is_empty() {
            return None;
        }
        let outside = !low_of(entry.carrier);
        let lows = self.lows.get(places.start..places.end)?;
        let place = if self.highs.is_empty() {
            lows.iter().position(|low| low & outside == 0)?
        } else {
            let outside_high = !high_of(entry.carrier);
            let highs = self.highs.get(places.start..places.end)?;
            let mut halves = lows.iter().zip(highs.iter());
            halves.position(|(low, high)| low & outside == 0 && high & outside_high == 0)?
        };
        self.numbers.get(places)?.get(place).copied()
    }

    /// Gives up the entries of the same pair around this one, and puts this one if there is a place
    /// then: whether there is. If need be, a wider one is given up for that.
    pub(crate) fn put(&mut self, entry: &Entry, number: u32, states: &mut [State]) -> bool {
        let pair = pair_of(entry.x, entry.y);
        let places = self.places(pair);
        let first = places.start;
        let mut end = self.give_up_around(places, entry.carrier, states);
        if end.saturating_sub(first) == self.most {
            let Some((widest, old)) = self.widest(first..end, entry.carrier.count()) else {
                return false;
            };
            give_up(states, old);
            end = end.saturating_sub(1);
            if let Some((carrier, last)) = self.at(end) {
                self.write(widest, carrier, last);
            }
        }
        self.write(end, entry.carrier, number);
        let count = u8::try_from(end.saturating_add(1).saturating_sub(first));
        put_at(&mut self.counts, pair, count.unwrap_or(u8::MAX));
        true
    }

    // Gives up those of a pair's entries that are around this carrier: where the others end.
    fn give_up_around(
        &mut self,
        places: Range<usize>,
        carrier: CellSet,
        states: &mut [State],
    ) -> usize {
        let mut end = places.start;
        for place in places {
            if let Some((there, number)) = self.at(place) {
                if carrier.inside(there) {
                    give_up(states, number);
                    continue;
                }
                if end < place {
                    self.write(end, there, number);
                }
                end = end.saturating_add(1);
            }
        }
        end
    }

    // The place and the number of the widest entry at these places, the first of several, if it has
    // more cells than this.
    fn widest(&self, places: Range<usize>, cells: u32) -> Option<(usize, u32)> {
        let mut widest = None;
        let mut most = cells;
        for place in places {
            let (carrier, number) = self.at(place)?;
            if most < carrier.count() {
                widest = Some((place, number));
                most = carrier.count();
            }
        }
        widest
    }

    // The places of a pair's entries.
    #[inline(always)]
    fn places(&self, pair: usize) -> Range<usize> {
        let first = pair.saturating_mul(self.most);
        let count = self.counts.get(pair).copied().unwrap_or(0);
        first..first.saturating_add(usize::from(count))
    }

    // The carrier and the number at a place.
    #[inline(always)]
    fn at(&self, place: usize) -> Option<(CellSet, u32)> {
        let low = *self.lows.get(place)?;
        let high = self.highs.get(place).copied().unwrap_or(0);
        Some((joined(low, high), *self.numbers.get(place)?))
    }

    #[inline(always)]
    fn write(&mut self, place: usize, carrier: CellSet, number: u32) {
        put_at(&mut self.lows, place, low_of(carrier));
        put_at(&mut self.highs, place, high_of(carrier));
        put_at(&mut self.numbers, place, number);
    }
}

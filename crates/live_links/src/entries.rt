//! Entries, and those that a pair of elements has of one kind.

use super::bits::Bits;
use hex_board::MOST_ELEMENTS;

// The most full entries of two elements.
const MOST_FULL: u8 = 4;

// The most semi entries of two elements.
const MOST_SEMI: u8 = 6;

/// The places of a pair.
pub(crate) const PLACES: usize = 6;

/// How many places pairs have: two for each two elements, and some that stay empty.
pub(crate) const PAIRS: usize = MOST_ELEMENTS * (MOST_ELEMENTS + 1);

/// The number of no entry.
pub(crate) const NOBODY: u16 = u16::MAX;

/// Two elements, the lesser one first, and a kind of entry.
#[derive(Clone, Copy, PartialEq, Eq)]
pub(crate) struct Pair {
    pub x: u8,
    pub y: u8,
    pub is_full: bool,
}

impl Pair {
    /// These elements, in either order.
    #[inline(always)]
    pub(crate) fn of(is_full: bool, x: u8, y: u8) -> Pair {
        let (x, y) = if x < y { (x, y) } else { (y, x) };
        Pair { x, y, is_full }
    }

    /// The place of its entries: those of a full pair stand behind those of the semi one.
    #[inline(always)]
    pub(crate) fn place(self) -> usize {
        let (x, y) = (self.x as usize, self.y as usize);
        y * (y + 1) + 2 * x + usize::from(self.is_full)
    }

    /// The most entries that it has.
    #[inline(always)]
    pub(crate) fn most(self) -> u8 {
        if self.is_full { MOST_FULL } else { MOST_SEMI }
    }
}

/// What became of an entry.
#[derive(Clone, Copy, PartialEq, Eq)]
pub(crate) enum State {
    /// It is to be combined with others.
    Waiting,
    /// It was combined with those that were taken before it.
    Taken,
    /// It is no entry any more.
    GivenUp,
}

/// A connection of two elements.
#[derive(Clone, Copy, PartialEq, Eq)]
pub(crate) struct Entry {
    pub carrier: Bits,
    pub pair: Pair,
    /// How many cells the carrier has.
    pub size: u8,
    pub state: State,
    /// The entry that waits behind it, with as many cells.
    pub next: u16,
}

impl Entry {
    /// An entry that waits, behind all others.
    #[inline(always)]
    pub(crate) fn of(pair: Pair, carrier: Bits) -> Entry {
        Entry {
            carrier,
            pair,
            size: carrier.count(),
            state: State::Waiting,
            next: NOBODY,
        }
    }
}

/// The numbers of a pair's entries.
#[derive(Clone, Copy)]
pub(crate) struct Held {
    pub count: u8,
    /// No entry has more cells. If the pair has as many entries as it may, the widest has so many.
    pub widest: u8,
    pub at: [u16; PLACES],
}

impl Held {
    /// No entries.
    pub(crate) fn none() -> Held {
        Held {
            count: 0,
            widest: 0,
            at: [0; PLACES],
        }
    }

    /// The numbers.
    #[inline(always)]
    pub(crate) fn numbers(&self) -> &[u16] {
        self.at.get(..self.count as usize).unwrap_or(&[])
    }

    /// Whether it has as many.
    #[inline(always)]
    pub(crate) fn is_full(&self, most: u8) -> bool {
        most <= self.count
    }

    /// Whether an entry of this size and carrier is one to add: there is no narrower one, and not
    /// as many already, none of which is wider.
    #[inline(always)]
    pub(crate) fn wants(&self, entries: &[Entry], carrier: Bits, size: u8, most: u8) -> bool {
        if self.is_full(most) && self.widest <= size {
            return false;
        }
        for number in self.numbers() {
            if let Some(entry) = entries.get(*number as usize)
                && entry.carrier.inside(carrier)
            {
                return false;
            }
        }
        true
    }

    /// Whether one of them was taken.
    pub(crate) fn has_taken(&self, entries: &[Entry]) -> bool {
        for number in self.numbers() {
            if let Some(entry) = entries.get(*number as usize)
                && entry.state == State::Taken
            {
                return true;
            }
        }
        false
    }

    // Takes this entry out, if it is there.
    fn remove(&mut self, number: u16) {
        let mut place = PLACES;
        for (there, other) in self.numbers().iter().enumerate() {
            if *other == number {
                place = there;
            }
        }
        if place < PLACES {
            self.count = self.count.saturating_sub(1);
            let last = self.at.get(self.count as usize).copied().unwrap_or(NOBODY);
            if let Some(at) = self.at.get_mut(place) {
                *at = last;
            }
        }
    }

    /// Gives up the entries around a carrier that is wanted, and the widest one if there are still
    /// as many: how many that were.
    #[inline(always)]
    pub(crate) fn make_place(
        &mut self,
        entries: &mut [Entry],
        carrier: Bits,
        size: u8,
        most: u8,
    ) -> usize {
        // Then none lies around it, and there is a place.
        if self.widest <= size {
            return 0;
        }
        self.give_up_around(entries, carrier)
            .saturating_add(self.give_up_widest(entries, most))
    }

    // Gives up the entries around a carrier: how many that were.
    fn give_up_around(&mut self, entries: &mut [Entry], carrier: Bits) -> usize {
        let before = *self;
        let mut gone = 0usize;
        for number in before.numbers() {
            if let Some(entry) = entries.get_mut(*number as usize)
                && carrier.inside(entry.carrier)
            {
                entry.state = State::GivenUp;
                self.remove(*number);
                gone = gone.saturating_add(1);
            }
        }
        gone
    }

    // Gives up the widest entry if there are as many: how many that were.
    fn give_up_widest(&mut self, entries: &mut [Entry], most: u8) -> usize {
        if self.is_full(most)
            && let Some(number) = self.widest_of(entries)
            && let Some(entry) = entries.get_mut(number as usize)
        {
            entry.state = State::GivenUp;
            self.remove(number);
            return 1;
        }
        0
    }

    // The first of the widest ones.
    fn widest_of(&self, entries: &[Entry]) -> Option<u16> {
        let mut widest = None;
        let mut top = 0u8;
        for number in self.numbers() {
            if let Some(entry) = entries.get(*number as usize)
                && (widest.is_none() || top < entry.size)
            {
                widest = Some(*number);
                top = entry.size;
            }
        }
        widest
    }

    /// Puts an entry of this size behind the others.
    #[inline(always)]
    pub(crate) fn enlist(&mut self, number: u16, size: u8) {
        if let Some(place) = self.at.get_mut(self.count as usize) {
            *place = number;
            self.count = self.count.saturating_add(1);
            self.widest = self.widest.max(size);
        }
    }

    /// Says how wide the widest one is, if there are as many.
    #[inline(always)]
    pub(crate) fn measure(&mut self, entries: &[Entry], most: u8) {
        if self.is_full(most) {
            self.widest = self.width_of(entries);
        }
    }

    // How many cells the widest one has.
    fn width_of(&self, entries: &[Entry]) -> u8 {
        let mut width = 0u8;
        for number in self.numbers() {
            if let Some(entry) = entries.get(*number as usize) {
                width = width.max(entry.size);
            }
        }
        width
    }
}

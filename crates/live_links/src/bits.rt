//! Sets of numbers below 128, in two words.

use hex_cells::{CellSet, MOST_CELLS};

// The bits of a cell set's number from the 64th on.
const HIGH_BITS: u32 = MOST_CELLS - u64::BITS;

/// A set of elements, or of the cells of a carrier.
#[derive(Clone, Copy, PartialEq, Eq)]
pub(crate) struct Bits {
    pub low: u64,
    pub high: u64,
}

impl Bits {
    /// The empty set.
    pub(crate) fn none() -> Bits {
        Bits { low: 0, high: 0 }
    }

    /// The cells of a set.
    pub(crate) fn of(set: CellSet) -> Bits {
        Bits {
            low: (set.bits() % (1 << u64::BITS)) as u64,
            high: (set.bits() >> u64::BITS) as u64,
        }
    }

    /// The set of the cells in it.
    pub(crate) fn cells(self) -> CellSet {
        let high = u128::from(self.high % (1 << HIGH_BITS));
        CellSet::of_bits((high << u64::BITS) + u128::from(self.low))
    }

    /// The set of this number alone.
    #[inline(always)]
    pub(crate) fn single(number: u8) -> Bits {
        let bit = 1u64 << u32::from(number % 64);
        if number < 64 {
            Bits { low: bit, high: 0 }
        } else {
            Bits { low: 0, high: bit }
        }
    }

    /// Whether this number is in it.
    #[inline(always)]
    pub(crate) fn has(self, number: u8) -> bool {
        self.meets(Bits::single(number))
    }

    /// The numbers of either set.
    #[inline(always)]
    pub(crate) fn union(self, other: Bits) -> Bits {
        Bits {
            low: self.low | other.low,
            high: self.high | other.high,
        }
    }

    /// Those of both.
    #[inline(always)]
    pub(crate) fn meet(self, other: Bits) -> Bits {
        Bits {
            low: self.low & other.low,
            high: self.high & other.high,
        }
    }

    /// Those that aren't in the other.
    #[inline(always)]
    pub(crate) fn minus(self, other: Bits) -> Bits {
        Bits {
            low: self.low & !other.low,
            high: self.high & !other.high,
        }
    }

    /// Whether the sets have a number in common.
    #[inline(always)]
    pub(crate) fn meets(self, other: Bits) -> bool {
        (self.low & other.low) | (self.high & other.high) != 0
    }

    /// Whether each number is in the other.
    #[inline(always)]
    pub(crate) fn inside(self, other: Bits) -> bool {
        (self.low & !other.low) | (self.high & !other.high) == 0
    }

    /// Whether it has no number.
    #[inline(always)]
    pub(crate) fn is_empty(self) -> bool {
        self.low | self.high == 0
    }

    /// How many numbers are in it.
    #[inline(always)]
    pub(crate) fn count(self) -> u8 {
        (self.low.count_ones() + self.high.count_ones()) as u8
    }

    /// Takes the least number out.
    #[inline(always)]
    pub(crate) fn take(&mut self) -> Option<u8> {
        if self.low != 0 {
            let number = self.low.trailing_zeros();
            self.low &= self.low - 1;
            return Some(number as u8);
        }
        if self.high != 0 {
            let number = self.high.trailing_zeros() + u64::BITS;
            self.high &= self.high - 1;
            return Some(number as u8);
        }
        None
    }
}

//! Sets of cells.

ghost use Rattle.std.specs.Prelude.{◌≡◌, ℕ, ◌+◌, ◌-◌, ◌*◌, ◌^◌, ◌<◌, ◌≤◌, ◌==◌, ◌↔◌, ◌&&◌, ◌||◌};
ghost use Rattle.std.specs.Prelude.{nat_lt, not, true, false, IsTrue, MatchOption, bit_or, bit_and};
ghost use Rattle.hex_cells.specs.Sets.{has, members, with_cell, without_cell, without_cells};

use super::halves::place_in;
use super::singles::single;
use super::{Cell, MOST_CELLS, Size};
use std::marker::Model;

/// A set of cells: bit k of its number is set if cell k is in it. It is not tied to a size.
#[derive(Clone, Copy, Debug, PartialEq, Eq)]
pub struct CellSet {
    bits: u128,
}

impl Model for CellSet {
    ghost use Rattle.std.specs.Prelude.{ℕ, ◌^◌, ◌<◌};
    ghost use Rattle.hex_cells.specs.declared.board_size.TheConstants.{MOST_CELLS};

    ghost Value = { ℕ };

    ghost view = { λ s. s.bits };

    ghost inverse = { λ n. record { bits = n } };

    ghost invariant = { λ s. s.bits < 2 ^ MOST_CELLS };
}

impl CellSet {
    /// The set as a number: bit k is set exactly if cell k is in it.
    pub fn bits(self) -> u128
        ensures value { result ≡ self }
        ensures range { result < 2 ^ MOST_CELLS }
        ensures items { (k : ℕ) → has result k ≡ has self k }
    {
        self.bits
    }

    /// The set with this number: cell k is in it exactly if bit k is set. No bit from
    /// [`MOST_CELLS`] on may be set.
    pub fn of_bits(bits: u128) -> CellSet
        requires { bits < 2 ^ MOST_CELLS }
        ensures value { result ≡ bits }
        ensures items { (k : ℕ) → has result k ≡ has bits k }
    {
        CellSet { bits }
    }

    /// The empty set.
    pub fn none() -> CellSet
        ensures value { result ≡ 0 }
        ensures items { (k : ℕ) → has result k ≡ false }
    {
        CellSet { bits: 0 }
    }

    /// All cells of a board.
    pub fn all(size: Size) -> CellSet
        ensures value { result ≡ 2 ^ (size * size) - 1 }
        ensures small { result < 2 ^ MOST_CELLS }
        ensures items { (k : ℕ) → has result k ≡ nat_lt k (size * size) }
    {
        CellSet {
            bits: (1u128 << size.cells()) - 1,
        }
    }

    /// The set with this cell too.
    pub fn with(self, cell: Cell) -> CellSet
        ensures value { result ≡ with_cell self cell }
        ensures small { result < 2 ^ MOST_CELLS }
        ensures items { (k : ℕ) → has result k ≡ (has self k || k == cell) }
    {
        CellSet {
            bits: self.bits | single(cell),
        }
    }

    /// The set without this cell. With `least` it goes over a set: the set falls in each step.
    pub fn without(self, cell: Cell) -> CellSet
        ensures value { result ≡ without_cell self cell }
        ensures shrinks { result ≤ self }
        ensures fewer { has self cell ≡ true → result < self }
        ensures small { result < 2 ^ MOST_CELLS }
        ensures items { (k : ℕ) → has result k ≡ (has self k && not (k == cell)) }
    {
        CellSet {
            bits: self.bits & !single(cell),
        }
    }

    /// Whether the cell is in the set.
    pub fn has(self, cell: Cell) -> bool
        ensures { result ≡ has self cell }
    {
        self.bits >> cell.number() & 1 == 1
    }

    /// The cells of either set.
    #[tactic(auto, using(crate::proofs::Bits::union_rules))]
    pub fn union(self, other: CellSet) -> CellSet
        ensures value { result ≡ bit_or self other }
        ensures grows { self ≤ result }
        ensures small { result < 2 ^ MOST_CELLS }
        ensures items { (k : ℕ) → has result k ≡ (has self k || has other k) }
    {
        CellSet {
            bits: self.bits | other.bits,
        }
    }

    /// The cells of both sets.
    pub fn meet(self, other: CellSet) -> CellSet
        ensures value { result ≡ bit_and self other }
        ensures shrinks { result ≤ self }
        ensures small { result < 2 ^ MOST_CELLS }
        ensures items { (k : ℕ) → has result k ≡ (has self k && has other k) }
    {
        CellSet {
            bits: self.bits & other.bits,
        }
    }

    /// The cells of this set that are not in the other.
    pub fn minus(self, other: CellSet) -> CellSet
        ensures value { result ≡ without_cells self other }
        ensures shrinks { result ≤ self }
        ensures small { result < 2 ^ MOST_CELLS }
        ensures items { (k : ℕ) → has result k ≡ (has self k && not (has other k)) }
    {
        CellSet {
            bits: self.bits & !other.bits,
        }
    }

    /// Whether each cell of this set is in the other.
    pub fn inside(self, other: CellSet) -> bool
        ensures { IsTrue result ↔ ((k : ℕ) → has self k ≡ true → has other k ≡ true) }
    {
        self.bits & !other.bits == 0
    }

    /// Whether the sets have a cell in common.
    pub fn meets(self, other: CellSet) -> bool
        ensures { IsTrue result ↔ ((k : ℕ) × (has self k ≡ true) × (has other k ≡ true)) }
    {
        self.bits & other.bits != 0
    }

    /// Whether the set has no cell.
    pub fn is_empty(self) -> bool
        ensures { IsTrue result ↔ ((k : ℕ) → has self k ≡ false) }
    {
        self.bits == 0
    }

    /// How many cells are in the set.
    pub fn count(self) -> u32
        ensures value { result ≡ members self MOST_CELLS }
        ensures range { result ≤ MOST_CELLS }
    {
        self.bits.count_ones()
    }

    /// How many cells of the set have a lower number than this cell: if the cell is in the set, the
    /// place at which `nth` has it.
    pub fn rank(self, cell: Cell) -> u32
        ensures value { result ≡ members self cell }
        ensures range { result < MOST_CELLS }
    {
        self.below(cell.number())
    }

    /// The cell with the least number; `None` exactly for the empty set.
    pub fn least(self) -> Option<Cell>
        ensures { MatchOption result ((k : ℕ) → has self k ≡ false)
            (λ c. (has self c ≡ true) × ((k : ℕ) → k < c → has self k ≡ false)) }
    {
        if self.bits == 0 {
            None
        } else {
            Some(Cell::numbered(self.bits.trailing_zeros()))
        }
    }

    /// The cell with `k` cells of the set below it: the cells in rising order, from 0.
    pub fn nth(self, k: u32) -> Cell
        requires { k < members self MOST_CELLS }
        ensures inside { has self result ≡ true }
        ensures order { members self result ≡ k }
    {
        let low = (self.bits % (1 << u64::BITS)) as u64;
        let in_low = low.count_ones();
        if k < in_low {
            return Cell::numbered(place_in(low, k));
        }
        let high = (self.bits >> u64::BITS) as u64;
        Cell::numbered(u64::BITS + place_in(high, k - in_low))
    }

    /// Does nothing: that a set has no cell from [`MOST_CELLS`] on is known after the call.
    #[inline]
    pub fn keeps(self)
        ensures range { self < 2 ^ MOST_CELLS }
    {}

    // How many cells of the set have a number below `end`.
    fn below(self, end: u32) -> u32
        requires { end ≤ MOST_CELLS }
        ensures value { result ≡ members self end }
        ensures range { result ≤ end }
    {
        (self.bits & (1u128 << end) - 1).count_ones()
    }

    // The set with each number risen by `by`, if that is a cell of `all`.
    pub(crate) fn up(self, by: u32, all: CellSet) -> CellSet
        requires { by ≤ Size.MAX }
        ensures { (k : ℕ) → has result k ≡ (has all k && (not (nat_lt k by) && has self (k - by))) }
    {
        CellSet {
            bits: self.bits << by & all.bits,
        }
    }

    // The set with each number lowered by `by`; those below `by` are dropped.
    pub(crate) fn down(self, by: u32) -> CellSet
        requires { by ≤ Size.MAX }
        ensures { (k : ℕ) → has result k ≡ has self (k + by) }
    {
        CellSet {
            bits: self.bits >> by,
        }
    }
}

//! The climb over a block's seen adds.

ghost use Rattle.std.specs.Prelude.{◌≡◌, ◌+◌, ◌/◌, ◌%◌, ◌^◌, ◌<◌, ◌++◌, [], IsTrue, ◌↔◌};
ghost use Rattle.tree_words.specs.Writing.{listed};
ghost use Rattle.arena_rule.specs.Adds.{seen_adds};
ghost use Rattle.walker.specs.Climbs.{add_op, adds_after, half_adds};

use super::PAST_WORDS;
use hex_cells::{CellSet, Size};
use std::marker::Model;
use tree_words::Op;
use tree_words::layout::{HEADER_WORDS, NODE_WORDS, SEEN_WORD};

/// The cells of a half of a block: 64, so that a set of them is a word.
const HALF_CELLS: u32 = u64::BITS;

// The cells 0 to 63 of a block, or those from 64 on, numbered from 0.
#[derive(Clone, Copy)]
struct Half {
    // The seen word of the node of the first cell.
    first: u32,
    // The cells that have nodes.
    cells: u64,
    // The cells at whose nodes an add is still to be made.
    left: u64,
}

/// The adds of a level of a walk to the seen words of its block that are still to be made, by
/// rising place. Contracts see them as a list.
///
/// It is small and stands alone, so that a loop over it can keep it in a local: the cells are the
/// bits of two words, and the place of a cell is the number of bits below its own.
#[derive(Drop)]
pub struct Climb {
    won: bool,
    // The half in hand, which is the last one if it has no add left.
    half: Half,
    next: Half,
}

impl Model for Climb {
    ghost use Rattle.std.specs.Prelude.{List, ◌≡◌, ◌<◌, ◌+◌, ◌*◌, ◌++◌};
    ghost use Rattle.arena_rule.specs.Adds.{CountAdd};
    ghost use Rattle.walker.specs.declared.climbs.TheConstants.{PAST_SEEN};
    ghost use Rattle.walker.specs.Climbs.{half_adds};

    ghost Value = { List CountAdd };

    ghost view = { λ c. half_adds c.half.first c.won c.half.cells c.half.left
        ++ half_adds c.next.first c.won c.next.cells c.next.left };

    ghost invariant = { λ c. (c.half.first < PAST_SEEN) × (c.next.first < PAST_SEEN)
        × (c.half.left ≡ 0 → c.next.left ≡ 0) };
}

/// No first seen word of a half is past this one.
const PAST_SEEN: u32 = PAST_WORDS
    + (HEADER_WORDS + SEEN_WORD + NODE_WORDS * HALF_CELLS as usize) as u32
    + 1;

impl Half {
    // No cell.
    fn none() -> Half
        ensures { (result.first ≡ 0) × (result.left ≡ 0) }
    {
        Half {
            first: 0,
            cells: 0,
            left: 0,
        }
    }
}

impl Climb {
    /// No adds.
    pub(crate) fn none() -> Climb
        ensures { result ≡ [] }
    {
        Climb {
            won: false,
            half: Half::none(),
            next: Half::none(),
        }
    }

    /// The adds to the seen words of the block that begins at `block` and has nodes for these cells
    /// of the board: to those whose cell has one of the stones.
    #[inline(never)]
    pub(crate) fn of(block: u32, cells: CellSet, stones: CellSet, won: bool, size: Size) -> Climb
        requires { block < PAST_WORDS }
        ensures { result ≡ seen_adds stones won (block + HEADER_WORDS) (listed size cells) }
    {
        // The size bounds the cells.
        size.keeps();
        let added = cells.meet(stones).meet(CellSet::all(size));
        let (low_cells, high_cells) = halves(cells);
        let (low_left, high_left) = halves(added);
        let first = block + (HEADER_WORDS + SEEN_WORD) as u32;
        let low = Half {
            first,
            cells: low_cells,
            left: low_left,
        };
        let high = Half {
            first: first + NODE_WORDS as u32 * low_cells.count_ones(),
            cells: high_cells,
            left: high_left,
        };
        Climb::of_halves(won, low, high)
    }

    // The adds of a half and then those of another.
    #[inline(always)]
    fn of_halves(won: bool, half: Half, next: Half) -> Climb
        requires { (half.first < PAST_SEEN) × (next.first < PAST_SEEN) }
        ensures { result ≡ half_adds half.first won half.cells half.left
            ++ half_adds next.first won next.cells next.left }
    {
        if half.left != 0 {
            Climb { won, half, next }
        } else {
            Climb {
                won,
                half: next,
                next: Half::none(),
            }
        }
    }

    /// The same adds.
    pub fn again(&self) -> Climb
        ensures { result ≡ self.now }
    {
        Climb { ..*self }
    }

    /// The next add; Done if none is left.
    #[inline(always)]
    pub fn op(&self) -> Op
        ensures { result ≡ add_op self.now }
    {
        if self.half.left == 0 {
            return Op::Done;
        }
        let cell = self.half.left.trailing_zeros();
        let place = (self.half.cells & ((1 << cell) - 1)).count_ones();
        Op::Add(self.half.first + NODE_WORDS as u32 * place, self.won)
    }

    /// Goes on after the next add was made, and answers whether the half in hand has another: a
    /// loop over one half needs no more than that half in registers.
    #[inline(always)]
    pub fn got(&mut self) -> bool
        ensures { self.new ≡ adds_after self.old }
    {
        let left = self.half.left;
        if left == 0 {
            return false;
        }
        let rest = left ^ 1 << left.trailing_zeros();
        if rest == 0 {
            self.half = self.next;
            self.next = Half::none();
            return false;
        }
        self.half.left = rest;
        true
    }

    /// Whether no add is left.
    #[inline(always)]
    pub fn is_done(&self) -> bool
        ensures { IsTrue result ↔ (self.now ≡ []) }
    {
        self.half.left == 0
    }
}

// The cells of the set below 64, and those from 64 on.
fn halves(set: CellSet) -> (u64, u64)
    ensures { (result.0 ≡ set % 2 ^ HALF_CELLS) × (result.1 ≡ set / 2 ^ HALF_CELLS) }
{
    let bits = set.bits();
    (
        (bits % (1 << HALF_CELLS)) as u64,
        (bits >> HALF_CELLS) as u64,
    )
}

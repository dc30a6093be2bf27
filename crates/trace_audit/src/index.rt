//! Which block begins at which word.

ghost use Rattle.std.specs.Prelude.{◌≡◌, ◌<◌, IfOk, MatchBool, length, replicate, set, slice_index};
ghost use Rattle.trace_audit.specs.Slots.{IsNearTaken};
ghost use Rattle.trace_audit.specs.declared.index.TheConstants.{NUMBERS};

use super::refusals::Memory;
use std::alloc::Global;
use std::marker::Model;

/// A piece has four words, as many as the least block: of blocks that share no word at most one
/// begins in a piece.
const PIECE: u32 = 4;

/// A number with its place in the piece fits into a slot.
pub(crate) const NUMBERS: u32 = 1 << 30;

/// For each word the number of the site whose block begins there, from 1; for other words 0. Each
/// piece of four words has one slot, 0 or four times the number and the place in the piece.
#[derive(Drop)]
pub(crate) struct Index {
    slots: Vec<u32>,
    len: usize,
}

impl Model for Index {
    ghost use Rattle.std.specs.Prelude.{ℕ, List};
    ghost use Rattle.trace_audit.specs.Slots.{AreSlots, entries_from};

    ghost Value = { List ℕ };

    ghost view = { λ x. entries_from 0 x.len x.slots.items };

    ghost invariant = { λ x. AreSlots x.len x.slots.items };
}

// So many slots that are 0.
fn no_slots(alloc: Global, count: usize) -> Result<Vec<u32>, Memory>
    ensures { IfOk result (λ slots. slots.items ≡ replicate count 0) }
{
    let slots = vec![in alloc; 0; count]?;
    Ok(slots)
}

impl Index {
    /// An index without entries.
    pub(crate) fn empty(alloc: Global, len: usize) -> Result<Index, Memory>
        ensures { IfOk result (λ index. index ≡ replicate len 0) }
    {
        let slots = no_slots(alloc, len / PIECE as usize + 1)?;
        Ok(Index { slots, len })
    }

    /// The number of the word, or 0.
    pub(crate) fn entry(&self, at: usize) -> u32
        requires { at < length self.now }
        ensures { result ≡ slice_index self.now at }
    {
        let slot = self.slots[at / PIECE as usize];
        if (slot % PIECE) as usize == at % PIECE as usize {
            slot / PIECE
        } else {
            0
        }
    }

    /// Gives the word this number. Answers whether it did: it does not if another word nearby
    /// has one.
    pub(crate) fn enter(&mut self, at: usize, number: u32) -> bool
        requires at { at < length self.old }
        requires least { 0 < number }
        requires most { number < NUMBERS }
        ensures { MatchBool result (self.new ≡ set self.old at number)
            (IsNearTaken self.old at) }
    {
        let place = (at % PIECE as usize) as u32;
        let slot = self.slots[at / PIECE as usize];
        if slot != 0 && slot % PIECE != place {
            return false;
        }
        self.slots[at / PIECE as usize] = PIECE * number + place;
        true
    }
}

//! What stones change.

use super::bits::Bits;
use super::entries::{Entry, Pair};

/// What stones of both players change in one player's links.
#[derive(Drop)]
pub(crate) struct Change {
    /// The cells of the other player's.
    pub lost: Bits,
    /// The cells of his own.
    pub gained: Bits,
    // Of each element whether all entries there change, or are gone.
    ends: [bool; 256],
    // The element that it is from now on.
    names: [u8; 256],
}

impl Change {
    /// No stones.
    pub(crate) fn none() -> Change {
        let mut names = [0u8; 256];
        for (element, name) in names.iter_mut().enumerate() {
            *name = element.min(usize::from(u8::MAX)) as u8;
        }
        Change {
            lost: Bits::none(),
            gained: Bits::none(),
            ends: [false; 256],
            names,
        }
    }

    /// Says that these elements are this one from now on.
    pub(crate) fn rename(&mut self, elements: Bits, name: u8) {
        for now in self.names.iter_mut() {
            if elements.has(*now) {
                *now = name;
            }
        }
    }

    /// Says that all entries at these elements change, or are gone.
    pub(crate) fn end_at(&mut self, elements: Bits) {
        for (element, is_end) in self.ends.iter_mut().enumerate() {
            *is_end = *is_end || elements.has(element.min(usize::from(u8::MAX)) as u8);
        }
    }

    /// What an element is from now on.
    pub(crate) fn name(&self, element: u8) -> u8 {
        self.names[element as usize]
    }

    /// Whether a pair's entries all change, or are gone.
    #[inline(always)]
    pub(crate) fn ends_at(&self, pair: Pair) -> bool {
        self.ends[pair.x as usize] | self.ends[pair.y as usize]
    }

    /// Whether an entry changes, or is gone.
    #[inline(always)]
    pub(crate) fn touches(&self, entry: &Entry) -> bool {
        entry.carrier.meets(self.lost.union(self.gained)) | self.ends_at(entry.pair)
    }

    /// Whether an entry is gone: it ends at a cell that is lost, or needs one.
    pub(crate) fn loses(&self, entry: &Entry) -> bool {
        let pair = entry.pair;
        entry.carrier.meets(self.lost) || self.lost.has(pair.x) || self.lost.has(pair.y)
    }
}

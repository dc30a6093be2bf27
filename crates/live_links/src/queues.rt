//! The entries that wait, those with the smallest carriers first, and of as many cells those that
//! came first.

use super::entries::{Entry, NOBODY};

// A carrier has at most so many cells.
const SIZES: usize = 256;

/// A list for each number of cells; the entries themselves say which is the next one.
#[derive(Clone, Copy)]
pub(crate) struct Queue {
    first: [u16; SIZES],
    last: [u16; SIZES],
    // No list before this one has an entry that waits.
    least: u8,
}

impl Queue {
    /// An empty queue.
    pub(crate) fn none() -> Queue {
        Queue {
            first: [NOBODY; SIZES],
            last: [NOBODY; SIZES],
            least: 0,
        }
    }

    /// Puts an entry whose carrier has so many cells.
    #[inline(always)]
    pub(crate) fn put(&mut self, entries: &mut [Entry], number: u16, size: u8) {
        if self.first[size as usize] == NOBODY {
            self.first[size as usize] = number;
        } else if let Some(last) = entries.get_mut(self.last[size as usize] as usize) {
            last.next = number;
        }
        self.last[size as usize] = number;
        self.least = self.least.min(size);
    }

    /// Takes the next one; `None` if none waits.
    pub(crate) fn take(&mut self, entries: &[Entry]) -> Option<u16> {
        for size in self.least..u8::MAX {
            let number = self.first[size as usize];
            if number != NOBODY {
                self.least = size;
                let entry = entries.get(number as usize);
                self.first[size as usize] = entry.map_or(NOBODY, |entry| entry.next);
                return Some(number);
            }
        }
        self.least = u8::MAX;
        None
    }
}

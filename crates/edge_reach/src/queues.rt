//! The entries that wait, those with the smallest carriers first, and of as many cells those that
//! came first.

use hex_cells::MOST_CELLS;
use std::alloc::{AllocError, Global};
use std::collections::VecDeque;

/// The numbers of entries that wait.
#[derive(Drop)]
pub(crate) struct Queue {
    // A list for each number of cells.
    lists: Vec<VecDeque<u32>>,
    // No list before this one has an entry that waits.
    least: usize,
}

impl Queue {
    /// An empty queue.
    pub(crate) fn make(alloc: Global) -> Result<Queue, AllocError> {
        let lists = (0..=MOST_CELLS).map(|_cells| VecDeque::new(alloc));
        Ok(Queue {
            lists: lists.collect(alloc)?,
            least: 0,
        })
    }

    /// Takes all away.
    pub(crate) fn clear(&mut self) {
        self.lists.iter_mut().for_each(|list| list.clear());
        self.least = 0;
    }

    /// Puts an entry whose carrier has so many cells.
    pub(crate) fn put(&mut self, cells: u32, number: u32) -> Result<(), AllocError> {
        let place = cells as usize;
        if let Some(list) = self.lists.get_mut(place) {
            list.push_back(number)?;
            self.least = self.least.min(place);
        }
        Ok(())
    }

    /// Takes the next one; `None` if none waits.
    pub(crate) fn take(&mut self) -> Option<u32> {
        for place in self.least..self.lists.len() {
            self.least = place;
            if let Some(number) = self.lists.get_mut(place)?.pop_front() {
                return Some(number);
            }
        }
        None
    }
}

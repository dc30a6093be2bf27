//! The entries of a report that wait to be taken, by the sizes of their carriers.

ghost use Rattle.std.specs.Prelude.{◌≡◌, ◌^◌, ◌<◌, ◌≤◌, [], IfOk, OnOk, MatchOption, length, map};
ghost use Rattle.hex_cells.specs.declared.board_size.TheConstants.{MOST_CELLS};
ghost use Rattle.hsearch.specs.Waiting.{AreFilledFrom, IsWithRange, IsWith};

use conn_store::Entry;
use hex_cells::MOST_CELLS;
use std::alloc::{AllocError, Global};
use std::collections::VecDeque;
use std::marker::Model;

// How many sizes a carrier may have: 0 to `MOST_CELLS` cells.
const SIZES: usize = MOST_CELLS as usize + 1;

/// The numbers of the entries that wait: a queue for each size of a carrier.
#[derive(Drop)]
pub(crate) struct Waiting {
    queues: Vec<VecDeque<u32>>,
    least: usize,
}

impl Model for Waiting {
    ghost use Rattle.std.specs.Prelude.{ℕ, List, map};
    ghost use Rattle.std.specs.List.{concat};
    ghost use Rattle.hsearch.specs.Waiting.{IsQueued};

    ghost Value = { List ℕ };

    ghost view = { λ w. concat (map (λ q. q.items) w.queues.items) };

    ghost invariant = { λ w. IsQueued (map (λ q. q.items) w.queues.items) w.least };
}

impl Waiting {
    /// No entry waits.
    pub(crate) fn make(alloc: Global) -> Result<Waiting, AllocError>
        ensures { IfOk result (λ waiting. waiting ≡ []) }
    {
        let mut queues = Vec::new(alloc);
        'sizes: for _size in 0..SIZES {
            queues.push(VecDeque::new(alloc))?;
        }
        Ok(Waiting { queues, least: 0 })
    }

    // Puts in the number of an entry with so many cells in its carrier.
    fn put(&mut self, number: u32, size: u32) -> Result<(), AllocError>
        requires { size ≤ MOST_CELLS }
        ensures { OnOk result (IsWith self.old number self.new) }
    {
        let size = size as usize;
        self.queues[size].push_back(number)?;
        self.least = self.least.min(size);
        Ok(())
    }

    /// Puts in the numbers of these entries from `first` on.
    pub(crate) fn put_from(&mut self, entries: &[Entry], first: usize) -> Result<(), AllocError>
        requires first { first ≤ length entries.now }
        requires number { length entries.now < 2 ^ 32 }
        ensures { OnOk result (IsWithRange self.old self.new first (length entries.now)) }
    {
        'entries: for number in first..entries.len() {
            self.put(number as u32, entries[number].carrier.count())?;
        }
        Ok(())
    }

    /// Takes out a number with the least size, the one that came first.
    pub(crate) fn take(&mut self) -> Option<u32>
        ensures { MatchOption result ((self.old ≡ []) × (self.new ≡ []))
            (λ number. IsWith self.new number self.old) }
    {
        let place = first_filled(&self.queues, self.least);
        self.least = place;
        if place == self.queues.len() {
            return None;
        }
        self.queues[place].pop_front()
    }
}

// The first place from `start` on at which a queue has a number; behind all if none has.
fn first_filled(queues: &[VecDeque<u32>], start: usize) -> usize
    requires { start ≤ length queues.now }
    ensures { AreFilledFrom (map (λ q. q.items) queues.now) start result }
{
    'places: for place in start..queues.len() {
        if !queues[place].is_empty() {
            return place;
        }
    }
    queues.len()
}

//! Entries come, and are taken one after the other.

use super::bits::Bits;
use super::entries::{Entry, Held, Pair, State};
use super::links::Links;
use std::alloc::AllocError;

/// The most entries, those that were given up counted too: more than any board of 11 by 11 was seen
/// to have. Those past them are left out.
pub const MOST_ENTRIES: usize = 15_000;

impl Links {
    /// Adds an entry, if its pair wants it, in place of those around it, or else of the widest one
    /// where there are as many.
    #[inline(always)]
    pub(crate) fn add(&mut self, pair: Pair, carrier: Bits) -> Result<(), AllocError> {
        let held = self.pairs.at(pair);
        if held.wants(&self.entries, carrier, carrier.count(), pair.most()) {
            self.put(pair, held, carrier)?;
        }
        Ok(())
    }

    // Adds an entry that its pair wants, which has these.
    fn put(&mut self, pair: Pair, held: Held, carrier: Bits) -> Result<(), AllocError> {
        if MOST_ENTRIES <= self.entries.len() {
            return Ok(());
        }
        let mut held = held;
        let most = pair.most();
        let entry = Entry::of(pair, carrier);
        let gone = held.make_place(&mut self.entries, carrier, entry.size, most);
        let number = self.entries.len().min(usize::from(u16::MAX)) as u16;
        self.entries.push(entry)?;
        held.enlist(number, entry.size);
        held.measure(&self.entries, most);
        self.pairs.put(pair, &held);
        self.queue.put(&mut self.entries, number, entry.size);
        if 0 < gone {
            self.unlink(pair);
        }
        Ok(())
    }

    /// Takes the next entry that waits, with its number. `None` if none does.
    pub(crate) fn take(&mut self) -> Option<(u16, Entry)> {
        for _given_up in 0..=MOST_ENTRIES {
            let number = self.queue.take(&self.entries)?;
            if let Some(entry) = self.entries.get(number as usize)
                && entry.state == State::Waiting
            {
                return Some((number, *entry));
            }
        }
        None
    }
}

//! The entries of each pair: how many in one table, which in another, so that the first is small.

use super::entries::{Entry, Held, PAIRS, PLACES, Pair};
use std::alloc::{AllocError, Global};

// How many entries a pair has, and how wide they are at most.
#[derive(Clone, Copy)]
struct Head {
    count: u8,
    widest: u8,
}

/// What each pair has, at its place.
#[derive(Drop)]
pub(crate) struct Pairs {
    heads: Vec<Head>,
    // The numbers of the entries. Those from the head's count on are of no account.
    lists: Vec<[u16; PLACES]>,
    // How many were lost by the other player's stones, and not asked for.
    lost: Vec<u8>,
}

impl Pairs {
    /// No room for any pair.
    pub(crate) fn none(alloc: Global) -> Pairs {
        Pairs {
            heads: Vec::new(alloc),
            lists: Vec::new(alloc),
            lost: Vec::new(alloc),
        }
    }

    /// Room for all pairs, which have nothing.
    pub(crate) fn make(alloc: Global) -> Result<Pairs, AllocError> {
        let mut pairs = Pairs::none(alloc);
        let nothing = Head {
            count: 0,
            widest: 0,
        };
        pairs.heads.resize(PAIRS, nothing)?;
        pairs.lists.resize(PAIRS, [0; PLACES])?;
        pairs.lost.resize(PAIRS, 0)?;
        Ok(pairs)
    }

    /// Says that no pair has any.
    pub(crate) fn clear(&mut self) {
        self.heads.fill(Head {
            count: 0,
            widest: 0,
        });
        self.lost.fill(0);
    }

    /// What a pair has.
    #[inline(always)]
    pub(crate) fn at(&self, pair: Pair) -> Held {
        let place = pair.place();
        match (self.heads.get(place), self.lists.get(place)) {
            (Some(head), Some(list)) => Held {
                count: head.count,
                widest: head.widest,
                at: *list,
            },
            _ => Held::none(),
        }
    }

    /// Says what a pair has.
    #[inline(always)]
    pub(crate) fn put(&mut self, pair: Pair, held: &Held) {
        let place = pair.place();
        if let Some(head) = self.heads.get_mut(place)
            && let Some(list) = self.lists.get_mut(place)
        {
            head.count = held.count;
            head.widest = held.widest;
            *list = held.at;
        }
    }

    /// Puts an entry behind the others of its pair, if there is room.
    #[inline(always)]
    pub(crate) fn enlist(&mut self, number: u16, entry: &Entry) {
        let place = entry.pair.place();
        if let Some(head) = self.heads.get_mut(place)
            && let Some(list) = self.lists.get_mut(place)
            && let Some(last) = list.get_mut(head.count as usize)
        {
            *last = number;
            head.count = head.count.saturating_add(1);
            head.widest = head.widest.max(entry.size);
        }
    }

    /// Whether a pair has none.
    pub(crate) fn is_empty(&self, pair: Pair) -> bool {
        match self.heads.get(pair.place()) {
            Some(head) => head.count == 0,
            None => true,
        }
    }

    /// Whether a pair has as many entries as it may, and none has more cells than this.
    #[inline(always)]
    pub(crate) fn is_closed(&self, pair: Pair, size: u8) -> bool {
        match self.heads.get(pair.place()) {
            Some(head) => pair.most() <= head.count && head.widest <= size,
            None => true,
        }
    }

    /// Says that a pair lost one of its entries.
    pub(crate) fn lose(&mut self, pair: Pair) {
        if let Some(lost) = self.lost.get_mut(pair.place()) {
            *lost = lost.saturating_add(1);
        }
    }

    /// Whether a pair lost one of as many as it may have, and that wasn't asked before.
    pub(crate) fn is_due(&mut self, pair: Pair) -> bool {
        let place = pair.place();
        match (self.heads.get(place), self.lost.get_mut(place)) {
            (Some(head), Some(lost)) => {
                let is_due = 0 < *lost && pair.most() <= head.count.saturating_add(*lost);
                *lost = 0;
                is_due
            }
            _ => false,
        }
    }
}

//! Derivations: the entries on which an entry rests.

use super::entries::put_at;
use super::found::Found;
use std::alloc::{AllocError, Global};

// A step of a walk through premises.
#[derive(Clone, Copy, PartialEq, Eq)]
enum Step {
    // To an entry, before its premises.
    Enter(u32),
    // Behind its premises.
    Leave(u32),
}

/// Room for walks, used again and again.
#[derive(Drop)]
pub(crate) struct Walk {
    seen: Vec<bool>,
    open: Vec<Step>,
    order: Vec<u32>,
}

impl Walk {
    /// Room that is empty.
    pub(crate) fn make(alloc: Global) -> Walk {
        Walk {
            seen: Vec::new(alloc),
            open: Vec::new(alloc),
            order: Vec::new(alloc),
        }
    }

    /// The entries on which one rests, each behind those on which it rests, the one itself the
    /// last.
    pub(crate) fn walk(&mut self, found: &Found, number: u32) -> Result<&[u32], AllocError> {
        let count = found.entries().len().max(self.seen.len());
        self.seen.resize(count, false)?;
        self.order.clear();
        self.open.clear();
        self.open.push(Step::Enter(number))?;
        for _step in 0..u32::MAX {
            match self.open.pop() {
                None => break,
                Some(Step::Leave(number)) => self.order.push(number)?,
                Some(Step::Enter(number)) => self.enter(found, number)?,
            }
        }
        // The next walk begins with nothing seen.
        for number in self.order.iter() {
            put_at(&mut self.seen, *number as usize, false);
        }
        Ok(&self.order)
    }

    // Opens the premises of an entry that was not seen.
    fn enter(&mut self, found: &Found, number: u32) -> Result<(), AllocError> {
        if let Some(entry) = found.entries().get(number as usize)
            && let Some(seen) = self.seen.get_mut(number as usize)
            && !*seen
        {
            *seen = true;
            self.open.push(Step::Leave(number))?;
            for premise in found.premises(entry).iter().rev() {
                self.open.push(Step::Enter(*premise))?;
            }
        }
        Ok(())
    }
}

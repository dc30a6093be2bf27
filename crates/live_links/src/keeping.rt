//! Links that are kept: what those with more stones are made from.

use super::entries::Entry;
use super::links::{Links, PlayerElements};
use std::alloc::{AllocError, Global};

/// A player's links, without what is needed to find more.
#[derive(Drop)]
pub struct KeptLinks {
    pub(crate) elements: PlayerElements,
    pub(crate) entries: Vec<Entry>,
    // So many entries have room.
    most: usize,
}

impl KeptLinks {
    /// No links, and no room.
    pub fn none(alloc: Global) -> KeptLinks {
        KeptLinks {
            elements: PlayerElements::none(),
            entries: Vec::new(alloc),
            most: 0,
        }
    }

    /// Makes room for so many entries. It takes no memory where there is as much.
    pub fn make_room(&mut self, most: usize) -> Result<(), AllocError> {
        if self.most < most {
            self.entries.clear();
            self.entries.reserve(most)?;
            self.most = most;
        }
        Ok(())
    }

    /// Makes them these, if they have room: whether they had. It takes no memory.
    pub fn keep(&mut self, links: &Links) -> Result<bool, AllocError> {
        if self.most < links.entries.len() {
            return Ok(false);
        }
        self.elements = links.elements;
        self.entries.clear();
        self.entries.extend_from_slice(&links.entries)?;
        Ok(true)
    }
}

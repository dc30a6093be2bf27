//! The links of nodes: of the last ones that were used alone, so that memory is bounded.

use super::refusals::Memory;
use hex_board::Board;
use hex_cells::{CellSet, Colour, Size};
use live_links::{KeptLinks, Links, MOST_ENTRIES, Room, Until};
use std::alloc::Global;
use std::mem::swap;

// The links of so many nodes are kept. With 160 of them 400 nodes on a board of 11 by 11 took a
// fifth more time, since those of more nodes had to be made anew.
const MOST_KEPT: u32 = 320;

// So many entries for each cell of the board have room where a player's links are kept: no board of
// 5 by 5 to 11 by 11 was seen to have more. Where there are more, they aren't kept.
const ENTRIES_PER_CELL: u32 = 100;

/// The place of no node.
pub(crate) const NOWHERE: u32 = u32::MAX;

/// What is known of a board, for the player to move.
#[derive(Clone, Copy, PartialEq, Eq)]
pub(crate) enum Verdict {
    Won,
    Lost,
    /// He loses anywhere else than on one of these cells.
    Among(CellSet),
}

/// The links of both players on a board, as they are kept.
#[derive(Drop)]
pub(crate) struct KeptBoth {
    black: KeptLinks,
    white: KeptLinks,
}

impl KeptBoth {
    /// No links, and no room.
    pub(crate) fn none(alloc: Global) -> KeptBoth {
        KeptBoth {
            black: KeptLinks::none(alloc),
            white: KeptLinks::none(alloc),
        }
    }

    /// Makes room for so many entries of each player's.
    pub(crate) fn make_room(&mut self, most: usize) -> Result<(), Memory> {
        self.black.make_room(most)?;
        self.white.make_room(most)?;
        Ok(())
    }

    /// Makes room for any links.
    pub(crate) fn make_room_for_any(&mut self) -> Result<(), Memory> {
        self.make_room(MOST_ENTRIES)
    }

    /// Makes them these, if they have room: whether they had.
    pub(crate) fn keep(&mut self, both: &Both) -> Result<bool, Memory> {
        Ok(self.black.keep(&both.black)? && self.white.keep(&both.white)?)
    }
}

/// The links of both players on a board.
#[derive(Drop)]
pub(crate) struct Both {
    black: Links,
    white: Links,
}

impl Both {
    /// No links.
    pub(crate) fn make(alloc: Global) -> Result<Both, Memory> {
        Ok(Both {
            black: Links::make(alloc)?,
            white: Links::make(alloc)?,
        })
    }

    /// A player's.
    pub(crate) fn of(&self, colour: Colour) -> &Links {
        match colour {
            Colour::Black => &self.black,
            Colour::White => &self.white,
        }
    }

    /// Makes them those of a board, from nothing.
    pub(crate) fn load(&mut self, board: &Board) -> Result<(), Memory> {
        self.black.load(board, Colour::Black, Until::Closed)?;
        self.white.load(board, Colour::White, Until::Closed)?;
        Ok(())
    }

    // Makes a player's those on a board, from those of a board with fewer stones.
    fn follow(
        &mut self,
        before: &KeptBoth,
        player: Colour,
        board: &Board,
        until: Until,
        room: &mut Room,
    ) -> Result<(), Memory> {
        match player {
            Colour::Black => self.black.follow(&before.black, board, until, room)?,
            Colour::White => self.white.follow(&before.white, board, until, room)?,
        }
        Ok(())
    }

    /// What is known of a board with this player to move, by the links of both: they are made from
    /// those of a board with fewer stones.
    pub(crate) fn verdict(
        &mut self,
        before: &KeptBoth,
        board: &Board,
        mover: Colour,
        room: &mut Room,
    ) -> Result<Verdict, Memory> {
        let other = mover.other();
        match board.winner() {
            Some(winner) if winner == other => return Ok(Verdict::Lost),
            Some(_) => return Ok(Verdict::Won),
            None => {}
        }
        self.follow(before, mover, board, Until::AnyWin, room)?;
        if self.of(mover).has_any() {
            return Ok(Verdict::Won);
        }
        self.follow(before, other, board, Until::FullWin, room)?;
        Ok(verdict_by(self.of(other)))
    }
}

// Whose links a slot has.
#[derive(Clone, Copy)]
struct Mark {
    node: u32,
    // When they were used last.
    used: u64,
}

impl Mark {
    // Nobody's.
    fn none() -> Mark {
        Mark {
            node: NOWHERE,
            used: 0,
        }
    }
}

/// What is kept.
#[derive(Drop)]
pub(crate) struct Pool {
    kept: Vec<KeptBoth>,
    // Of each slot, apart from the links, so that the oldest one is found soon.
    marks: Vec<Mark>,
    clock: u64,
}

impl Pool {
    /// An empty one.
    pub(crate) fn make(alloc: Global) -> Pool {
        Pool {
            kept: Vec::new(alloc),
            marks: Vec::new(alloc),
            clock: 0,
        }
    }

    /// Makes room for the links of so many nodes, but of [`MOST_KEPT`] at most, with so many
    /// entries of a player's each. What is kept may be gone.
    pub(crate) fn make_room(
        &mut self,
        alloc: Global,
        nodes: u32,
        entries: usize,
    ) -> Result<(), Memory> {
        for kept in self.kept.iter_mut() {
            kept.make_room(entries)?;
        }
        self.grow(alloc, nodes.min(MOST_KEPT) as usize, entries)
    }

    // Adds slots until there are so many.
    fn grow(&mut self, alloc: Global, slots: usize, entries: usize) -> Result<(), Memory> {
        for _slot in self.kept.len()..slots {
            let mut kept = KeptBoth::none(alloc);
            kept.make_room(entries)?;
            self.kept.push(kept)?;
            self.marks.push(Mark::none())?;
        }
        Ok(())
    }

    /// Says that nothing that is kept is of a node.
    pub(crate) fn clear(&mut self) {
        self.marks.fill(Mark::none());
    }

    /// Says of which node from now on each is what is kept.
    pub(crate) fn rename(&mut self, places: &[u32]) {
        for mark in self.marks.iter_mut() {
            mark.node = places.get(mark.node as usize).copied().unwrap_or(NOWHERE);
            if mark.node == NOWHERE {
                mark.used = 0;
            }
        }
    }

    /// The links in a slot.
    pub(crate) fn at(&self, slot: usize) -> Option<&KeptBoth> {
        self.kept.get(slot)
    }

    /// The slot with the links of a node, which were kept in this one. `None` if they are gone.
    pub(crate) fn slot_of(&mut self, node: u32, slot: usize) -> Option<usize> {
        let mark = self.marks.get_mut(slot)?;
        if mark.node != node {
            return None;
        }
        self.clock = self.clock.saturating_add(1);
        mark.used = self.clock;
        Some(slot)
    }

    /// Keeps these links as those of a node: in which slot. They get others for that.
    pub(crate) fn keep(&mut self, both: &mut KeptBoth, node: u32) -> usize {
        self.clock = self.clock.saturating_add(1);
        let slot = self.oldest();
        if let Some(kept) = self.kept.get_mut(slot)
            && let Some(mark) = self.marks.get_mut(slot)
        {
            swap(kept, both);
            mark.node = node;
            mark.used = self.clock;
        }
        slot
    }

    // The slot that wasn't used for the longest time.
    fn oldest(&self) -> usize {
        let mut oldest = 0;
        let mut least = u64::MAX;
        for (slot, mark) in self.marks.iter().enumerate() {
            if mark.used < least {
                least = mark.used;
                oldest = slot;
            }
        }
        oldest
    }
}

/// How many entries of a player's have room where links on a board of this size are kept.
pub(crate) fn entries_on(size: Size) -> usize {
    size.cells().saturating_mul(ENTRIES_PER_CELL) as usize
}

// What is known of a board by the links of the player who isn't to move, if the other doesn't win
// by his own.
fn verdict_by(links: &Links) -> Verdict {
    let must = links.common();
    if links.has_full() || must.is_empty() {
        Verdict::Lost
    } else {
        Verdict::Among(must)
    }
}

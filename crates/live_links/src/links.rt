//! What a player's links have: his elements, and the entries by pair.

use super::adding::MOST_ENTRIES;
use super::bits::Bits;
use super::entries::{Entry, Pair};
use super::pairs::Pairs;
use super::queues::Queue;
use hex_board::Board;
use hex_cells::{CellSet, Colour, MOST_CELLS, Size};
use std::alloc::{AllocError, Global};

/// The element of the player's first edge. A cell has its own number as an element, and a group
/// away from the edges that of one of its cells.
pub(crate) const FIRST: u8 = 121;

/// The element of his second edge.
pub(crate) const SECOND: u8 = 122;

/// What a cell with a stone of the other player has for an element.
pub(crate) const NO_ELEMENT: u8 = u8::MAX;

/// When links are done.
#[derive(Clone, Copy, Debug, PartialEq, Eq)]
pub enum Until {
    /// When no rule gives one more entry.
    Closed,
    /// At the first entry between the edges, at the latest.
    AnyWin,
    /// At the first full entry between the edges, at the latest.
    FullWin,
}

/// A player's elements on a board.
#[derive(Clone, Copy)]
pub(crate) struct PlayerElements {
    pub size: Size,
    pub colour: Colour,
    pub stones: CellSet,
    pub empties: Bits,
    /// The elements that there are.
    pub active: Bits,
    /// The element of each cell.
    pub of: [u8; MOST_CELLS as usize],
    /// Of each element those with which it has a full entry that was taken.
    pub ways: [Bits; 256],
}

impl PlayerElements {
    /// No elements.
    pub(crate) fn none() -> PlayerElements {
        PlayerElements {
            size: Size::LARGEST,
            colour: Colour::Black,
            stones: CellSet::none(),
            empties: Bits::none(),
            active: Bits::none(),
            of: [NO_ELEMENT; MOST_CELLS as usize],
            ways: [Bits::none(); 256],
        }
    }
}

/// A player's elements on a board, and the connections between them.
#[derive(Drop)]
pub struct Links {
    pub(crate) elements: PlayerElements,
    pub(crate) entries: Vec<Entry>,
    // The entries of each pair.
    pub(crate) pairs: Pairs,
    pub(crate) queue: Queue,
}

impl Links {
    /// No links, and room for as many entries as there may be.
    pub fn make(alloc: Global) -> Result<Links, AllocError> {
        let mut entries = Vec::new(alloc);
        entries.reserve(MOST_ENTRIES)?;
        Ok(Links {
            elements: PlayerElements::none(),
            entries,
            pairs: Pairs::make(alloc)?,
            queue: Queue::none(),
        })
    }

    // Makes these those of a player on a board, before any entry is added.
    pub(crate) fn clear(&mut self, board: &Board, colour: Colour) {
        self.elements.size = board.size();
        self.elements.colour = colour;
        self.elements.stones = board.stones(colour);
        self.elements.empties = Bits::of(board.empties());
        self.elements.ways = [Bits::none(); 256];
        self.entries.clear();
        self.pairs.clear();
        self.queue = Queue::none();
    }

    /// Whether an entry between the edges was found: the player wins if he moves next.
    pub fn has_any(&self) -> bool {
        self.has_edges(true) || self.has_edges(false)
    }

    /// Whether a full one was found: he wins if the other moves next.
    pub fn has_full(&self) -> bool {
        self.has_edges(true)
    }

    // Whether there is an entry of this kind between the edges.
    fn has_edges(&self, is_full: bool) -> bool {
        !self.pairs.is_empty(Pair::of(is_full, FIRST, SECOND))
    }

    /// The empty cells that all semi entries between the edges have in common.
    pub fn common(&self) -> CellSet {
        let mut common = self.elements.empties;
        for number in self.pairs.at(Pair::of(false, FIRST, SECOND)).numbers() {
            if let Some(entry) = self.entries.get(*number as usize) {
                common = common.meet(entry.carrier);
            }
        }
        common.cells()
    }

    /// The set of an element that is an empty cell; none of a group.
    #[inline(always)]
    pub(crate) fn alone(&self, element: u8) -> Bits {
        Bits::single(element).meet(self.elements.empties)
    }

    /// Says that a full entry was taken between two elements.
    pub(crate) fn link(&mut self, x: u8, y: u8) {
        self.elements.ways[x as usize] = self.elements.ways[x as usize].union(Bits::single(y));
        self.elements.ways[y as usize] = self.elements.ways[y as usize].union(Bits::single(x));
    }

    /// Says that none was, if none that is left was.
    pub(crate) fn unlink(&mut self, pair: Pair) {
        if pair.is_full && !self.pairs.at(pair).has_taken(&self.entries) {
            let (x, y) = (pair.x, pair.y);
            self.elements.ways[x as usize] = self.elements.ways[x as usize].minus(Bits::single(y));
            self.elements.ways[y as usize] = self.elements.ways[y as usize].minus(Bits::single(x));
        }
    }
}

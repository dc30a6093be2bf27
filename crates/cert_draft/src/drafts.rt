//! A draft of a certificate: scopes, what each of them is to show, and by which lines it does.

use super::pools::Pool;
use conn_store::Kind;
use edge_tables::{FinderStop, Key};
use hex_cells::{Cell, CellSet, Colour};
use indexmap::IndexMap;
use std::alloc::{AllocError, Global};

/// The most needs of a draft, and so the most scopes. A certificate has fewer lines, since a fact
/// is written once.
pub(crate) const MOST_NEEDS: usize = 4_000_000;

/// A line of a scope, by the list where it stands, and its place there.
#[derive(Clone, Copy, PartialEq, Eq)]
pub(crate) enum At {
    /// Among the lines that are derived.
    Derived(usize),
    /// Among the stones.
    Stone(usize),
    /// Among the cases.
    Cases(usize),
}

/// What a scope is to show: an entry of a kind inside a region.
#[derive(Clone, Copy, PartialEq, Eq)]
pub(crate) struct Need {
    /// Its own place among the needs.
    pub place: usize,
    pub kind: Kind,
    pub region: CellSet,
    /// The place of the scope.
    pub scope: usize,
    /// The line that shows it, once it is served.
    pub line: Option<At>,
}

/// A stone by which the player wins.
#[derive(Clone, Copy, PartialEq, Eq)]
pub(crate) struct Stone {
    pub cell: Cell,
    /// The need that shows it, in the scope with this stone more.
    pub need: usize,
}

/// A scope, and its lines: those of its pool that are chosen, then stones, then cases.
#[derive(Drop)]
pub(crate) struct Block {
    pub stones: CellSet,
    /// The places of its needs.
    pub needs: Vec<usize>,
    pub pool: Pool,
    /// The stones by which the player wins.
    pub moves: Vec<Stone>,
    /// For each line by cases the needs of these.
    pub cases: Vec<Vec<usize>>,
}

/// A draft. Scopes come in the order in which they are needed, so those with more stones later.
#[derive(Drop)]
pub(crate) struct Draft {
    pub alloc: Global,
    /// Who wins by it.
    pub player: Colour,
    pub blocks: IndexMap<u128, Block>,
    pub needs: Vec<Need>,
}

impl Draft {
    /// Nothing yet.
    pub(crate) fn new(alloc: Global, player: Colour) -> Draft {
        Draft {
            alloc,
            player,
            blocks: IndexMap::new(alloc),
            needs: Vec::new(alloc),
        }
    }

    /// Of whom the entries of a kind in a scope speak.
    pub(crate) fn key(&self, kind: Kind, stones: CellSet) -> Key {
        Key {
            player: self.player,
            kind,
            stones,
        }
    }

    /// The block at a place, to be written.
    pub(crate) fn block_mut(&mut self, place: usize) -> Result<&mut Block, FinderStop> {
        self.blocks.get_index_mut(place).ok_or(FinderStop::NoWay)
    }

    /// Adds what the scope with these stones is to show.
    pub(crate) fn add_need(
        &mut self,
        stones: CellSet,
        kind: Kind,
        region: CellSet,
    ) -> Result<Need, FinderStop> {
        let place = self.needs.len();
        if MOST_NEEDS <= place {
            return Err(FinderStop::Full);
        }
        let scope = self.scope_of(stones)?;
        let need = Need {
            place,
            kind,
            region,
            scope,
            line: None,
        };
        self.needs.push(need)?;
        self.block_mut(scope)?.needs.push(place)?;
        Ok(need)
    }

    // The place of the scope with these stones, which is made if there is none.
    fn scope_of(&mut self, stones: CellSet) -> Result<usize, AllocError> {
        if let Some(place) = self.blocks.get_index_of(&stones.bits()) {
            return Ok(place);
        }
        let place = self.blocks.len();
        let block = Block {
            stones,
            needs: Vec::new(self.alloc),
            pool: Pool::new(self.alloc),
            moves: Vec::new(self.alloc),
            cases: Vec::new(self.alloc),
        };
        self.blocks.insert(stones.bits(), block)?;
        Ok(place)
    }

    /// Says of needs which line shows them.
    pub(crate) fn serve(&mut self, needs: &[Need], line: At) {
        for need in needs {
            if let Some(need) = self.needs.get_mut(need.place) {
                need.line = Some(line);
            }
        }
    }

    /// The needs of the scope at a place.
    pub(crate) fn needs_of(&self, scope: usize) -> Result<Vec<Need>, FinderStop> {
        let (_stones, block) = self.blocks.get_index(scope).ok_or(FinderStop::NoWay)?;
        let places = block.needs.iter();
        let needs = places.filter_map(|place| self.needs.get(*place).copied());
        Ok(needs.collect(self.alloc)?)
    }
}

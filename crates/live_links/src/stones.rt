//! Links with more stones, made of those before.

use super::adding::MOST_ENTRIES;
use super::bits::Bits;
use super::changes::Change;
use super::entries::{Entry, Pair, State};
use super::keeping::KeptLinks;
use super::links::{FIRST, Links, SECOND, Until};
use super::queues::Queue;
use hex_board::Board;
use hex_cells::{Cell, CellSet, MOST_CELLS, edge};
use std::alloc::{AllocError, Global};

/// Room for what changes.
#[derive(Drop)]
pub struct Room {
    // Entries that are added again, at other elements or with a smaller carrier.
    changed: Vec<Entry>,
    // The pair of each entry that didn't stay.
    gone: Vec<Pair>,
}

impl Room {
    /// Room for what can change.
    pub fn make(alloc: Global) -> Result<Room, AllocError> {
        let mut room = Room {
            changed: Vec::new(alloc),
            gone: Vec::new(alloc),
        };
        room.changed.reserve(MOST_ENTRIES)?;
        room.gone.reserve(MOST_ENTRIES)?;
        Ok(room)
    }
}

impl Links {
    /// Makes these the links on a board from those on one that has fewer stones.
    pub fn follow(
        &mut self,
        before: &KeptLinks,
        board: &Board,
        until: Until,
        room: &mut Room,
    ) -> Result<(), AllocError> {
        self.elements = before.elements;
        let mut change = Change::none();
        self.lose(
            Bits::of(board.stones(self.elements.colour.other())),
            &mut change,
        );
        self.gain_all(board.stones(self.elements.colour), &mut change);
        self.take_over(before, &change, room)?;
        self.make_up(room)?;
        self.add_again(&change, room)?;
        self.run(until)
    }

    // The player's own stones, of which these are all.
    fn gain_all(&mut self, stones: CellSet, change: &mut Change) {
        let mut gained = stones.minus(self.elements.stones);
        change.gained = Bits::of(gained);
        for _stone in 0..MOST_CELLS {
            let Some(cell) = gained.least() else {
                break;
            };
            gained = gained.without(cell);
            self.gain(cell, change);
        }
    }

    // A stone of the player's own: it and the groups beside it are one element from now on.
    fn gain(&mut self, cell: Cell, change: &mut Change) {
        let own = cell.number() as u8;
        let single = Bits::single(own);
        let merged = self.groups_beside(cell).union(single);
        let name = name_of(merged.minus(single), own);
        self.elements.stones = self.elements.stones.with(cell);
        self.elements.empties = self.elements.empties.minus(single);
        self.elements.active = self.elements.active.minus(merged).union(Bits::single(name));
        for of in self.elements.of.iter_mut() {
            if merged.has(*of) {
                *of = name;
            }
        }
        // What ends at the cell changes even if it keeps its number: it is a group from now on.
        change.rename(merged, name);
        change.end_at(merged.minus(Bits::single(name)).union(single));
    }

    // The groups beside a cell.
    fn groups_beside(&self, cell: Cell) -> Bits {
        let mut groups = Bits::none();
        let single = CellSet::none().with(cell);
        if single.meets(edge(self.elements.colour, false, self.elements.size)) {
            groups = groups.union(Bits::single(FIRST));
        }
        if single.meets(edge(self.elements.colour, true, self.elements.size)) {
            groups = groups.union(Bits::single(SECOND));
        }
        let mut rest = single.around(self.elements.size).meet(self.elements.stones);
        for _neighbour in 0..MOST_CELLS {
            let Some(neighbour) = rest.least() else {
                break;
            };
            rest = rest.without(neighbour);
            groups = groups.union(Bits::single(self.elements.of[neighbour.number() as usize]));
        }
        groups
    }

    // Takes the entries over that stay as they are, and lists those of each pair.
    fn take_over(
        &mut self,
        before: &KeptLinks,
        change: &Change,
        room: &mut Room,
    ) -> Result<(), AllocError> {
        self.queue = Queue::none();
        self.pairs.clear();
        self.entries.clear();
        room.changed.clear();
        room.gone.clear();
        for entry in before.entries.iter() {
            if entry.state == State::GivenUp {
                continue;
            }
            if change.touches(entry) {
                self.leave_out(entry, change, room)?;
                continue;
            }
            let number = self.entries.len().min(usize::from(u16::MAX)) as u16;
            self.pairs.enlist(number, entry);
            self.entries.push(*entry)?;
        }
        Ok(())
    }

    // Leaves an entry out that changed, or that needs a cell that is lost.
    fn leave_out(
        &mut self,
        entry: &Entry,
        change: &Change,
        room: &mut Room,
    ) -> Result<(), AllocError> {
        room.gone.push(entry.pair)?;
        if !change.loses(entry) {
            room.changed.push(*entry)?;
        } else if !change.ends_at(entry.pair) {
            self.pairs.lose(entry.pair);
        }
        Ok(())
    }

    // Of the pairs of entries that didn't stay, those that may have turned others away are joined
    // anew.
    fn make_up(&mut self, room: &Room) -> Result<(), AllocError> {
        for pair in room.gone.iter() {
            self.unlink(*pair);
            self.join_anew(*pair)?;
        }
        Ok(())
    }

    // Adds the entries that changed, as they are from now on. What joined two elements that are one
    // now is no entry any more.
    fn add_again(&mut self, change: &Change, room: &Room) -> Result<(), AllocError> {
        for entry in room.changed.iter() {
            let (x, y) = (change.name(entry.pair.x), change.name(entry.pair.y));
            if x != y {
                let carrier = entry.carrier.minus(change.gained);
                self.add(Pair::of(entry.pair.is_full, x, y), carrier)?;
            }
        }
        Ok(())
    }
}

// The element of a cell with a stone that lies by these groups.
fn name_of(groups: Bits, cell: u8) -> u8 {
    if groups.has(FIRST) {
        FIRST
    } else if groups.has(SECOND) {
        SECOND
    } else {
        let mut rest = groups;
        rest.take().unwrap_or(cell)
    }
}

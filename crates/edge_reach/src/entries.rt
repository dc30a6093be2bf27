//! Entries: connections of two elements.

ghost use Rattle.std.specs.Prelude.{◌≡◌, ◌↔◌, ◌≤◌, IsTrue};

use conn_store::Kind;
use hex_cells::CellSet;

/// The most semi entries that together make a full one.
pub const MOST_UNITED: usize = 8;

/// The rule by which an entry follows from others, its premises.
#[derive(Clone, Copy, Debug, PartialEq, Eq, Hash)]
pub enum Rule {
    /// It has none: the elements lie side by side.
    Adjacent,
    /// Two full entries meet in a group.
    And,
    /// Two full entries meet in an empty cell.
    Key,
    /// Semi entries of the same elements have no cell in common.
    Or,
}

/// A connection of two elements.
#[derive(Clone, Copy, Debug, PartialEq, Eq)]
pub struct Entry {
    pub kind: Kind,
    /// The lesser element; the edges are 0 and 1.
    pub x: u8,
    pub y: u8,
    pub carrier: CellSet,
    pub rule: Rule,
    // Where the report's list of premises has its own, and how many they are.
    pub(crate) first: usize,
    pub(crate) count: usize,
    /// The lines of its derivation, those that it uses twice counted twice, if lines are counted.
    pub lines: u32,
}

impl Entry {
    /// An entry without premises.
    #[inline(always)]
    pub(crate) fn of(kind: Kind, x: u8, y: u8, carrier: CellSet, rule: Rule) -> Entry
        ensures ordered { result.x ≤ result.y }
        ensures carrier { result.carrier ≡ carrier }
    {
        let (x, y) = if x < y { (x, y) } else { (y, x) };
        Entry {
            kind,
            x,
            y,
            carrier,
            rule,
            first: 0,
            count: 0,
            lines: 0,
        }
    }

    /// Whether it connects the player's edges.
    #[inline(always)]
    pub(crate) fn is_between_edges(&self) -> bool
        ensures { IsTrue result ↔ (self.now.x ≡ 0) × (self.now.y ≡ 1) }
    {
        self.x == 0 && self.y == 1
    }
}

/// An end of a connection.
#[derive(Clone, Copy, Debug, PartialEq, Eq, PartialOrd, Ord, Hash)]
pub enum End {
    /// The element with this least cell.
    At(u32),
    /// The player's first edge.
    First,
    /// His second edge.
    Second,
}

/// What becomes of an entry.
#[derive(Clone, Copy, PartialEq, Eq)]
pub(crate) enum State {
    /// It is not yet combined with others.
    Waiting,
    /// It is.
    Taken,
    /// A narrower one stands in its place.
    GivenUp,
}

/// Gives up the entry with this number.
pub(crate) fn give_up(states: &mut [State], number: u32) {
    put_at(states, number as usize, State::GivenUp);
}

/// Puts this in place of what a list has at a place, if it has such a place.
#[inline(always)]
pub(crate) fn put_at<T: Copy>(list: &mut [T], place: usize, item: T) {
    if let Some(old) = list.get_mut(place) {
        *old = item;
    }
}

//! Entries: what is kept of a connection.

ghost use Rattle.std.specs.Prelude.{◌≡◌};

use hex_cells::CellSet;

/// The most full entries of a pair that a store takes: with more, derivations grow long and find
/// little.
pub const MOST_FULL: usize = 4;

/// The most semi entries of a pair that a store takes. Six make 15 pairs and 20 triples for the
/// rule of OR.
pub const MOST_SEMI: usize = 6;

/// The most entries of a store: so many for each of the 7,503 pairs of 123 elements.
pub const MOST_ENTRIES: usize = (MOST_FULL + MOST_SEMI) * 7_503;

/// Who may move first inside the carrier.
#[derive(Clone, Copy, Debug, PartialEq, Eq)]
pub enum Kind {
    /// The player joins the elements even if the opponent moves first.
    Full,
    /// He joins them if he moves first.
    Semi,
}

impl Kind {
    ghost use Rattle.conn_store.specs.Stores.{most_of};

    /// The most entries of a pair that a store takes of this kind.
    pub fn most(self) -> u32
        ensures { result ≡ most_of self }
    {
        match self {
            Kind::Full => MOST_FULL as u32,
            Kind::Semi => MOST_SEMI as u32,
        }
    }
}

/// The rule by which an entry follows, and the numbers of the entries that it follows from.
#[derive(Clone, Copy, Debug, PartialEq, Eq)]
pub enum Cause {
    /// The elements lie side by side.
    Adjacent,
    /// Two full entries meet in a group.
    AndGroup(u32, u32),
    /// Two full entries meet in an empty cell.
    AndEmpty(u32, u32),
    /// Two or three semi entries of the same elements, and how many: the numbers after these are
    /// not read.
    Or([u32; 3], u32),
}

/// What became of an entry that was handed to a store.
#[derive(Clone, Copy, Debug, PartialEq, Eq)]
pub enum Put {
    /// It was added, with this number.
    Added(u32),
    /// The store has an entry of that pair and kind with a carrier inside the new one.
    Dominated,
    /// The pair has its full number of entries of that kind.
    PairFull,
}

/// The numbers of the entries of a pair and kind: the first `count` of `at`, in rising order. The
/// other places are 0.
#[derive(Clone, Copy, Debug, PartialEq, Eq)]
pub struct Held {
    pub count: u32,
    pub at: [u32; MOST_SEMI],
}

/// A connection of two elements.
#[derive(Clone, Copy, Debug, PartialEq, Eq)]
pub struct Entry {
    /// The empty cells inside which the player joins the elements.
    pub carrier: CellSet,
    pub cause: Cause,
    pub kind: Kind,
    /// The lesser element.
    pub x: u8,
    pub y: u8,
}

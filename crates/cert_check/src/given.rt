//! What a line gave, as the checker keeps it.

ghost use Rattle.std.specs.Prelude.{◌≡◌};
ghost use Rattle.win_cert.specs.Entries.{is_end, middle_of, other_end};
ghost use Rattle.win_cert.specs.Statements.{same_ends};
ghost use Rattle.cert_check.specs.Keeping.{entry_of};

use conn_store::Kind;
use hex_cells::CellSet;

/// An entry that a line gave.
#[derive(Clone, Copy, Debug, PartialEq, Eq)]
pub(crate) struct Given {
    pub kind: Kind,
    /// The lesser element.
    pub x: u8,
    pub y: u8,
    pub carrier: CellSet,
    /// The scope of the line.
    pub scope: CellSet,
    /// Whether the elements are those of the player's edges, on the board of the scope.
    pub of_edges: bool,
}

impl Given {
    // Whether the entry is one of this element.
    fn has_end(&self, x: u8) -> bool
        ensures { result ≡ is_end (entry_of self.now) x }
    {
        self.x == x || self.y == x
    }

    /// The entry's element other than the middle.
    pub fn other_end(&self, middle: u8) -> u8
        ensures { result ≡ other_end (entry_of self.now) middle }
    {
        if self.x == middle { self.y } else { self.x }
    }

    /// The one element that two entries have in common.
    pub fn middle(&self, other: &Given) -> Option<u8>
        ensures { result ≡ middle_of (entry_of self.now) (entry_of other.now) }
    {
        match (other.has_end(self.x), other.has_end(self.y)) {
            (true, false) => Some(self.x),
            (false, true) => Some(self.y),
            _ => None,
        }
    }

    /// Whether both entries have the same elements.
    pub fn has_ends_of(&self, other: &Given) -> bool
        ensures { result ≡ same_ends (entry_of self.now) (entry_of other.now) }
    {
        self.x == other.x && self.y == other.y
    }
}

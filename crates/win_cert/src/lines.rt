//! Derivation lines: the steps by which a certificate leads to its claim.

ghost use Rattle.std.specs.Prelude.{◌≡◌};

use super::Numbers;
use hex_cells::{Cell, CellSet};
use std::marker::Model;

/// The greatest number of a line that a certificate can name: six digits.
pub const MOST_NUMBER: u32 = 999_999;

/// The fewest cases: a single one leaves out none of the opponent's replies.
pub const LEAST_CASES: usize = 2;

/// The most cases, and the most entries of an `or`: more than a board has cells.
pub const MOST_CASES: usize = 127;

/// The fewest entries of an `or` that has no form of its own: two have one, and so have three.
pub const LEAST_MANY: usize = 4;

/// An end of a connection.
#[derive(Clone, Copy, Debug, PartialEq, Eq, Drop)]
pub enum End {
    /// The element that has this cell.
    At(Cell),
    /// The player's first edge.
    First,
    /// His second edge.
    Second,
}

/// A derivation line. The numbers are those of earlier lines, whose entries it takes.
#[derive(Debug, Drop)]
pub enum Line {
    /// The two lie side by side: a full entry.
    Adj(End, End),
    /// Two full entries meet in a group: a full entry.
    And(u32, u32),
    /// Two full entries meet in an empty cell: a semi entry.
    Key(u32, u32),
    /// Two semi entries of the same elements with no cell in both carriers: a full entry.
    Or2(u32, u32),
    /// Three semi entries of the same elements with no cell in all their carriers: a full entry.
    Or3(u32, u32, u32),
    /// Four or more semi entries of the same elements with no cell in all their carriers: a full
    /// entry.
    OrMany(Numbers),
    /// Sets the scope of the lines after it to these cells. It gives nothing.
    Put(CellSet),
    /// The player is joined on the board of the scope: a full entry of his edges.
    Done,
    /// With a stone on the cell the player is sure of his edges, by the full entry: a semi entry.
    Move(Cell, u32),
    /// Semi entries of his edges with no cell in all their carriers: a full entry.
    Cases(Numbers),
    /// An entry of a part of the scope: the same in the scope, between the elements that hold its
    /// own, without the scope's cells in its carrier.
    Lift(u32),
}

/// The derivation lines of a certificate.
#[derive(Debug, Drop)]
pub struct Lines {
    items: Vec<Line>,
}

impl Model for Lines {
    ghost use Rattle.std.specs.Prelude.{List};
    ghost use Rattle.win_cert.specs.declared.lines.Line.{Line};

    ghost Value = { List Line };

    ghost view = { λ l. l.items.items };
}

impl Lines {
    /// The lines of this vector. It takes no memory.
    pub fn of(items: Vec<Line>) -> Lines
        ensures { result ≡ items.items }
    {
        Lines { items }
    }

    /// Lends the lines.
    pub fn as_slice(&self) -> &[Line]
        ensures { result.now ≡ self.now }
    {
        &self.items
    }
}

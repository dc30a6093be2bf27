//! What a look-ahead tells.

ghost use Rattle.std.specs.Prelude.{◌≡◌, ◌≤◌, ◌+◌, ◌*◌, ◌^◌, None};
ghost use Rattle.look_ahead.specs.Looked.{class_of, rank_of};

use hex_cells::Cell;
use std::marker::Model;

/// Who is known to win after a stone.
#[derive(Clone, Copy, Debug, PartialEq, Eq)]
pub enum Outcome {
    /// The player who placed it.
    Won,
    /// The other player.
    Lost,
}

/// What a look-ahead found of a cell on which the player to move may place.
#[derive(Debug, Drop)]
pub struct LookRow {
    pub cell: Cell,
    /// How many walks went on by this cell. Each judged a node, but for those that ended at a node
    /// that was known.
    pub nodes: u32,
    /// The mean of what they found, for the player to move: 0 if the search takes the cell for
    /// lost, 1,000 if for won, and else between. Before any walk it is what the search takes the
    /// cell for.
    pub value: u32,
    /// Who wins after a stone there, if stones or a report of H-search show what the search found.
    pub known: Option<Outcome>,
    /// How the search goes on after it, the other player's move first: each is one that it takes
    /// for won, or else the one with most walks.
    pub line: Vec<Cell>,
}

/// Rows go by their class, and in a class by their walks.
pub(crate) fn rank_of(row: &LookRow) -> u64
    ensures { result ≡ rank_of row.now }
{
    rank_by(row.known, row.value, row.nodes)
}

// The rank of a row with these parts.
fn rank_by(known: Option<Outcome>, value: u32, nodes: u32) -> u64
    ensures { result ≡ class_of known value * 2 ^ 32 + nodes }
{
    class_of(known, value) * (1 << 32) + u64::from(nodes)
}

// The class of a row: known to be won 4, taken for won 3, taken for lost 1, known to be lost 0, and
// any other 2.
fn class_of(known: Option<Outcome>, value: u32) -> u64
    ensures value { result ≡ class_of known value }
    ensures few { result ≤ 4 }
{
    match known {
        Some(Outcome::Won) => 4,
        Some(Outcome::Lost) => 0,
        None => class_of_value(value),
    }
}

// The class of a row of which nothing is known.
fn class_of_value(value: u32) -> u64
    ensures value { result ≡ class_of None value }
    ensures few { result ≤ 4 }
{
    if value == 1000 {
        3
    } else if value == 0 {
        1
    } else {
        2
    }
}

/// What a look-ahead found: the cell that it chose, how many nodes it has, and its rows.
#[derive(Debug, Drop)]
pub struct Looked {
    cell: Cell,
    nodes: u32,
    rows: Vec<LookRow>,
}

impl Model for Looked {
    ghost use Rattle.look_ahead.specs.Looked.{LookedData};

    ghost Value = { LookedData };

    ghost view = { λ l. record { cell = l.cell; nodes = l.nodes; rows = l.rows.items } };
}

impl Looked {
    /// What was found. It takes no memory.
    pub(crate) fn of(cell: Cell, nodes: u32, rows: Vec<LookRow>) -> Looked
        ensures { result ≡ record { cell = cell; nodes = nodes; rows = rows.items } }
    {
        Looked { cell, nodes, rows }
    }

    /// The cell that was chosen.
    pub fn cell(&self) -> Cell
        ensures { result ≡ self.now.cell }
    {
        self.cell
    }

    /// How many nodes it has.
    pub fn nodes(&self) -> u32
        ensures { result ≡ self.now.nodes }
    {
        self.nodes
    }

    /// A row for each cell that was given.
    pub fn rows(&self) -> &[LookRow]
        ensures { result.now ≡ self.now.rows }
    {
        &self.rows
    }
}

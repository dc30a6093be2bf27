//! The start stones that a record's root names.

ghost use Rattle.std.specs.Prelude.{◌≡◌, map};
ghost use Rattle.hex_cells.specs.Vertices.{vertex_cell};
ghost use Rattle.sgf_game.specs.Lines.{nodes_lent};
ghost use Rattle.sgf_game.specs.Values.{trimmed};
ghost use Rattle.sgf_game.specs.Setup.{IsStartOf, changes, is_changed_late, cells_named};
ghost use Rattle.sgf_game.specs.Placing.{placed_on};

use super::values::{has_named, is_named, trimmed};
use hex_board::Board;
use hex_cells::{CellSet, Size, read_vertex};
use sgf_tree::{Node, SgfText};

/// Whether the node adds stones or takes them away.
fn changes(node: &Node) -> bool
    ensures { result ≡ changes node.now }
{
    has_named(node, b"AB") || has_named(node, b"AW") || has_named(node, b"AE")
}

/// Whether a node behind the root adds stones or takes them away, or the root takes some away.
fn is_changed_late(root: &Node, behind: &[&Node]) -> bool
    ensures { result ≡ is_changed_late root.now (nodes_lent behind.now) }
{
    for node in behind {
        if changes(node) {
            return true;
        }
    }
    has_named(root, b"AE")
}

/// The stones with those that the values name, each on a cell that is not in `taken` and has none
/// of these stones yet.
fn with_values(stones: CellSet, taken: CellSet, values: &[SgfText], size: Size) -> Option<CellSet>
    ensures { result ≡ placed_on taken stones (map (vertex_cell size) (map trimmed values.now)) }
{
    let mut all = stones;
    for value in values {
        let cell = read_vertex(trimmed(value), size)?;
        if taken.has(cell) || all.has(cell) {
            return None;
        }
        all = all.with(cell);
    }
    Some(all)
}

/// The stones of the root's properties of this name, each on a cell that is not in `taken` and is
/// named once.
fn stones_named(root: &Node, name: &[u8], taken: CellSet, size: Size) -> Option<CellSet>
    ensures { result ≡ placed_on taken 0 (cells_named size name.now root.now) }
{
    let mut stones = CellSet::none();
    for prop in root.props.as_slice() {
        if is_named(prop, name) {
            stones = with_values(stones, taken, prop.values.as_slice(), size)?;
        }
    }
    Some(stones)
}

/// The start board of a line; `None` exactly if its set-up is refused.
pub fn start_of(root: &Node, behind: &[&Node], size: Size) -> Option<Board>
    ensures { IsStartOf size root.now (nodes_lent behind.now) result }
{
    if is_changed_late(root, behind) {
        return None;
    }
    size.keeps();
    let black = stones_named(root, b"AB", CellSet::none(), size)?;
    let white = stones_named(root, b"AW", black, size)?;
    Some(Board::of(size, black, white))
}

//! The table of the linked blocks.

ghost use Rattle.std.specs.Prelude.{◌≡◌, ◌≤◌, MatchBool, length, true};
ghost use Rattle.hex_board.specs.Positions.{is_empty_at};
ghost use Rattle.tree_words.specs.Paths.{state_after};
ghost use Rattle.trace_audit.specs.Scans.{HasEntry, HasNoEntry};
ghost use Rattle.trace_audit.specs.Tables.{site_state};

use super::index::Index;
use hex_board::Board;
use hex_cells::{Cell, Colour};

/// A linked block: the board of its parent, its first word, and the player to move there. The board
/// comes first, since it is aligned most: so a site has 64 bytes and not 80.
#[derive(Clone, Copy, Debug)]
pub(crate) struct Site {
    pub(crate) board: Board,
    pub(crate) start: usize,
    pub(crate) player: Colour,
}

impl Site {
    /// The board and the player to move after a stone on the cell.
    pub(crate) fn after(&self, cell: Cell) -> Site
        requires { is_empty_at self.now.board cell ≡ true }
        ensures { site_state result ≡ state_after (site_state self.now) cell }
    {
        let mut board = self.board;
        board.place(self.player, cell);
        Site {
            start: self.start,
            board,
            player: self.player.other(),
        }
    }
}

/// The linked blocks: each one's site, and for the first word of each block the number of its site;
/// and how many words the blocks have but for the root's.
#[derive(Drop)]
pub(crate) struct Table {
    pub(crate) index: Index,
    pub(crate) sites: Vec<Site>,
    pub(crate) others: usize,
}

/// Whether a block was entered between these words.
pub(crate) fn has_entry(index: &Index, from: usize, to: usize) -> bool
    requires { to ≤ length index.now }
    ensures { MatchBool result (HasEntry index.now from to) (HasNoEntry index.now from to) }
{
    'words: for i in from..to {
        if index.entry(i) != 0 {
            return true;
        }
    }
    false
}

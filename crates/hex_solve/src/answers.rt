//! What the solver answers.

use hex_board::Board;
use hex_cells::{Cell, Colour};
use hsearch::Report;
use win_cert::Cert;

/// Who wins a position, or why that is not told.
#[derive(Drop)]
pub enum Solved {
    /// The winner, with a certificate that he wins.
    Won {
        winner: Colour,
        cert: Cert,
    },
    /// The budget is spent. If connections were looked for, there is the report of the player to
    /// move, too. The best cell is the one that the search with connections would have tried next,
    /// or the first empty one if that names none.
    Unknown {
        spent: u64,
        own: Option<Report>,
        best: Option<Cell>,
    },
    /// The winner. His certificate by the search without connections has too many lines to be
    /// written: so many, up to the greatest number of 64 bits.
    TooLong {
        winner: Colour,
        lines: u64,
    },
    /// A full board that keeps all stones, on which nobody is joined. There is none, by a theorem
    /// of Hex that is not proved here.
    Open {
        full: Board,
    },
}

//! Plans: what is known before a search.

use super::threats::Threats;
use hex_cells::{Cell, CellSet};
use win_cert::Cert;

/// What is to be done on a board.
#[derive(Debug, Drop)]
pub enum Plan {
    /// The player wins by this cell, and the certificate shows it.
    Win {
        cert: Cert,
        cell: Cell,
    },
    /// A search among the allowed cells. Each move outside the carrier of a threat loses. If the
    /// board is lost, no cell lies in all carriers, and all empty cells are allowed.
    Search {
        threats: Threats,
        allowed: CellSet,
        lost: bool,
    },
}

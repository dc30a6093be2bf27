//! Certificates.

use super::Lines;
use conn_store::Kind;
use hex_board::Board;
use hex_cells::Colour;

/// The version without scopes and cases.
pub const FIRST_VERSION: u32 = 1;

/// The version with scopes and cases.
pub const SECOND_VERSION: u32 = 2;

/// The version in which `or` takes any number of entries.
pub const THIRD_VERSION: u32 = 3;

/// The version in which entries are lifted to scopes with more stones.
pub const LATEST_VERSION: u32 = 4;

/// The most derivation lines of a certificate of versions 1 to 3.
pub const MOST_LINES: usize = 200_000;

/// The most derivation lines of a certificate of version 4.
pub const MOST_LATEST_LINES: usize = 1_000_000;

/// A certificate.
#[derive(Debug, Drop)]
pub struct Cert {
    pub version: u32,
    /// The board on which the player is to win.
    pub board: Board,
    pub player: Colour,
    /// The derivation lines, numbered from 0.
    pub lines: Lines,
    /// The claim: that the player wins if he moves first (semi), or even if the opponent does
    /// (full).
    pub claim: Kind,
    /// The number of the line whose entry shows the claim.
    pub entry: u32,
}

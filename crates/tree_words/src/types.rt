//! The fields of a node and of a block's header, as a reader of the words sees them.

use hex_cells::CellSet;

/// The fields of a node.
#[derive(Clone, Copy, Debug, PartialEq, Eq)]
pub struct NodeFields {
    /// The number of its cell; 0 for the root.
    pub cell: u32,
    /// Its place in its block, from 0; 0 for the root.
    pub place: u32,
    /// The first word of the block below it, or 0.
    pub link: u32,
    /// How many playouts went through it.
    pub visits: u32,
    /// How many of these its mover won.
    pub wins: u32,
    /// How many playouts through its block put its mover's stone on its cell.
    pub seen: u32,
    /// How many of these its mover won.
    pub seen_wins: u32,
}

/// The fields of a block's header.
#[derive(Clone, Copy, Debug, PartialEq, Eq)]
pub struct Block {
    /// The first word of its parent node.
    pub parent: u32,
    /// The empty cells of the parent's board.
    pub empties: CellSet,
    /// How many nodes it has.
    pub count: u32,
}

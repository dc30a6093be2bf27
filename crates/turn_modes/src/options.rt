//! What the modes are told.

use hex_cells::Size;
use hex_plan::Means;
use tree_words::Knobs;

/// What the modes sim and bench are asked for.
#[derive(Clone, Copy, Debug, PartialEq, Eq)]
pub struct ModeOptions {
    /// The size of the board.
    pub size: Size,
    /// The knobs of the search, in their ranges. The seed shuffles the cells of bench and draws the
    /// schedule of sim too.
    pub knobs: Knobs,
    /// How many steps the schedule of sim has.
    pub steps: u32,
    /// By what means bench chooses its cell, beside the tree's search. Sim uses none.
    pub means: Means,
}

//! The layout: where each part of a tree stands among its words, and how many words there are at
//! most.
//!
//! ```text
//! 0                NEXT: the first word that is not claimed yet
//! 1                TICKET: the next playout number
//! 2 ..             one record for each of N playouts
//! N + 2 ..         the root node: move, link, tally, seen
//! N + 6 ..         the block area, of as many words as the knobs say
//!
//! a node           move, link, tally, seen
//! a block          parent, empty cells 0 to 63, empty cells 64 to 120, count; then its nodes
//! a move           256 * place + cell
//! a tally, a seen  2^32 * visits + wins
//! a record         2 * leaf, and 1 more if White won
//! ```

use hex_cells::MOST_CELLS;

/// NEXT is the first word.
pub const NEXT_AT: usize = 0;

/// TICKET is the second word.
pub const TICKET_AT: usize = 1;

/// The records begin behind NEXT and TICKET.
pub const RECORDS_AT: usize = 2;

/// The words before the block area besides the records: NEXT, TICKET and the root's four.
pub const FRONT_WORDS: usize = 6;

/// A node has four words: its move, its link, its tally and its seen word.
pub const NODE_WORDS: usize = 4;

/// The link is the second word of a node.
pub const LINK_WORD: usize = 1;

/// The tally is the third word of a node.
pub const TALLY_WORD: usize = 2;

/// The seen word is the fourth word of a node.
pub const SEEN_WORD: usize = 3;

/// A block's header has four words, of which the first is the parent node's.
pub const HEADER_WORDS: usize = 4;

/// The second word of a header has the empty cells 0 to 63, as bits.
pub const LOW_EMPTIES_WORD: usize = 1;

/// The third word of a header has the empty cells from 64 on.
pub const HIGH_EMPTIES_WORD: usize = 2;

/// The fourth word of a header has the number of the block's nodes.
pub const COUNT_WORD: usize = 3;

/// The empty cells from this one on stand in the third word of a header, since a word has 64 bits.
pub const HIGH_EMPTIES_SHIFT: u32 = 64;

/// A move word is so many times the place, and the cell, whose number is below 256.
pub const PLACE_UNIT: u64 = 256;

/// The visits stand above the wins, in the upper half of a tally and of a seen word: no count comes
/// near 2^32.
pub const VISITS_SHIFT: u32 = 32;

/// One visit, as a tally and a seen word have it.
pub const VISIT: u64 = 1 << VISITS_SHIFT;

/// A record is so many times its leaf's first word, so that its lowest bit tells who won.
pub const RECORD_UNIT: u64 = 2;

/// A block has at most a node for each cell of the largest board.
pub const MOST_NODES: usize = MOST_CELLS as usize;

/// The words of the largest block: 488.
pub const MOST_BLOCK_WORDS: usize = HEADER_WORDS + NODE_WORDS * MOST_NODES;

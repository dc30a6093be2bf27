//! The cells of a Hex board: sizes, cells, sets of cells, the board graph and vertices.
//!
//! **Nouns.** A [`Size`] is 1 to 11. A [`Cell`] is the number `row * size + column`, from 0 to 120.
//! A [`CellSet`] is a set of cells in one `u128`. A [`Colour`] is a player. The board graph is the
//! neighbours of a cell and the two edges of each player. A vertex is a cell's name in text, as
//! `c2`, a colour's word is `black` or `white`, and a decimal is a number's text.
//!
//! **A caller** makes a [`Size`] by [`Size::of`], a [`Cell`] by [`Cell::at`] or [`read_vertex`],
//! and goes over a set by [`CellSet::least`] and [`CellSet::without`], or picks from it by
//! [`CellSet::nth`].
//!
//! **What is proved.** Each set operation for every cell, and the number of a set, which callers
//! compare as data. The neighbours and edges as the rules of the game have them in columns and
//! rows. Vertices both ways, a colour's word, and the decimal of a number.
//!
//! **What is only tested, or not said.** Speed, and what the derived `Debug` prints.
//!
//! **Limits.** Boards of 1 by 1 to 11 by 11 cells. [`push_number`] alone takes memory.
//!
//! **Why so.**
//!
//! - A set is two words for the processor: it counts and shifts 64 bits at once, and a shift of 128
//!   bits by a number that it doesn't know takes some ten instructions. So `nth` finds by one count
//!   in which half the cell is, and halves that word; the set of a single cell is read from a
//!   table, each of whose numbers is proved.
//! - There are more calls than one layer needs (`around`, `without`, `rank`, `meets`, `is_empty`):
//!   crates above use them on sets that are no board.
//! - A number below 100 is written without memory, into bytes of its caller: a vertex's row here,
//!   the size of a record in sgf_game, the rows of hex_engine's picture. [`push_number`] writes any
//!   number at the end of a text that grows.
#![tactic(auto)]

mod board_size;
mod cell_number;
mod colours;
mod decimals;
mod edges;
mod graph;
mod halves;
mod sets;
mod singles;
mod vertices;

pub use board_size::{MOST_CELLS, Size};
pub use cell_number::Cell;
pub use colours::Colour;
pub use decimals::{DECIMAL_LEN, push_number, write_decimal};
pub use edges::edge;
pub use graph::neighbours;
pub use sets::CellSet;
pub use vertices::{VERTEX_LEN, read_vertex, vertex_is_read_back, write_vertex};

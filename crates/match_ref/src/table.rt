//! The options of hexmatch, a line each. The code and the definitions of specs/MatchTable.antt and
//! specs/MatchWords.antt read them here, and tools/check_manual compares the documents with them.

use super::settings::{MOST_GAMES, MOST_OPENINGS, MOST_THREADS};
use hex_cells::Size;
use option_words::{LongNumberOption, NumberOption};
use tree_words::{LEAST_WORDS, MOST_EXPAND, MOST_PLAYOUTS, MOST_WORDS};
use uct_table::MOST_WEIGHT;

/// An option of the sides that is a number: its name for side a, that for side b, its default, and
/// its least and its greatest number.
pub type SideNumber = (&'static str, &'static str, &'static str, u32, u32);

/// `--size`: the cells on a side of the board.
pub const SIZE: NumberOption = ("size", "5", 1, Size::MAX);

/// `--games`: how many games are played.
pub const GAMES: NumberOption = ("games", "10", 1, MOST_GAMES);

/// `--threads`: in how many threads.
pub const THREADS: NumberOption = ("threads", "1", 1, MOST_THREADS);

/// `--seed`: where the random numbers begin.
pub const SEED: LongNumberOption = ("seed", "0", 0, u64::MAX);

/// `--records`: whether the record of each game is wanted, `on` or `off`; and its default.
pub const RECORDS: (&'static str, &'static str) = ("records", "off");

/// `--opening`: the list of the openings, and the most of them. By default there is none.
pub const OPENING: (&'static str, usize) = ("opening", MOST_OPENINGS);

/// `--playouts-a`, `--playouts-b`: how many playouts the side makes for a move.
pub const PLAYOUTS: SideNumber = ("playouts-a", "playouts-b", "1000", 1, MOST_PLAYOUTS);

/// `--words-a`, `--words-b`: the room of the side's search tree in words.
pub const WORDS: SideNumber = ("words-a", "words-b", "65536", LEAST_WORDS, MOST_WORDS);

/// `--expand-a`, `--expand-b`: the visits at which a node of such a tree gets its children.
pub const EXPAND: SideNumber = ("expand-a", "expand-b", "8", 1, MOST_EXPAND);

/// `--weight-a`, `--weight-b`: how much exploration weighs in the side's scores.
pub const WEIGHT: SideNumber = ("weight-a", "weight-b", "180", 0, MOST_WEIGHT);

/// `--solve-a`, `--solve-b`: how many positions the side's search for a certificate may enter.
pub const SOLVE: SideNumber = ("solve-a", "solve-b", "0", 0, 10_000_000);

/// `--look-a`, `--look-b`: how many nodes the side's look-ahead may judge.
pub const LOOK: SideNumber = ("look-a", "look-b", "0", 0, 1_000_000);
